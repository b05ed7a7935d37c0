// The fingerprint of a root secret: eight bytes by which a wrong root file is noticed.
#![tactic(auto)]

ghost use Rattle.std.specs.Prelude.{◌≡◌};
ghost use Rattle.fingerprint.specs.Fingerprint.{fingerprint_of};

// The fingerprint, or the refusal with zeros. There is no padding.
#[repr(C)]
#[derive(Clone, Copy)]
pub struct RootFingerprint {
    pub refusal: u8,
    pub bytes: [u8; 8],
}

// The fingerprint of a root secret of 32 bytes; any other length is refused.
pub fn fingerprint(root: &[u8]) -> RootFingerprint
    ensures { result ≡ fingerprint_of root.now }
{
    if root.len() != 32 {
        return RootFingerprint {
            refusal: 15,
            bytes: [0u8; 8],
        };
    }
    let mac = hmac::hmac_bytes(root, b"Yendlowa root fingerprint");
    RootFingerprint {
        refusal: 0,
        bytes: format::read_bytes(&mac, 0),
    }
}
