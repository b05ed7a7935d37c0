// Bytes in hexadecimal.
#![tactic(auto)]

ghost use Rattle.std.specs.Prelude.{◌≡◌, ◌<◌, length};
ghost use Rattle.buffers.specs.Handed.{handed, handed_into};
ghost use Rattle.hexadecimal.specs.Hex.{hex_digit, hex_byte, hex_of};

use buffers::Written;

// The sign of a hexadecimal digit, in lower case.
fn hex_digit(d: u8) -> u8
    requires { d < 16 }
    ensures { result ≡ hex_digit d }
{
    if d < 10 { b'0' + d } else { b'a' - 10 + d }
}

// A byte as two hexadecimal digits.
#[tactic(auto, unfolding(crate::specs::Hex::hex_byte))]
fn hex_byte(byte: u8) -> [u8; 2]
    ensures { result ≡ hex_byte byte }
{
    [hex_digit(byte / 16), hex_digit(byte % 16)]
}

// Hands out bytes as hexadecimal digits, two a byte.
pub fn hex(bytes: &[u8], out: &mut [u8]) -> Written
    ensures { (result ≡ handed (hex_of bytes.now) (length out.old)) × (out.new ≡ handed_into (hex_of bytes.now) out.old) }
{
    if out.len() / 2 < bytes.len() {
        return buffers::refuse(16);
    }
    let mut at = 0;
    for byte in bytes {
        at = buffers::put_bytes(out, at, &hex_byte(*byte));
    }
    buffers::wrote(at)
}
