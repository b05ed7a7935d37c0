// The issuer's keys, envelopes and root fingerprints for C callers, each function by the equation of the operation itself. A slice is passed as a pointer and a length.
#![tactic(auto)]

ghost use Rattle.std.specs.Prelude.{◌≡◌, length};
ghost use Rattle.fingerprint.specs.Fingerprint.{fingerprint_of};
ghost use Rattle.issuer_answers.specs.Keys.{issuer_key_of};
ghost use Rattle.issuer_answers.specs.Issue.{issued_of, envelope_after};

use buffers::Written;
use fingerprint::RootFingerprint;
use issuer_answers::IssuerKey;

#[unsafe(no_mangle)]
pub extern "C" fn yendlowa_issuer_key(policy: &[u8], name: &[u8], root: &[u8]) -> IssuerKey
    ensures { result ≡ issuer_key_of policy.now name.now root.now }
{
    issuer_keys::issuer_key(policy, name, root)
}

#[unsafe(no_mangle)]
pub extern "C" fn yendlowa_issue(
    policy: &[u8],
    name: &[u8],
    account: u32,
    root: &[u8],
    envelope: &mut [u8],
) -> Written
    ensures { (result ≡ issued_of policy.now name.now account root.now (length envelope.old)) × (envelope.new ≡ envelope_after policy.now name.now account root.now envelope.old) }
{
    issuer::issue(policy, name, account, root, envelope)
}

#[unsafe(no_mangle)]
pub extern "C" fn yendlowa_fingerprint(root: &[u8]) -> RootFingerprint
    ensures { result ≡ fingerprint_of root.now }
{
    fingerprint::fingerprint(root)
}
