// Keys, envelopes and sealed files by the counts of a roster, for C callers, each function by the equation of the operation itself. A slice is passed as a pointer and a length.
#![tactic(auto)]

ghost use Rattle.std.specs.Prelude.{◌≡◌, length};
ghost use Rattle.roster_answers.specs.Counted.{roster_key, roster_sealed, roster_file_after};
ghost use Rattle.roster_answers.specs.Issue.{roster_issued, roster_envelope_after};

use buffers::Written;
use issuer_answers::IssuerKey;

#[unsafe(no_mangle)]
pub extern "C" fn yendlowa_issuer_key_roster(
    policy: &[u8],
    roster: &[u8],
    name: &[u8],
    root: &[u8],
) -> IssuerKey
    ensures { result ≡ roster_key policy.now roster.now name.now root.now }
{
    roster_issuer::issuer_key_roster(policy, roster, name, root)
}

#[unsafe(no_mangle)]
pub extern "C" fn yendlowa_issue_roster(
    policy: &[u8],
    roster: &[u8],
    name: &[u8],
    account: u32,
    root: &[u8],
    out: &mut [u8],
) -> Written
    ensures { (result ≡ roster_issued policy.now roster.now name.now account root.now (length out.old)) × (out.new ≡ roster_envelope_after policy.now roster.now name.now account root.now out.old) }
{
    roster_issuer::issue_roster(policy, roster, name, account, root, out)
}

#[unsafe(no_mangle)]
pub extern "C" fn yendlowa_seal_roster(
    policy: &[u8],
    roster: &[u8],
    name: &[u8],
    root: &[u8],
    nonce: &[u8],
    text: &[u8],
    out: &mut [u8],
) -> Written
    ensures { (result ≡ roster_sealed policy.now roster.now name.now root.now nonce.now text.now (length out.old)) × (out.new ≡ roster_file_after policy.now roster.now name.now root.now nonce.now text.now out.old) }
{
    roster_issuer::seal_roster(policy, roster, name, root, nonce, text, out)
}
