// Keys, envelopes and sealed files of a policy with the counts of a roster.
#![tactic(auto)]

ghost use Rattle.std.specs.Prelude.{◌≡◌, length};
ghost use Rattle.roster_answers.specs.Counted.{roster_key, roster_sealed, roster_file_after};
ghost use Rattle.roster_answers.specs.Issue.{roster_issued, roster_envelope_after};
ghost use Rattle.roster_file.specs.Machine.{standing_of};

use buffers::Written;
use issuer_answers::IssuerKey;
use roster_file::{Roster, Standing};

// The issuer's key for the label asked for.
pub fn issuer_key_roster(policy: &[u8], roster: &[u8], name: &[u8], root: &[u8]) -> IssuerKey
    ensures { result ≡ roster_key policy.now roster.now name.now root.now }
{
    rosters::on_counted(policy, roster, |counted| {
        issuer_keys::issuer_key(counted, name, root)
    })
    .unwrap_or_else(issuer_keys::refuse_key)
}

// How the account of a number stands.
#[tactic(auto, unfolding(roster_file::specs::Machine::standing_of, roster_file::specs::Machine::is_number))]
fn standing_of(roster: Roster, number: u32) -> Standing
    ensures { result ≡ standing_of roster number }
{
    match number {
        1..=4096 => roster.accounts[number as usize - 1].standing,
        _ => Standing::Unknown,
    }
}

// Writes the envelope of an account of the roster at the label asked for, or nothing if it is refused. It needs the roster beside the policy
// with its counts, which `write_counted` does not hand on.
pub fn issue_roster(
    policy: &[u8],
    roster: &[u8],
    name: &[u8],
    account: u32,
    root: &[u8],
    envelope: &mut [u8],
) -> Written
    ensures { (result ≡ roster_issued policy.now roster.now name.now account root.now (length envelope.old)) × (envelope.new ≡ roster_envelope_after policy.now roster.now name.now account root.now envelope.old) }
{
    let read = rosters::read_files(policy, roster);
    if read.refusal != 0 {
        return buffers::refuse(read.refusal);
    }
    let accounts = read.roster;
    let mut counted = [0u8; 2816];
    let counts = tallies::tally(accounts);
    let written = recounts::recount(policy, read.labels, counts, &mut counted);
    let standing = standing_of(accounts, account);
    standing_issue::issue_standing(
        &counted[..written.length],
        standing,
        name,
        account,
        root,
        envelope,
    )
}

// Writes a text, sealed for the label asked for, or nothing if it is refused.
pub fn seal_roster(
    policy: &[u8],
    roster: &[u8],
    name: &[u8],
    root: &[u8],
    nonce: &[u8],
    text: &[u8],
    out: &mut [u8],
) -> Written
    ensures { (result ≡ roster_sealed policy.now roster.now name.now root.now nonce.now text.now (length out.old)) × (out.new ≡ roster_file_after policy.now roster.now name.now root.now nonce.now text.now out.old) }
{
    rosters::write_counted(policy, roster, out, |counted, out| {
        sealing::seal(counted, name, root, nonce, text, out)
    })
}
