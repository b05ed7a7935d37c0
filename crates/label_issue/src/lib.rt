// The envelope of an account at a label that is found: what it is refused under, and the envelope handed out.
#![tactic(auto)]

ghost use Rattle.std.specs.Prelude.{◌≡◌, ◌+◌, ◌*◌, ◌≤◌, ◌<◌, length};
ghost use Rattle.buffers.specs.Handed.{handed, handed_into};
ghost use Rattle.secrets.specs.Asks.{Hung};
ghost use Rattle.writer.specs.Tabled.{table_envelope};
ghost use Rattle.issuer_answers.specs.Issue.{account_refusal};

use buffers::Written;

// The number that an account of label `l` or the root secret is refused under, 0 when they are not.
pub fn account_refusal(policy: &[u8], l: usize, account: u32, root: &[u8]) -> u8
    requires { 12 * l + 12 ≤ length policy.now }
    ensures { result ≡ account_refusal policy.now root.now account l }
{
    if account == 0 {
        return 14;
    }
    if (format::read_number(policy, 12 * l + 10) as u32) < account {
        return 14;
    }
    if root.len() != 32 {
        return 15;
    }
    0
}

// Hands out the envelope of an account at label `l`. No envelope has more than 2,700 bytes.
pub fn issue_label(
    policy: &[u8],
    labels: usize,
    rows: &[[bool; 64]; 64],
    parents: &[u8; 64],
    root: [u8; 32],
    l: usize,
    account: u32,
    envelope: &mut [u8],
) -> Written
    requires { Hung policy.now parents.now labels × (l < labels) }
    ensures { (result ≡ handed (table_envelope policy.now rows.now parents.now root l labels account) (length envelope.old)) × (envelope.new ≡ handed_into (table_envelope policy.now rows.now parents.now root l labels account) envelope.old) }
{
    let mut written = [0u8; 2700];
    let length = writer::write_envelope(
        policy,
        labels,
        rows,
        parents,
        root,
        l,
        account,
        &mut written,
    );
    buffers::hand_out(&written[..length], envelope)
}
