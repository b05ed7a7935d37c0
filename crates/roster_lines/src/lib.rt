// A roster as text: a line for each account that is not unknown, a line for each label, and the sum of all accounts.
#![tactic(auto)]

ghost use Rattle.std.specs.Prelude.{◌++◌, ◌≡◌, ◌+◌, ◌*◌, ◌≤◌, ◌<◌, length, sum as sum_of};
ghost use Rattle.buffers.specs.Put.{Put};
ghost use Rattle.decimals.specs.Worded.{space, worded};
ghost use Rattle.format.specs.Names.{unpadded};
ghost use Rattle.lists.specs.Tables.{listed, concat_below};
ghost use Rattle.plan_texts.specs.Listing.{total_word};
ghost use Rattle.policy_file.specs.File.{name_of};
ghost use Rattle.roster_answers.specs.RosterText.{activity_word, account_line, line_at, count_line, roster_listing};
ghost use Rattle.roster_file.specs.Counts.{count_in, Placed};
ghost use Rattle.roster_file.specs.declared.Standing.TheVariants.{Withdrawn, On};
ghost use Rattle.roster_lines.specs.Named.{HasName, HaveNames};
ghost use Rattle.trees.specs.Sums.{sum};
ghost use Rattle.weights.specs.Tables.{entries};

use roster_file::{Account, Activity, Roster, Standing};

// Writes whether an account is active or held, and ends its line.
fn put_activity(activity: Activity, out: &mut [u8], at: usize) -> usize
    requires { at + length (activity_word activity) ≤ length out.old }
    ensures { Put out.old out.new at (activity_word activity) result }
{
    match activity {
        Activity::Active => buffers::put_bytes(out, at, b" active\n"),
        Activity::Held => buffers::put_bytes(out, at, b" held\n"),
    }
}

// Writes a space and the name of label `l`.
fn put_place(policy: &[u8], l: usize, out: &mut [u8], at: usize) -> usize
    requires { (12 * l + 12 ≤ length policy.now) × (at + length (space ++ unpadded (name_of policy.now l)) ≤ length out.old) }
    ensures { Put out.old out.new at (space ++ unpadded (name_of policy.now l)) result }
{
    let behind = buffers::put_bytes(out, at, b" ");
    line_parts::put_name(policy, l, out, behind)
}

// Writes the line of account `number` on label `l`.
fn put_placed(
    policy: &[u8],
    number: u32,
    l: usize,
    activity: Activity,
    out: &mut [u8],
    at: usize,
) -> usize
    requires { (12 * l + 12 ≤ length policy.now) × (at + length (account_line policy.now number (On l activity)) ≤ length out.old) }
    ensures { Put out.old out.new at (account_line policy.now number (On l activity)) result }
{
    let behind = decimals::put_decimal(out, at, number);
    let end = put_place(policy, l, out, behind);
    put_activity(activity, out, end)
}

// Writes the line of account `number`, which is withdrawn.
fn put_withdrawn(policy: &[u8], number: u32, out: &mut [u8], at: usize) -> usize
    requires { at + length (account_line policy.now number Withdrawn) ≤ length out.old }
    ensures { Put out.old out.new at (account_line policy.now number Withdrawn) result }
{
    let behind = decimals::put_decimal(out, at, number);
    buffers::put_bytes(out, behind, b" - withdrawn\n")
}

// Writes the line of account `number`, or nothing if it is unknown.
fn put_account(policy: &[u8], number: u32, account: Account, out: &mut [u8], at: usize) -> usize
    requires { HasName policy.now account.standing × (at + length (account_line policy.now number account.standing) ≤ length out.old) }
    ensures { Put out.old out.new at (account_line policy.now number account.standing) result }
{
    match account.standing {
        Standing::Unknown => at,
        Standing::Withdrawn => put_withdrawn(policy, number, out, at),
        Standing::On(l, activity) => {
            put_placed(policy, number, usize::from(l), activity, out, at)
        }
    }
}

// Writes the lines of all accounts from the buffer's start on.
fn put_accounts(policy: &[u8], roster: Roster, out: &mut [u8]) -> usize
    requires { HaveNames policy.now roster × (length (concat_below (line_at policy.now roster) 4096) ≤ length out.old) }
    ensures { Put out.old out.new 0 (concat_below (line_at policy.now roster) 4096) result }
{
    let mut at = 0;
    for (i, account) in roster.accounts.iter().enumerate() {
        at = put_account(policy, i as u32 + 1, *account, out, at);
    }
    at
}

// Writes the line of label `l` with its count.
fn put_count(policy: &[u8], l: usize, count: u32, out: &mut [u8], at: usize) -> usize
    requires { (12 * l + 12 ≤ length policy.now) × (at + length (worded (unpadded (name_of policy.now l)) count) ≤ length out.old) }
    ensures { Put out.old out.new at (worded (unpadded (name_of policy.now l)) count) result }
{
    let behind = line_parts::put_name(policy, l, out, at);
    let end = decimals::put_number(out, behind, count);
    buffers::put_bytes(out, end, b"\n")
}

// Writes the lines of all labels from `start` on.
fn put_counts(
    policy: &[u8],
    labels: usize,
    counts: [u16; 64],
    out: &mut [u8],
    start: usize,
) -> usize
    requires { (labels ≤ 64) × (12 * labels ≤ length policy.now) × (start + length (concat_below (count_line policy.now (entries counts)) labels) ≤ length out.old) }
    ensures { Put out.old out.new start (concat_below (count_line policy.now (entries counts)) labels) result }
{
    let mut at = start;
    for (l, count) in counts[..labels].iter().enumerate() {
        at = put_count(policy, l, u32::from(*count), out, at);
    }
    at
}

// The accounts of these labels.
fn sum_counts(counts: &[u16]) -> u32
    requires { length counts.now ≤ 64 }
    ensures { result ≡ sum_of counts.now }
{
    counts.iter().map(|count| u32::from(*count)).sum()
}

// Writes the last line, with the accounts of all labels.
fn put_total(counts: [u16; 64], labels: usize, out: &mut [u8], at: usize) -> usize
    requires { (labels ≤ 64) × (at + length (worded total_word (sum (entries counts) labels)) ≤ length out.old) }
    ensures { Put out.old out.new at (worded total_word (sum (entries counts) labels)) result }
{
    let total = sum_counts(&counts[..labels]);
    decimals::put_worded(out, at, b"TOTAL", total)
}

// Writes the text of a roster from the buffer's start on, with the names of a policy's labels and the accounts counted on each.
// No text has more than 86,925 bytes.
pub fn put_listing(
    policy: &[u8],
    labels: usize,
    roster: Roster,
    counts: [u16; 64],
    out: &mut [u8],
) -> usize
    requires { (labels ≤ 64) × (12 * labels ≤ length policy.now) × Placed labels roster × (counts ≡ listed (count_in roster) 64) × (86_925 ≤ length out.old) }
    ensures { Put out.old out.new 0 (roster_listing policy.now labels roster) result }
{
    let behind = put_accounts(policy, roster, out);
    let end = put_counts(policy, labels, counts, out, behind);
    put_total(counts, labels, out, end)
}
