// A policy and a roster of its accounts: both files read, and the policy with the roster's counts.
#![tactic(auto)]

ghost use Rattle.std.specs.Fn.{FnOnceReturnsAt};
ghost use Rattle.std.specs.Prelude.{◌≡◌, length};
ghost use Rattle.roster_answers.specs.Counted.{counted_written, counted_after};
ghost use Rattle.roster_answers.specs.Rostered.{refused_rostered, rostered_of};
ghost use Rattle.rosters.specs.Counting.{Counting, Writing, WritingCounted};

use buffers::Written;
use roster_answers::Rostered;

// The answer for refused files.
fn refuse(number: u8) -> Rostered
    ensures { result ≡ refused_rostered number }
{
    Rostered {
        refusal: number,
        labels: 0,
        roster: roster_reading::empty(),
    }
}

// The labels of a policy and the roster of its accounts, or the number of the refusal: the policy's before the roster's.
pub fn read_files(policy: &[u8], roster: &[u8]) -> Rostered
    ensures { result ≡ rostered_of policy.now roster.now }
{
    let read = policy::read_policy(policy);
    if read.refusal != 0 {
        return refuse(read.refusal);
    }
    let stop = roster_reading::read_roster(policy, read.labels, roster);
    if stop.refusal != 0 {
        return refuse(stop.refusal);
    }
    let accounts = stop.roster;
    Rostered {
        refusal: 0,
        labels: read.labels,
        roster: accounts,
    }
}

// Hands out the policy with the roster's counts in place of its own.
pub fn count_policy(policy: &[u8], roster: &[u8], out: &mut [u8]) -> Written
    ensures { (result ≡ counted_written policy.now roster.now (length out.old)) × (out.new ≡ counted_after policy.now roster.now out.old) }
{
    let read = read_files(policy, roster);
    if read.refusal != 0 {
        return buffers::refuse(read.refusal);
    }
    let accounts = read.roster;
    let counts = tallies::tally(accounts);
    recounts::recount(policy, read.labels, counts, out)
}

// What an operation answers to the policy with the roster's counts in place of its own, or the number of the refusal.
pub fn on_counted<T, F: FnOnce(&[u8]) -> T>(
    policy: &[u8],
    roster: &[u8],
    answer: F,
) -> Result<T, u8>
    requires { F.IsAlwaysCallable answer }
    ensures { Counting (FnOnceReturnsAt F.FnOnce answer) policy.now roster.now result }
{
    let mut counted = [0u8; 2816];
    let written = count_policy(policy, roster, &mut counted);
    if written.refusal != 0 {
        return Err(written.refusal);
    }
    Ok(answer(&counted[..written.length]))
}

// The same of an operation that writes into a buffer, which a refusal leaves as it was.
pub fn write_counted<F: FnOnce(&[u8], &mut [u8]) -> Written>(
    policy: &[u8],
    roster: &[u8],
    out: &mut [u8],
    write: F,
) -> Written
    requires { F.IsAlwaysCallable write }
    ensures { WritingCounted (Writing F.FnOnce write) policy.now roster.now out.old result out.new }
{
    let mut counted = [0u8; 2816];
    let written = count_policy(policy, roster, &mut counted);
    if written.refusal != 0 {
        return buffers::refuse(written.refusal);
    }
    write(&counted[..written.length], out)
}
