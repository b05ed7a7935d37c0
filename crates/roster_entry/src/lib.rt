// One record of a roster file: what it says, read with the names of a policy, and how many bytes it has.
#![tactic(auto)]

ghost use Rattle.std.specs.Prelude.{◌≡◌, ◌+◌, ◌*◌, ◌-◌, ◌≤◌, length};
ghost use Rattle.roster_file.specs.File.{number_in, target_in, entry_at, size_of};
ghost use Rattle.roster_entry.specs.Short.{short_entry, Whole};

use format::{HD, JN, MV, RL, WD};
use roster_file::Entry;

// The label of the policy that the `JN` or `MV` record at a byte names.
fn read_target(policy: &[u8], labels: usize, file: &[u8], at: usize) -> Option<u8>
    requires { (12 * labels ≤ length policy.now) × (labels ≤ 64) × (at + 12 ≤ length file.now) }
    ensures { result ≡ target_in policy.now labels file.now at }
{
    label_record::find_name(policy, labels, names::read_name(file, at + 4)).map(|l| l as u8)
}

// The record that starts at a byte.
pub fn read_entry(policy: &[u8], labels: usize, file: &[u8], at: usize) -> Entry
    requires { (12 * labels ≤ length policy.now) × (labels ≤ 64) × (at ≤ length file.now) }
    ensures { result ≡ entry_at policy.now labels file.now at }
{
    if file.len() - at < 2 {
        return Entry::Refused(2);
    }
    if format::marked(file, at, JN) {
        return read_named(policy, labels, file, at, Entry::Join);
    }
    if format::marked(file, at, MV) {
        return read_named(policy, labels, file, at, Entry::Move);
    }
    read_short(file, at)
}

// The record that starts at a byte, if it is neither a `JN` nor an `MV` record: those have no name.
fn read_short(file: &[u8], at: usize) -> Entry
    requires { at + 2 ≤ length file.now }
    ensures { result ≡ short_entry file.now at (length file.now - at) }
{
    if format::marked(file, at, HD) {
        return read_unnamed(file, at, Entry::Hold);
    }
    if format::marked(file, at, RL) {
        return read_unnamed(file, at, Entry::Release);
    }
    if format::marked(file, at, WD) {
        return read_unnamed(file, at, Entry::Withdraw);
    }
    Entry::Refused(2)
}

// The record of this kind that starts at a byte: 12 bytes, with an account's number and a label's name.
fn read_named<F: FnOnce(u16, Option<u8>) -> Entry>(
    policy: &[u8],
    labels: usize,
    file: &[u8],
    at: usize,
    kind: F,
) -> Entry
    requires within { (12 * labels ≤ length policy.now) × (labels ≤ 64) × (at ≤ length file.now) }
    requires kind { F.IsAlwaysCallable kind }
    ensures { Whole 12 (length file.now - at) (F.post kind (number_in file.now at) (target_in policy.now labels file.now at)) result }
{
    if file.len() - at < 12 {
        return Entry::Refused(3);
    }
    kind(
        format::read_number(file, at + 2),
        read_target(policy, labels, file, at),
    )
}

// The record of this kind that starts at a byte: 4 bytes, with an account's number.
fn read_unnamed<F: FnOnce(u16) -> Entry>(file: &[u8], at: usize, kind: F) -> Entry
    requires within { at ≤ length file.now }
    requires kind { F.IsAlwaysCallable kind }
    ensures { Whole 4 (length file.now - at) (F.post kind (number_in file.now at)) result }
{
    if file.len() - at < 4 {
        return Entry::Refused(3);
    }
    kind(format::read_number(file, at + 2))
}

// How many bytes a record has.
pub fn entry_size(entry: Entry) -> usize
    ensures { result ≡ size_of entry }
{
    match entry {
        Entry::Join(..) | Entry::Move(..) => 12,
        Entry::Hold(_) | Entry::Release(_) | Entry::Withdraw(_) => 4,
        Entry::Refused(_) => 0,
    }
}
