// Where a refusal was given: the lines of refused policies, rosters, tree files and envelopes.
#![tactic(auto)]

ghost use Rattle.std.specs.Prelude.{◌≤◌, length};
ghost use Rattle.buffers.specs.Put.{Put};
ghost use Rattle.places.specs.Told.{record_place, policy_place, envelope_place, policy_line, roster_line, tree_line, envelope_line};

// Writes that a refusal was given at the record after those that were read. Records are counted from 1.
fn put_record(out: &mut [u8], records: &[u8], read: usize) -> usize
    requires { length (record_place records.now read) ≤ length out.old }
    ensures { Put out.old out.new 0 (record_place records.now read) result }
{
    let number = decimals::capped(read) + 1;
    let next = buffers::put_bytes(out, 0, records);
    let end = decimals::put_number(out, next, number);
    buffers::put_bytes(out, end, b": ")
}

// Writes where a policy was refused: by 2 to 9 at a record.
fn put_policy_place(out: &mut [u8], number: u8, read: usize) -> usize
    requires { 128 ≤ length out.old }
    ensures { Put out.old out.new 0 (policy_place number read) result }
{
    match number {
        2..=9 => put_record(out, b"policy record", read),
        _ => buffers::put_bytes(out, 0, b"policy file: "),
    }
}

// Writes where an envelope was refused: by 17 at its header.
fn put_envelope_place(out: &mut [u8], number: u8, read: usize) -> usize
    requires { 128 ≤ length out.old }
    ensures { Put out.old out.new 0 (envelope_place number read) result }
{
    match number {
        17 => buffers::put_bytes(out, 0, b"envelope header: "),
        _ => put_record(out, b"envelope record", read),
    }
}

// Writes the line of a refused policy.
pub fn put_policy(out: &mut [u8], number: u8, read: usize) -> usize
    requires { 128 ≤ length out.old }
    ensures { Put out.old out.new 0 (policy_line number read) result }
{
    let next = put_policy_place(out, number, read);
    refusals::put_line(out, next, number)
}

// Writes the line of a refused roster.
pub fn put_roster(out: &mut [u8], number: u8, read: usize) -> usize
    requires { 128 ≤ length out.old }
    ensures { Put out.old out.new 0 (roster_line number read) result }
{
    let next = put_record(out, b"roster record", read);
    refusals::put_line(out, next, number)
}

// Writes the line of a refused tree file.
pub fn put_tree(out: &mut [u8], number: u8) -> usize
    requires { 128 ≤ length out.old }
    ensures { Put out.old out.new 0 (tree_line number) result }
{
    let next = buffers::put_bytes(out, 0, b"tree file: ");
    refusals::put_line(out, next, number)
}

// Writes the line of a refused envelope.
pub fn put_envelope(out: &mut [u8], number: u8, read: usize) -> usize
    requires { 128 ≤ length out.old }
    ensures { Put out.old out.new 0 (envelope_line number read) result }
{
    let next = put_envelope_place(out, number, read);
    refusals::put_line(out, next, number)
}
