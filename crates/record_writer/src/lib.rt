// The parts of an envelope, written: its header, and the record of one label.
#![tactic(auto)]

ghost use Rattle.std.specs.Prelude.{◌++◌, ◌+◌, ◌*◌, ◌≤◌, ◌<◌, length};
ghost use Rattle.buffers.specs.Put.{Put};
ghost use Rattle.policy_file.specs.File.{name_of};
ghost use Rattle.envelopes.specs.Envelope.{header, held_record, under_record};
ghost use Rattle.record_writer.specs.Either.{label_record};

use format::{EN, KD, KS};

// Writes three parts, one behind the other.
fn put_parts(out: &mut [u8], at: usize, first: &[u8], second: &[u8], third: &[u8]) -> usize
    requires { at + length (first.now ++ second.now ++ third.now) ≤ length out.old }
    ensures { Put out.old out.new at (first.now ++ second.now ++ third.now) result }
{
    let behind = buffers::put_bytes(out, at, first);
    let place = buffers::put_bytes(out, behind, second);
    buffers::put_bytes(out, place, third)
}

// Writes the header from the buffer's start on.
pub fn put_header(out: &mut [u8], account: u32, name: [u8; 8]) -> usize
    requires { length (header account name) ≤ length out.old }
    ensures { Put out.old out.new 0 (header account name) result }
{
    let number = (account % 65536) as u16;
    put_parts(out, 0, &EN, &number.to_be_bytes(), &name)
}

// Writes a `KS` record.
fn put_held(out: &mut [u8], at: usize, name: [u8; 8], secret: [u8; 32]) -> usize
    requires { at + length (held_record name secret) ≤ length out.old }
    ensures { Put out.old out.new at (held_record name secret) result }
{
    put_parts(out, at, &KS, &name, &secret)
}

// Writes a `KD` record.
fn put_under(out: &mut [u8], at: usize, name: [u8; 8], place: u8) -> usize
    requires { at + length (under_record name place) ≤ length out.old }
    ensures { Put out.old out.new at (under_record name place) result }
{
    put_parts(out, at, &KD, &name, &[place])
}

// Writes the record of label `m`: its secret if that is held, else its parent's place.
pub fn put_record(
    policy: &[u8],
    m: usize,
    held: bool,
    secret: [u8; 32],
    place: u8,
    out: &mut [u8],
    at: usize,
) -> usize
    requires { (m < 64) × (12 * (m + 1) ≤ length policy.now) × (at + length (label_record held (name_of policy.now m) secret place) ≤ length out.old) }
    ensures { Put out.old out.new at (label_record held (name_of policy.now m) secret place) result }
{
    let name = names::read_name(policy, 12 * m + 2);
    if held {
        put_held(out, at, name, secret)
    } else {
        put_under(out, at, name, place)
    }
}
