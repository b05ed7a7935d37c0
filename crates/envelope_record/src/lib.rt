// One record of a key envelope, read after the records before it.
#![tactic(auto)]

ghost use Rattle.std.specs.Prelude.{◌≡◌, ◌+◌, ◌≤◌, length};
ghost use Rattle.envelope_file.specs.Record.{held_kind, under_kind, envelope_kind};

use envelope_file::Kind;
use envelope_records::Front;
use format::{KD, KS};

// The next record, a whole `KS` record; the first carries the header's name.
fn read_held(read: &Front) -> Kind
    requires { read.now.end + 42 ≤ length read.now.envelope.now }
    ensures { result ≡ held_kind read.now.envelope.now read.now.count }
{
    let number = envelope_names::name_refusal(read);
    if number != 0 {
        return Kind::Refused(number);
    }
    if read.count == 0 {
        let head = names::read_name(read.envelope, 4);
        if !names::same_name(names::read_name(read.envelope, read.end + 2), head) {
            return Kind::Refused(18);
        }
    }
    Kind::Held
}

// The next record, a whole `KD` record; it is not the first, and its place is less than its own.
fn read_under(read: &Front) -> Kind
    requires { read.now.end + 11 ≤ length read.now.envelope.now }
    ensures { result ≡ under_kind read.now.envelope.now read.now.count }
{
    let number = envelope_names::name_refusal(read);
    if number != 0 {
        return Kind::Refused(number);
    }
    if read.count == 0 {
        return Kind::Refused(18);
    }
    let place = read.envelope[read.end + 10];
    if read.count <= usize::from(place) {
        return Kind::Refused(19);
    }
    Kind::Under(place)
}

// The next record.
pub fn read_record(read: &Front) -> Kind
    ensures { result ≡ envelope_kind read.now.envelope.now read.now.count }
{
    let left = read.envelope.len() - read.end;
    if left == 0 {
        if read.count == 0 {
            return Kind::Refused(18);
        }
        return Kind::End;
    }
    if left == 1 {
        return Kind::Refused(2);
    }
    if format::marked(read.envelope, read.end, KS) {
        if left < 42 {
            return Kind::Refused(3);
        }
        return read_held(read);
    }
    if format::marked(read.envelope, read.end, KD) {
        if left < 11 {
            return Kind::Refused(3);
        }
        return read_under(read);
    }
    Kind::Refused(2)
}
