// The names of an envelope's records: the search for one, and what the next one is refused under.
#![tactic(auto)]

ghost use Rattle.std.specs.Prelude.{◌≡◌, ◌+◌, ◌≤◌, length};
ghost use Rattle.envelope_file.specs.File.{record_named};
ghost use Rattle.envelope_file.specs.Record.{name_refusal};
ghost use Rattle.envelope_file.specs.Reads.{Located};

use envelope_records::Front;

// The first of `records` records that carries the name, or none.
pub fn find_record(
    envelope: &[u8],
    records: usize,
    starts: &[usize; 64],
    name: [u8; 8],
) -> Option<usize>
    requires { Located envelope.now starts.now records }
    ensures { result ≡ record_named envelope.now records name }
{
    // The project's scope names this form: a loop that breaks out with the place found as its value, or with not found.
    let mut k = 0;
    loop {
        if k == records {
            break None;
        }
        let at = starts[k];
        if names::same_name(names::read_name(envelope, at + 2), name) {
            break Some(k);
        }
        k += 1;
    }
}

// The number that the name of the next record is refused under, 0 when it is not.
pub fn name_refusal(read: &Front) -> u8
    requires { read.now.end + 11 ≤ length read.now.envelope.now }
    ensures { result ≡ name_refusal read.now.envelope.now read.now.count }
{
    if 64 <= read.count {
        return 5;
    }
    let name = names::read_name(read.envelope, read.end + 2);
    if !name_form::well_formed(&name) {
        return 6;
    }
    match find_record(read.envelope, read.count, &read.starts, name) {
        Some(_) => 7,
        None => 0,
    }
}
