// The arguments of `derive` and `labels`. Wrong calls are told before any file is read.
ghost use Rattle.outcomes.specs.Status.{Printed};
ghost use Rattle.desk_calls.specs.Ran.{DeriveEnds, LabelsEnds};

use outcomes::Ended;

// Tells why the envelope, or NAME (20), is refused.
fn tell_refused(rt: HostRuntime, program: &[u8], envelope: &[u8], number: u8) {
    if number == 20 {
        arguments::tell_argument(rt, program, 3, number);
    } else {
        arguments::open_about(rt, program, 2);
        reasons::tell_envelope(rt, number, envelope::records_read(envelope));
    }
}

// Prints how a call over an envelope ended, and tells why it is refused.
fn report(rt: HostRuntime, program: &[u8], envelope: Option<&[u8]>, ended: Ended) -> Ended
    ensures { Printed ended result }
{
    let printed = answers::print(rt, program, ended);
    if let (Ended::Refused(number), Some(envelope)) = (printed, envelope) {
        tell_refused(rt, program, envelope, number);
    }
    printed
}

// `derive ENVELOPE NAME`
pub(crate) fn derive(rt: HostRuntime, program: &[u8]) -> Ended
    ensures { DeriveEnds result }
{
    // A longer file has the answer of its first 4,096 bytes (`derived_front`, `labels_front`, crate envelope_file).
    let mut bytes = io::buffer();
    let read = files::read_argument(rt, program, 2, &mut bytes);
    let envelope = read.map(|length| &bytes[..length]);
    let mut name = io::buffer();
    let length = arguments::name_argument(rt, 3, &mut name);
    let ended = desk_verbs::derive(envelope, &name[..length]);
    report(rt, program, envelope, ended)
}

// `labels ENVELOPE`
pub(crate) fn labels(rt: HostRuntime, program: &[u8]) -> Ended
    ensures { LabelsEnds result }
{
    let mut bytes = io::buffer();
    let read = files::read_argument(rt, program, 2, &mut bytes);
    let envelope = read.map(|length| &bytes[..length]);
    report(rt, program, envelope, desk_verbs::labels(envelope))
}
