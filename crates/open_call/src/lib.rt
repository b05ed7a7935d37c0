// The arguments of `yendlowa-desk open`. Wrong calls are told before any file is read or made.
#![tactic(auto)]

ghost use Rattle.std.specs.Prelude.{◌≡◌};
ghost use Rattle.open_call.specs.Opened.{OpenEnds};

use outcomes::Ended;

// Tells which label a sealed file is for, where it has a name.
fn tell_label(rt: HostRuntime, file: &[u8]) {
    if file.len() < 10 {
        return;
    }
    let name = names::read_name(file, 2);
    let length = names::unpadded_length(&name);
    messages::tell(rt, b"sealed file: label ");
    messages::tell_quoted(rt, &name[..length]);
    messages::tell(rt, b": ");
}

// Tells why the sealed file is refused: by 22 or 23, or by 20 for its label.
fn tell_file(rt: HostRuntime, program: &[u8], file: &[u8], number: u8) {
    arguments::open_about(rt, program, 3);
    if number == 20 {
        tell_label(rt, file);
    }
    reasons::tell_words(rt, number);
}

// Tells why the envelope, or else the sealed file, is refused.
fn tell_refused(rt: HostRuntime, program: &[u8], envelope: &[u8], file: &[u8], number: u8) {
    if number < 20 {
        arguments::open_about(rt, program, 2);
        reasons::tell_envelope(rt, number, envelope::records_read(envelope));
    } else {
        tell_file(rt, program, file, number);
    }
}

// Reports a call of `open`, which was printed when the text was saved.
fn report(rt: HostRuntime, program: &[u8], files: Option<(&[u8], &[u8])>, printed: Ended) -> Ended
    ensures { result ≡ printed }
{
    if let (Ended::Refused(number), Some((envelope, file))) = (printed, files) {
        tell_refused(rt, program, envelope, file, number);
    }
    printed
}

// `open ENVELOPE SEALED OUT`
pub fn open(rt: HostRuntime, program: &[u8]) -> Ended
    ensures { OpenEnds result }
{
    if new_file::is_no_file(rt, program, 4) {
        return Ended::Failed;
    }
    // Longer files have the answer of their first 4,096 and 32,807 bytes (`text_front`, `text_file_front`, crate open_answers).
    let mut envelope = io::buffer();
    let mut file = [0u8; 32807];
    let read = files::read_both(rt, program, 2, 3, &mut envelope, &mut file);
    let files = read.map(|(first, second)| (&envelope[..first], &file[..second]));
    let mut out = io::buffer();
    let length = arguments::argument(rt, 4, &mut out);
    let printed = open_verb::open(rt, program, files, &out[..length]);
    report(rt, program, files, printed)
}
