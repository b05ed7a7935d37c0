// How a call of a program ended, and the exit status that a script sees. Nothing here prints.
#![tactic(auto)]

ghost use Rattle.std.specs.Prelude.{◌≤◌, true, false, ◌≡◌, length};
ghost use Rattle.buffers.specs.Put.{Put};
ghost use Rattle.outcomes.specs.Status.{status_of, is_done, text_of, Ends, Printed};

// A text: the first `length` of these bytes.
#[derive(Clone, Copy)]
pub struct Text {
    pub length: usize,
    pub bytes: [u8; 8192],
}

// How a call ends. One that was done was right, and its files were read or made; once it is printed, standard output took its text too.
#[derive(Clone, Copy)]
pub enum Ended {
    // It was not done.
    Failed,
    // It was done, and is refused under this number, which is not 0.
    Refused(u8),
    // It was done, and answers this.
    Answered(Text),
}

// The program's exit status.
pub fn status(ended: Ended) -> i32
    ensures { result ≡ status_of ended }
{
    match ended {
        Ended::Failed => 2,
        Ended::Refused(_) => 1,
        Ended::Answered(_) => 0,
    }
}

// A call that answers a text.
fn answer(text: &[u8]) -> Ended
    requires { length text.now ≤ 8192 }
    ensures { (is_done result ≡ true) × Ends 0 text.now result }
{
    let mut bytes = [0u8; 8192];
    let length = buffers::put_bytes(&mut bytes, 0, text);
    Ended::Answered(Text { length, bytes })
}

// A call of an operation that refuses so, or else answers this text.
pub fn ended_with(refusal: u8, text: &[u8]) -> Ended
    requires { length text.now ≤ 8192 }
    ensures { (is_done result ≡ true) × Ends refusal text.now result }
{
    if refusal != 0 {
        return Ended::Refused(refusal);
    }
    answer(text)
}

// Writes what a call says at the start of a buffer, and answers how long that is.
pub fn put_text(ended: Ended, out: &mut [u8]) -> usize
    requires { 8192 ≤ length out.old }
    ensures { Put out.old out.new 0 (text_of ended) result }
{
    match ended {
        Ended::Failed => 0,
        Ended::Refused(number) => decimals::refused_text(number, out).length,
        Ended::Answered(text) => {
            let length = text.length.min(8192);
            buffers::put_bytes(out, 0, &text.bytes[..length])
        }
    }
}

// What printing leaves of a call: the call itself if standard output took its text, else one that failed.
pub fn after_printing(taken: bool, ended: Ended) -> Ended
    ensures { (taken ≡ false → is_done result ≡ false) × Printed ended result }
{
    if taken {
        return ended;
    }
    Ended::Failed
}
