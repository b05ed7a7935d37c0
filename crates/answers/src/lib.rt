// What a program writes to standard output. No other crate of `yendlowa`, `yendlowa-desk` and `plan` writes there. Where the system does not take it all the call has failed, and standard
// error says why.
#![tactic(auto)]

ghost use Rattle.std.specs.Prelude.{ℕ, ◌≤◌, List, length};
ghost use Rattle.answers.specs.Version.{version_line};
ghost use Rattle.outcomes.specs.Status.{Said, Printed};

use outcomes::Ended;

// Writes a text to standard output, and answers whether it was taken. Why it was not is told.
fn write(rt: HostRuntime, program: &[u8], text: &[u8]) -> bool {
    match rt.stdout().write_all(text) {
        Ok(()) => true,
        Err(error) => {
            messages::failed(rt, program, b"standard output", error);
            false
        }
    }
}

// Prints what a call is to say. One that failed says nothing.
pub fn print(rt: HostRuntime, program: &[u8], ended: Ended) -> Ended
    ensures { Printed ended result }
{
    let mut text = [0u8; 8192];
    let length = outcomes::put_text(ended, &mut text);
    let taken = write(rt, program, &text[..length]);
    outcomes::after_printing(taken, ended)
}

// Answers a text.
pub fn answer(rt: HostRuntime, program: &[u8], text: &[u8]) -> Ended
    requires { length text.now ≤ 8192 }
    ensures { Said 0 text.now result }
{
    print(rt, program, outcomes::ended_with(0, text))
}

// Answers the program's name and its version. No program's name is longer than 32 bytes.
pub fn answer_version(rt: HostRuntime, program: &[u8]) -> Ended
    ensures { (version : List ℕ) × Said 0 (version_line program.now version) result }
{
    if 32 < program.len() {
        return Ended::Failed;
    }
    let mut line = [0u8; 64];
    let mut end = buffers::put_bytes(&mut line, 0, program);
    end = buffers::put_bytes(&mut line, end, b" ");
    let version = version::VERSION;
    end = buffers::put_bytes(&mut line, end, &version);
    end = buffers::put_bytes(&mut line, end, b"\n");
    answer(rt, program, &line[..end])
}
