// The desk's command line: which verb is called, and with which arguments.
#![tactic(auto)]

mod envelopes;
mod usage;

ghost use Rattle.std.specs.Prelude.{false, ◌≡◌};
ghost use Rattle.decimals.specs.Text.{bytes_of};
ghost use Rattle.outcomes.specs.Status.{is_done};
ghost use Rattle.verbs.specs.Tables.{takes_call, words_of};
ghost use Rattle.verbs.specs.Verbs.{place_of};
ghost use Rattle.desk_tables.specs.Calls.{verbs};
ghost use Rattle.desk_calls.specs.Ran.{Performed, Ran};

use outcomes::Ended;

// Does what a verb says; the number of its arguments is right.
fn perform(rt: HostRuntime, program: &[u8], verb: usize) -> Ended
    ensures { Performed verb result }
{
    match verb {
        0 => envelopes::derive(rt, program),
        1 => envelopes::labels(rt, program),
        2 => open_call::open(rt, program),
        _ => Ended::Failed,
    }
}

// A call whose first argument is this word. With an option, which no verb has, or a wrong number of arguments, it fails before anything is read.
fn call(rt: HostRuntime, program: &[u8], word: &[u8], count: usize) -> Ended
    ensures ok_value { takes_call verbs word.now count ≡ false → is_done result ≡ false }
    ensures performed { Performed (place_of (words_of verbs) word.now) result }
{
    let verb = verbs::find(desk_tables::words(), word);
    if usage::tell_option(rt, program, verb, 2) {
        return Ended::Failed;
    }
    if verbs::takes(desk_tables::least(), desk_tables::most(), verb, count) {
        return perform(rt, program, verb);
    }
    usage::tell_wrong(rt, program, verb, word);
    Ended::Failed
}

// A call whose first argument is this word: for help, for the version or with a verb.
fn asked(rt: HostRuntime, program: &[u8], word: &[u8], count: usize) -> Ended
    requires { program.now ≡ bytes_of "yendlowa-desk" }
    ensures { Ran result }
{
    if arguments::asks_help(word) || arguments::is_argument(rt, 2, b"--help") {
        return usage::answer(rt, program);
    }
    if arguments::is_word(word, b"--version") {
        return answers::answer_version(rt, program);
    }
    call(rt, program, word, count)
}

// A call by its arguments.
fn run_as(rt: HostRuntime, program: &[u8]) -> Ended
    requires { program.now ≡ bytes_of "yendlowa-desk" }
    ensures { Ran result }
{
    let count = arguments::count(rt);
    if count < 2 {
        return usage::tell_none(rt, program);
    }
    let mut typed = io::buffer();
    let length = arguments::argument(rt, 1, &mut typed);
    asked(rt, program, &typed[..length], count)
}

// What the program does, up to its exit status.
pub fn run(rt: HostRuntime) -> Ended
    ensures { Ran result }
{
    run_as(rt, b"yendlowa-desk")
}
