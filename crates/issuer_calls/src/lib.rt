// The issuer's command line: which verb is called, and with which arguments.
#![tactic(auto)]

mod keys;
mod plan_calls;
mod reports;
mod usage;

ghost use Rattle.std.specs.Prelude.{false, ◌≡◌};
ghost use Rattle.decimals.specs.Text.{bytes_of};
ghost use Rattle.outcomes.specs.Status.{is_done};
ghost use Rattle.verbs.specs.Tables.{takes_call, words_of};
ghost use Rattle.verbs.specs.Verbs.{place_of};
ghost use Rattle.issuer_tables.specs.Calls.{verbs};
ghost use Rattle.issuer_calls.specs.Ran.{Performed, Ran};

use outcomes::Ended;

// Whether a verb has the option `--fingerprint`, and it is given.
fn has_option(rt: HostRuntime, word: &[u8]) -> bool {
    let verb = verbs::find(issuer_tables::words(), word);
    (verb == 3 || verb == 4 || verb == 6) && arguments::is_argument(rt, 2, b"--fingerprint")
}

// Does what a verb says; the number of its arguments is right.
fn perform(rt: HostRuntime, program: &[u8], verb: usize, count: usize, option: bool) -> Ended
    ensures { Performed verb result }
{
    match verb {
        0 => plan_calls::plan(rt, program, count == 3),
        1 => plan_calls::draw(rt, program, count == 3),
        2 => plan_calls::weigh(rt, program),
        3 => keys::key(rt, program, option),
        4 => keys::issue(rt, program, option),
        5 => keys::root(rt, program),
        6 => seal_call::seal(rt, program, reports::first_argument(option), option),
        7 => plan_calls::growth(rt, program, count == 3),
        _ => Ended::Failed,
    }
}

// The number of arguments without the option.
fn without(count: usize, option: bool) -> usize {
    if option && 0 < count {
        count - 1
    } else {
        count
    }
}

// A call whose first argument is this word. With an unknown or misplaced option, or a wrong number of arguments, it fails before anything is read
// or made.
fn call(rt: HostRuntime, program: &[u8], word: &[u8], count: usize, option: bool) -> Ended
    ensures ok_value { takes_call verbs word.now count ≡ false → is_done result ≡ false }
    ensures performed { Performed (place_of (words_of verbs) word.now) result }
{
    let verb = verbs::find(issuer_tables::words(), word);
    if usage::tell_option(rt, program, verb, reports::first_argument(option)) {
        return Ended::Failed;
    }
    if verbs::takes(issuer_tables::least(), issuer_tables::most(), verb, count) {
        return perform(rt, program, verb, count, option);
    }
    usage::tell_wrong(rt, program, verb, word);
    Ended::Failed
}

// A call whose first argument is this word: for help, for the version or with a verb.
fn asked(rt: HostRuntime, program: &[u8], word: &[u8], count: usize) -> Ended
    requires { program.now ≡ bytes_of "yendlowa" }
    ensures { Ran result }
{
    if arguments::asks_help(word) || arguments::is_argument(rt, 2, b"--help") {
        return usage::answer(rt, program);
    }
    if arguments::is_word(word, b"--version") {
        return answers::answer_version(rt, program);
    }
    let option = has_option(rt, word);
    call(rt, program, word, without(count, option), option)
}

// A call by its arguments.
fn run_as(rt: HostRuntime, program: &[u8]) -> Ended
    requires { program.now ≡ bytes_of "yendlowa" }
    ensures { Ran result }
{
    let count = arguments::count(rt);
    if count < 2 {
        return usage::tell_none(rt, program);
    }
    let mut typed = io::buffer();
    let length = arguments::argument(rt, 1, &mut typed);
    asked(rt, program, &typed[..length], count)
}

// What the program does, up to its exit status.
pub fn run(rt: HostRuntime) -> Ended
    ensures { Ran result }
{
    run_as(rt, b"yendlowa")
}
