// How `yendlowa-desk` is called.
ghost use Rattle.std.specs.Prelude.{◌<◌};
ghost use Rattle.desk_calls.specs.Ran.{Ran};

use outcomes::Ended;

// Answers the help.
pub(crate) fn answer(rt: HostRuntime, program: &[u8]) -> Ended
    ensures { Ran result }
{
    answers::answer(
        rt,
        program,
        b"usage:\n  yendlowa-desk derive ENVELOPE NAME\n      print the key of the label NAME\n  yendlowa-desk labels ENVELOPE\n      print the account and the labels that the envelope opens\n  yendlowa-desk open ENVELOPE SEALED OUT\n      write the text of the sealed file SEALED to the new file OUT\n  yendlowa-desk --help\n  yendlowa-desk --version\nENVELOPE or SEALED may be '-', standard input. Write ./-NAME for a file called -NAME.\nExit status: 0 an answer, 1 refused, 2 a wrong call or a file that could not be read or written.\n",
    )
}

// Tells that no verb is given.
pub(crate) fn tell_none(rt: HostRuntime, program: &[u8]) -> Ended
    ensures { Ran result }
{
    messages::no_verb(rt, program);
    Ended::Failed
}

// Ends a line by how to call a verb.
fn tell_synopsis(rt: HostRuntime, verb: usize)
    requires { verb < 16 }
{
    let synopsis = verbs::synopsis(desk_tables::synopses(), verb);
    let length = verbs::trimmed_length(&synopsis);
    messages::tell_synopsis(rt, &synopsis[..length]);
}

// Whether one of a verb's arguments, which start at `first`, looks like an option; it is then told.
pub(crate) fn tell_option(rt: HostRuntime, program: &[u8], verb: usize, first: usize) -> bool {
    let Some(i) = arguments::find_option(rt, first) else {
        return false;
    };
    if 15 < verb {
        return false;
    }
    arguments::open_about(rt, program, i);
    messages::tell(rt, b"not an option here");
    tell_synopsis(rt, verb);
    true
}

// Tells that a word is not a verb, or that a verb has too few or too many arguments.
pub(crate) fn tell_wrong(rt: HostRuntime, program: &[u8], verb: usize, word: &[u8]) {
    if verb < 16 {
        messages::open_line(rt, program);
        messages::tell(rt, b"wrong number of arguments");
        tell_synopsis(rt, verb);
    } else {
        messages::not_a_verb(rt, program, word);
    }
}
