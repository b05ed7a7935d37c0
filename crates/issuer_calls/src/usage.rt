// How `yendlowa` is called.
ghost use Rattle.std.specs.Prelude.{◌<◌};
ghost use Rattle.issuer_calls.specs.Ran.{Ran};

use outcomes::Ended;

// Answers the help.
pub(crate) fn answer(rt: HostRuntime, program: &[u8]) -> Ended
    ensures { Ran result }
{
    answers::answer(
        rt,
        program,
        b"usage:\n  yendlowa plan [POLICY]\n      print the plan of a policy\n  yendlowa draw [POLICY]\n      print the plan as a drawing for Graphviz\n  yendlowa weigh POLICY TREE\n      print the total of an offered tree, and whether no tree has a smaller one\n  yendlowa key [--fingerprint] POLICY NAME ROOT\n      print the issuer's key for the label NAME\n  yendlowa issue [--fingerprint] POLICY NAME ACCOUNT ROOT OUT\n      write the envelope of an account at the label NAME to the new file OUT\n  yendlowa root OUT\n      write a new root secret to the new file OUT, and print its fingerprint\n  yendlowa seal [--fingerprint] POLICY NAME ROOT NONCE TEXT OUT\n      write TEXT, sealed for the label NAME, to the new file OUT; NONCE has 12 bytes, never used before for this label\n  yendlowa growth [POLICY]\n      print what one more account at each label adds to the plan's total, and a ceiling for it\n  yendlowa --help\n  yendlowa --version\nOne of POLICY, TREE, ROOT, NONCE and TEXT may be '-', standard input, which plan, draw and growth read too when POLICY is left out. Write ./-NAME for a file called -NAME.\n--fingerprint prints the fingerprint of the root secret too.\nExit status: 0 an answer, 1 refused, 2 a wrong call or a file that could not be read or written.\n",
    )
}

// Tells that no verb is given.
pub(crate) fn tell_none(rt: HostRuntime, program: &[u8]) -> Ended
    ensures { Ran result }
{
    messages::no_verb(rt, program);
    Ended::Failed
}

// Ends a line by how to call a verb.
fn tell_synopsis(rt: HostRuntime, verb: usize)
    requires { verb < 16 }
{
    let synopsis = verbs::synopsis(issuer_tables::synopses(), verb);
    let length = verbs::trimmed_length(&synopsis);
    messages::tell_synopsis(rt, &synopsis[..length]);
}

// Whether one of a verb's arguments, which start at `first`, looks like an option; it is then told.
pub(crate) fn tell_option(rt: HostRuntime, program: &[u8], verb: usize, first: usize) -> bool {
    let Some(i) = arguments::find_option(rt, first) else {
        return false;
    };
    if 15 < verb {
        return false;
    }
    arguments::open_about(rt, program, i);
    messages::tell(rt, b"not an option here");
    tell_synopsis(rt, verb);
    true
}

// Tells that a word is not a verb, or that a verb has too few or too many arguments.
pub(crate) fn tell_wrong(rt: HostRuntime, program: &[u8], verb: usize, word: &[u8]) {
    if verb < 16 {
        messages::open_line(rt, program);
        messages::tell(rt, b"wrong number of arguments");
        tell_synopsis(rt, verb);
    } else {
        messages::not_a_verb(rt, program, word);
    }
}
