// The arguments of `yendlowa seal`. Wrong calls are told before any file is read or made.
#![tactic(auto)]

ghost use Rattle.std.specs.Prelude.{◌≤◌, ◌≡◌};
ghost use Rattle.seal_call.specs.Sealed.{SealEnds};

use outcomes::Ended;

// The argument of `seal`, whose first one is `at`, that a refusal speaks of: NAME (13), ROOT (15), else NONCE if its length is wrong, or TEXT.
fn seal_argument(number: u8, nonce: usize, at: usize) -> usize
    requires { at ≤ 3 }
{
    match number {
        13 => at + 1,
        15 => at + 2,
        _ if nonce == 12 => at + 4,
        _ => at + 3,
    }
}

// Reports a call of `seal`, which was printed when the file was saved. `nonce`: how long that is.
fn report(
    rt: HostRuntime,
    program: &[u8],
    at: usize,
    policy: &[u8],
    nonce: usize,
    printed: Ended,
) -> Ended
    requires { at ≤ 3 }
    ensures { result ≡ printed }
{
    if let Ended::Refused(number) = printed {
        let argument = seal_argument(number, nonce, at);
        policy_messages::tell_asked(rt, program, at, argument, policy, number);
    }
    printed
}

// `seal`, with the policy and the root secret that were read
fn seal_under(
    rt: HostRuntime,
    program: &[u8],
    at: usize,
    option: bool,
    policy: &[u8],
    root: &[u8],
) -> Ended
    requires { at ≤ 3 }
    ensures { SealEnds option result }
{
    // Longer ones have the answer of their first 4,096 and 32,769 bytes (`file_nonce_front`, `file_text_front`, crate seal_answers).
    let mut nonce = io::buffer();
    let mut text = [0u8; 32769];
    let read = files::read_both(rt, program, at + 3, at + 4, &mut nonce, &mut text);
    let files = read.map(|(first, second)| (&nonce[..first], &text[..second]));
    let mut name = io::buffer();
    let name_length = arguments::name_argument(rt, at + 1, &mut name);
    let mut out = io::buffer();
    let out_length = arguments::argument(rt, at + 5, &mut out);
    let printed = seal_verb::seal(
        rt,
        program,
        policy,
        &name[..name_length],
        root,
        files,
        option,
        &out[..out_length],
    );
    let nonce_length = read.map_or(0, |(first, _)| first);
    report(rt, program, at, policy, nonce_length, printed)
}

// How often argument i names standard input: 1 or 0.
fn input(rt: HostRuntime, i: usize) -> usize
    ensures { result ≤ 1 }
{
    usize::from(arguments::is_argument(rt, i, b"-"))
}

// Whether two of POLICY, ROOT, NONCE and TEXT name standard input, which is then told.
fn is_twice_input(rt: HostRuntime, program: &[u8], at: usize) -> bool
    requires { at ≤ 3 }
{
    if input(rt, at) + input(rt, at + 2) + input(rt, at + 3) + input(rt, at + 4) < 2 {
        return false;
    }
    files::tell_twice(rt, program);
    true
}

// `seal [--fingerprint] POLICY NAME ROOT NONCE TEXT OUT`; `at`: the place of POLICY
pub fn seal(rt: HostRuntime, program: &[u8], at: usize, option: bool) -> Ended
    requires { at ≤ 3 }
    ensures { SealEnds option result }
{
    if new_file::is_no_file(rt, program, at + 5) || is_twice_input(rt, program, at) {
        return Ended::Failed;
    }
    // As above (`file_front`, `file_root_front`, crate seal_answers).
    let mut policy = io::buffer();
    let mut root = io::buffer();
    let read = files::read_both(rt, program, at, at + 2, &mut policy, &mut root);
    let Some((policy_length, root_length)) = read else {
        return Ended::Failed;
    };
    seal_under(
        rt,
        program,
        at,
        option,
        &policy[..policy_length],
        &root[..root_length],
    )
}
