// What is printed of a call, and why it is refused.
ghost use Rattle.std.specs.Prelude.{◌≤◌, ◌≡◌};
ghost use Rattle.outcomes.specs.Status.{Printed};

use outcomes::Ended;

// Reports a call over a policy; the argument after the verb names it, if there is one.
pub(crate) fn of_policy(
    rt: HostRuntime,
    program: &[u8],
    policy: Option<&[u8]>,
    ended: Ended,
) -> Ended
    ensures { Printed ended result }
{
    let printed = answers::print(rt, program, ended);
    if let (Ended::Refused(number), Some(policy)) = (printed, policy) {
        policy_messages::tell_policy(rt, program, 2, policy, number);
    }
    printed
}

// Reports a call over a policy and a tree file.
pub(crate) fn of_tree(
    rt: HostRuntime,
    program: &[u8],
    files: Option<(&[u8], &[u8])>,
    ended: Ended,
) -> Ended
    ensures { Printed ended result }
{
    let printed = answers::print(rt, program, ended);
    if let (Ended::Refused(number), Some((policy, tree))) = (printed, files) {
        policy_messages::tell_tree(rt, program, 2, 3, policy, tree, number);
    }
    printed
}

// The place of the first argument after the verb and its option.
pub(crate) fn first_argument(option: bool) -> usize
    ensures { result ≤ 3 }
{
    if option { 3 } else { 2 }
}

// The argument of `key`, whose first one is `at`, that a refusal speaks of: NAME (13) or ROOT.
fn key_argument(number: u8, at: usize) -> usize
    requires { at ≤ 3 }
{
    match number {
        13 => at + 1,
        _ => at + 2,
    }
}

// Reports a call of `key`.
pub(crate) fn of_key(
    rt: HostRuntime,
    program: &[u8],
    files: Option<(&[u8], &[u8])>,
    option: bool,
    ended: Ended,
) -> Ended
    ensures { Printed ended result }
{
    let printed = answers::print(rt, program, ended);
    if let (Ended::Refused(number), Some((policy, _))) = (printed, files) {
        let at = first_argument(option);
        let argument = key_argument(number, at);
        policy_messages::tell_asked(rt, program, at, argument, policy, number);
    }
    printed
}

// The argument of `issue`, whose first one is `at`, that a refusal speaks of: NAME (13), ACCOUNT (14) or ROOT.
fn issue_argument(number: u8, at: usize) -> usize
    requires { at ≤ 3 }
{
    match number {
        13 => at + 1,
        14 => at + 2,
        _ => at + 3,
    }
}

// Reports a call of `issue`, which was printed when the envelope was saved.
pub(crate) fn of_issue(
    rt: HostRuntime,
    program: &[u8],
    files: Option<(&[u8], &[u8])>,
    option: bool,
    printed: Ended,
) -> Ended
    ensures { result ≡ printed }
{
    if let (Ended::Refused(number), Some((policy, _))) = (printed, files) {
        let at = first_argument(option);
        let argument = issue_argument(number, at);
        policy_messages::tell_asked(rt, program, at, argument, policy, number);
    }
    printed
}
