// The arguments of `plan`, `draw`, `weigh` and `growth`. Wrong calls are told before any file is read.
ghost use Rattle.std.specs.Prelude.{IfSome};
ghost use Rattle.issuer_calls.specs.Ran.{PlanEnds, DrawEnds, WeighEnds, GrowthEnds};
ghost use Rattle.io.specs.Counts.{IsPrefixLen};

use crate::reports;
use outcomes::Ended;

// Reads the policy that the argument after the verb names, standard input where there is none, and answers how long it is.
fn read_policy(rt: HostRuntime, program: &[u8], given: bool, policy: &mut [u8]) -> Option<usize>
    ensures { IfSome result (λ length. IsPrefixLen length policy.new) }
{
    if given {
        return files::read_argument(rt, program, 2, policy);
    }
    files::read_input(rt, program, policy)
}

// `plan [POLICY]`
pub(crate) fn plan(rt: HostRuntime, program: &[u8], given: bool) -> Ended
    ensures { PlanEnds result }
{
    // More than the 2,828 bytes that decide (`printed_front`, crate plan_texts).
    let mut bytes = io::buffer();
    let read = read_policy(rt, program, given, &mut bytes);
    let policy = read.map(|length| &bytes[..length]);
    reports::of_policy(rt, program, policy, plan_verbs::plan(policy))
}

// `draw [POLICY]`
pub(crate) fn draw(rt: HostRuntime, program: &[u8], given: bool) -> Ended
    ensures { DrawEnds result }
{
    // As for `plan` (`drawing_front`, crate plan_texts).
    let mut bytes = io::buffer();
    let read = read_policy(rt, program, given, &mut bytes);
    let policy = read.map(|length| &bytes[..length]);
    reports::of_policy(rt, program, policy, plan_verbs::draw(policy))
}

// `weigh POLICY TREE`
pub(crate) fn weigh(rt: HostRuntime, program: &[u8]) -> Ended
    ensures { WeighEnds result }
{
    // Longer files have the answer of their first 4,096 bytes (`weigh_front`, `weigh_tree_front`, crate plan_answers).
    let mut policy = io::buffer();
    let mut tree = io::buffer();
    let read = files::read_both(rt, program, 2, 3, &mut policy, &mut tree);
    let files = read.map(|(first, second)| (&policy[..first], &tree[..second]));
    reports::of_tree(rt, program, files, plan_verbs::weigh(files))
}

// `growth [POLICY]`
pub(crate) fn growth(rt: HostRuntime, program: &[u8], given: bool) -> Ended
    ensures { GrowthEnds result }
{
    // As for `plan` (`growth_front`, crate growth_answers).
    let mut bytes = io::buffer();
    let read = read_policy(rt, program, given, &mut bytes);
    let policy = read.map(|length| &bytes[..length]);
    reports::of_policy(rt, program, policy, plan_verbs::growth(policy))
}
