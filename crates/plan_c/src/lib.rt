// Plans and the weighing of trees for C callers, each function by the equation of the operation itself. A slice is passed as a pointer and a length.
#![tactic(auto)]

ghost use Rattle.std.specs.Prelude.{◌≡◌, length};
ghost use Rattle.plan_answers.specs.Planned.{plan_of};
ghost use Rattle.plan_answers.specs.Weighing.{weigh_of};
ghost use Rattle.plan_texts.specs.TextAnswer.{text_written, text_after};
ghost use Rattle.plan_texts.specs.DrawingAnswer.{drawing_written, drawing_after};

use buffers::Written;
use plan_answers::{Plan, Weighed};

#[unsafe(no_mangle)]
pub extern "C" fn yendlowa_plan(policy: &[u8]) -> Plan
    ensures { result ≡ plan_of policy.now }
{
    planner::plan_policy(policy)
}

#[unsafe(no_mangle)]
pub extern "C" fn yendlowa_weigh(policy: &[u8], tree: &[u8]) -> Weighed
    ensures { result ≡ weigh_of policy.now tree.now }
{
    weighing::weigh(policy, tree)
}

#[unsafe(no_mangle)]
pub extern "C" fn yendlowa_plan_text(policy: &[u8], out: &mut [u8]) -> Written
    ensures { (result ≡ text_written policy.now (length out.old)) × (out.new ≡ text_after policy.now out.old) }
{
    text::plan_text(policy, out)
}

#[unsafe(no_mangle)]
pub extern "C" fn yendlowa_plan_dot(policy: &[u8], out: &mut [u8]) -> Written
    ensures { (result ≡ drawing_written policy.now (length out.old)) × (out.new ≡ drawing_after policy.now out.old) }
{
    dot::plan_dot(policy, out)
}
