// Plans, weighings, texts and growth by the counts of a roster, for C callers, each function by the equation of the operation itself. A slice is passed as a pointer and a length.
#![tactic(auto)]

ghost use Rattle.std.specs.Prelude.{◌≡◌, length};
ghost use Rattle.roster_answers.specs.Counted.{roster_plan, roster_weighed, roster_growth, roster_text_written, roster_text_after, roster_drawing_written, roster_drawing_after, roster_growth_written, roster_growth_after};

use buffers::Written;
use growth_answers::Growth;
use plan_answers::{Plan, Weighed};

#[unsafe(no_mangle)]
pub extern "C" fn yendlowa_plan_roster(policy: &[u8], roster: &[u8]) -> Plan
    ensures { result ≡ roster_plan policy.now roster.now }
{
    roster_plans::plan_roster(policy, roster)
}

#[unsafe(no_mangle)]
pub extern "C" fn yendlowa_weigh_roster(policy: &[u8], roster: &[u8], tree: &[u8]) -> Weighed
    ensures { result ≡ roster_weighed policy.now roster.now tree.now }
{
    roster_plans::weigh_roster(policy, roster, tree)
}

#[unsafe(no_mangle)]
pub extern "C" fn yendlowa_growth_roster(policy: &[u8], roster: &[u8]) -> Growth
    ensures { result ≡ roster_growth policy.now roster.now }
{
    roster_plans::growth_roster(policy, roster)
}

#[unsafe(no_mangle)]
pub extern "C" fn yendlowa_plan_text_roster(policy: &[u8], roster: &[u8], out: &mut [u8]) -> Written
    ensures { (result ≡ roster_text_written policy.now roster.now (length out.old)) × (out.new ≡ roster_text_after policy.now roster.now out.old) }
{
    roster_texts::plan_text_roster(policy, roster, out)
}

#[unsafe(no_mangle)]
pub extern "C" fn yendlowa_plan_dot_roster(policy: &[u8], roster: &[u8], out: &mut [u8]) -> Written
    ensures { (result ≡ roster_drawing_written policy.now roster.now (length out.old)) × (out.new ≡ roster_drawing_after policy.now roster.now out.old) }
{
    roster_texts::plan_dot_roster(policy, roster, out)
}

#[unsafe(no_mangle)]
pub extern "C" fn yendlowa_growth_text_roster(
    policy: &[u8],
    roster: &[u8],
    out: &mut [u8],
) -> Written
    ensures { (result ≡ roster_growth_written policy.now roster.now (length out.old)) × (out.new ≡ roster_growth_after policy.now roster.now out.old) }
{
    roster_texts::growth_text_roster(policy, roster, out)
}
