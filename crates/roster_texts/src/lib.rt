// The texts of a plan, of its drawing and of the cost of growth, for a policy with the counts of a roster.
#![tactic(auto)]

ghost use Rattle.std.specs.Prelude.{◌≡◌, length};
ghost use Rattle.roster_answers.specs.Counted.{roster_text_written, roster_text_after, roster_drawing_written, roster_drawing_after, roster_growth_written, roster_growth_after};

use buffers::Written;

// The plan's text.
pub fn plan_text_roster(policy: &[u8], roster: &[u8], out: &mut [u8]) -> Written
    ensures { (result ≡ roster_text_written policy.now roster.now (length out.old)) × (out.new ≡ roster_text_after policy.now roster.now out.old) }
{
    rosters::write_counted(policy, roster, out, text::plan_text)
}

// The plan's drawing.
pub fn plan_dot_roster(policy: &[u8], roster: &[u8], out: &mut [u8]) -> Written
    ensures { (result ≡ roster_drawing_written policy.now roster.now (length out.old)) × (out.new ≡ roster_drawing_after policy.now roster.now out.old) }
{
    rosters::write_counted(policy, roster, out, dot::plan_dot)
}

// What one more account costs, as text.
pub fn growth_text_roster(policy: &[u8], roster: &[u8], out: &mut [u8]) -> Written
    ensures { (result ≡ roster_growth_written policy.now roster.now (length out.old)) × (out.new ≡ roster_growth_after policy.now roster.now out.old) }
{
    rosters::write_counted(policy, roster, out, growth_text::growth_text)
}
