// What one more account costs, for C callers, each function by the equation of the operation itself. A slice is passed as a pointer and a length.
#![tactic(auto)]

ghost use Rattle.std.specs.Prelude.{◌≡◌, length};
ghost use Rattle.growth_answers.specs.Growing.{growth_of};
ghost use Rattle.growth_answers.specs.GrowthTextAnswer.{growth_written, growth_after};

use buffers::Written;
use growth_answers::Growth;

#[unsafe(no_mangle)]
pub extern "C" fn yendlowa_growth(policy: &[u8]) -> Growth
    ensures { result ≡ growth_of policy.now }
{
    growth::growth_policy(policy)
}

#[unsafe(no_mangle)]
pub extern "C" fn yendlowa_growth_text(policy: &[u8], out: &mut [u8]) -> Written
    ensures { (result ≡ growth_written policy.now (length out.old)) × (out.new ≡ growth_after policy.now out.old) }
{
    growth_text::growth_text(policy, out)
}
