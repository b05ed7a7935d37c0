// What one more account costs at each label of a policy file.
#![tactic(auto)]

ghost use Rattle.std.specs.Prelude.{◌≡◌};
ghost use Rattle.growth_answers.specs.Growing.{growth_of};

use growth_answers::Growth;

// For each label what one account more there adds to the plan's total, and the ceiling of that, or the number of the policy's refusal.
pub fn growth_policy(policy: &[u8]) -> Growth
    ensures { result ≡ growth_of policy.now }
{
    let read = policy::read_policy(policy);
    if read.refusal != 0 {
        return costs::refused_growth(read.refusal);
    }
    let counts = read.counts;
    let over = read.over;
    let rows = order_table::order_table(read.labels, read.pairs, over);
    costs::growth_labels(read.refusal, read.labels, counts, &rows)
}
