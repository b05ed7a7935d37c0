// Plans, weighings and the cost of growth of a policy with the counts of a roster.
#![tactic(auto)]

ghost use Rattle.std.specs.Prelude.{◌≡◌};
ghost use Rattle.roster_answers.specs.Counted.{roster_plan, roster_weighed, roster_growth};

use growth_answers::Growth;
use plan_answers::{Plan, Weighed};

// The plan of a policy with the counts of a roster.
pub fn plan_roster(policy: &[u8], roster: &[u8]) -> Plan
    ensures { result ≡ roster_plan policy.now roster.now }
{
    rosters::on_counted(policy, roster, planner::plan_policy).unwrap_or_else(plans::refused_plan)
}

// The weighing of an offered tree, by the counts of a roster.
pub fn weigh_roster(policy: &[u8], roster: &[u8], tree: &[u8]) -> Weighed
    ensures { result ≡ roster_weighed policy.now roster.now tree.now }
{
    rosters::on_counted(policy, roster, |counted| weighing::weigh(counted, tree)).unwrap_or_else(
        weighing::refused,
    )
}

// What one more account costs, by the counts of a roster.
pub fn growth_roster(policy: &[u8], roster: &[u8]) -> Growth
    ensures { result ≡ roster_growth policy.now roster.now }
{
    rosters::on_counted(policy, roster, growth::growth_policy).unwrap_or_else(costs::refused_growth)
}
