// The plan of a policy file.
#![tactic(auto)]

ghost use Rattle.std.specs.Prelude.{◌≡◌};
ghost use Rattle.plan_answers.specs.Planned.{plan_of, rows_after};

use plan_answers::Plan;

// The plan of a policy, or the number of its refusal, and the order of an accepted policy's labels into `rows`.
pub fn plan_order(policy: &[u8], rows: &mut [[bool; 64]; 64]) -> Plan
    ensures { (result ≡ plan_of policy.now) × (rows.new ≡ rows_after policy.now rows.old) }
{
    let read = policy::read_policy(policy);
    if read.refusal != 0 {
        return plans::refused_plan(read.refusal);
    }
    let counts = read.counts;
    let over = read.over;
    let table = order_table::order_table(read.labels, read.pairs, over);
    *rows = table;
    plans::plan_labels(read.refusal, read.labels, &counts, &table)
}

// The plan of a policy, or the number of its refusal.
pub fn plan_policy(policy: &[u8]) -> Plan
    ensures { result ≡ plan_of policy.now }
{
    let mut rows = [[false; 64]; 64];
    plan_order(policy, &mut rows)
}
