// The plan of labels, from their accounts and their order.
#![tactic(auto)]

ghost use Rattle.std.specs.Prelude.{◌≡◌, ◌≤◌};
ghost use Rattle.order.specs.Table.{entry_at};
ghost use Rattle.weights.specs.Tables.{entries, Falls};
ghost use Rattle.plan_answers.specs.Planned.{planned, refused_plan};

use plan_answers::Plan;

// The plan of labels with their accounts and order.
pub fn plan_labels(refusal: u8, labels: usize, counts: &[u16; 64], rows: &[[bool; 64]; 64]) -> Plan
    requires { (labels ≤ 64) × Falls (entry_at rows.now) }
    ensures { result ≡ planned refusal labels (entries counts.now) (entry_at rows.now) }
{
    let chosen = parents::choose(labels, counts, rows);
    let parents = chosen.parents;
    let held = chosen.weights;
    let sizes = sets::set_sizes(labels, rows, &parents);
    let total = sets::total_keys(labels, counts, &sizes);
    Plan {
        refusal,
        zeros: [0u8; 3],
        total,
        labels,
        parents,
        weights: held,
        sizes,
    }
}

// The plan with a refusal.
pub fn refused_plan(number: u8) -> Plan
    ensures { result ≡ refused_plan number }
{
    Plan {
        refusal: number,
        zeros: [0u8; 3],
        total: 0,
        labels: 0,
        parents: [0u8; 64],
        weights: [0u32; 64],
        sizes: [0u8; 64],
    }
}
