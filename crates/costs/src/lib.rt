// What one account more costs at each label, from the labels' accounts and their order.
#![tactic(auto)]

ghost use Rattle.std.specs.Prelude.{true, ◌≡◌, ◌≤◌, ◌<◌};
ghost use Rattle.order.specs.Table.{entry_at};
ghost use Rattle.trees.specs.Growth.{plan_total, cost, ceiling, Grows};
ghost use Rattle.weights.specs.Tables.{entries, Falls};
ghost use Rattle.growth_answers.specs.Growing.{cost_at, ceiling_at, growing, refused_growth};
ghost use Rattle.costs.specs.Asks.{AllGrow, AllSame, HoldsOneMore};

use growth_answers::Growth;

// What one account more at a label adds to the plan's total, and the ceiling of that; zeros for a label without room for it.
#[derive(Clone, Copy)]
struct Figures {
    cost: u8,
    ceiling: u8,
}

// The accounts with one more at label `l`.
fn one_more(counts: [u16; 64], l: usize) -> [u16; 64]
    requires { (l < 64) × (entries counts l < 65535) }
    ensures { HoldsOneMore counts l result }
{
    let mut more = counts;
    more[l] = counts[l] + 1;
    more
}

// The number of labels at or below label `l`: itself, and some of those after it.
fn ceiling(labels: usize, rows: &[[bool; 64]; 64], l: usize) -> u8
    requires { (labels ≤ 64) × (l < labels) × Falls (entry_at rows.now) × (entry_at rows.now l l ≡ true) }
    ensures { result ≡ ceiling labels (entry_at rows.now) l }
{
    let mut below = 1u8;
    for m in l + 1..labels {
        below = sets::counted(below, rows[m][l]);
    }
    below
}

// What one account more at label `l` adds to the total of today's plan.
fn cost(labels: usize, counts: [u16; 64], rows: &[[bool; 64]; 64], l: usize, today: u32) -> u8
    requires { (labels ≤ 64) × Falls (entry_at rows.now) × (l < labels) × (entries counts l < 65535) × (today ≡ plan_total labels (entries counts) (entry_at rows.now)) × Grows labels (entries counts) (entry_at rows.now) l }
    ensures { result ≡ cost labels (entries counts) (entry_at rows.now) l }
{
    let more = one_more(counts, l);
    let grown = plans::plan_labels(0, labels, &more, rows);
    (grown.total - today) as u8
}

// The figures of label `l`.
fn label_figures(
    labels: usize,
    counts: [u16; 64],
    rows: &[[bool; 64]; 64],
    l: usize,
    today: u32,
) -> Figures
    requires { (labels ≤ 64) × Falls (entry_at rows.now) × (l < labels) × (today ≡ plan_total labels (entries counts) (entry_at rows.now)) × Grows labels (entries counts) (entry_at rows.now) l × (entry_at rows.now l l ≡ true) }
    ensures { (result.cost ≡ cost_at labels (entries counts) (entry_at rows.now) l) × (result.ceiling ≡ ceiling_at labels (entries counts) (entry_at rows.now) l) }
{
    if counts[l] < 65535 {
        let cost = cost(labels, counts, rows, l, today);
        let ceiling = ceiling(labels, rows, l);
        Figures { cost, ceiling }
    } else {
        Figures {
            cost: 0,
            ceiling: 0,
        }
    }
}

// The figures of all labels.
pub fn growth_labels(
    refusal: u8,
    labels: usize,
    counts: [u16; 64],
    rows: &[[bool; 64]; 64],
) -> Growth
    requires { (labels ≤ 64) × Falls (entry_at rows.now) × AllGrow labels (entries counts) (entry_at rows.now) × AllSame labels (entry_at rows.now) }
    ensures { result ≡ growing refusal labels (entries counts) (entry_at rows.now) }
{
    let plan = plans::plan_labels(0, labels, &counts, rows);
    let today = plan.total;
    let mut costs = [0u8; 64];
    let mut ceilings = [0u8; 64];
    for l in 0..labels {
        let label = label_figures(labels, counts, rows, l, today);
        costs[l] = label.cost;
        ceilings[l] = label.ceiling;
    }
    Growth {
        refusal,
        zeros: [0u8; 7],
        labels,
        costs,
        ceilings,
    }
}

// The answer with a refusal.
pub fn refused_growth(number: u8) -> Growth
    ensures { result ≡ refused_growth number }
{
    Growth {
        refusal: number,
        zeros: [0u8; 7],
        labels: 0,
        costs: [0u8; 64],
        ceilings: [0u8; 64],
    }
}
