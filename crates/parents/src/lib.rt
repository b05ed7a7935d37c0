// For each label a parent of least weight.
#![tactic(auto)]

ghost use Rattle.std.specs.Prelude.{◌≤◌, ◌<◌, ◌≡◌};
ghost use Rattle.order.specs.Table.{entry_at};
ghost use Rattle.trees.specs.Weights.{takes};
ghost use Rattle.weights.specs.Tables.{entries, Falls};
ghost use Rattle.parents.specs.Choices.{choice_of, chosen_of};

// A label's parent and the parent's weight; for the top itself and its accounts.
#[derive(Clone, Copy)]
pub struct Choice {
    pub parent: usize,
    pub weight: u32,
}

// The choices of all labels. Entries past the labels are 0.
#[derive(Clone, Copy)]
pub struct Chosen {
    pub parents: [u8; 64],
    pub weights: [u32; 64],
}

// Whether a later label takes the place of the best so far: the rule for ties.
#[tactic(auto, unfolding(trees::specs::Weights::takes))]
fn takes(later: u32, sofar: u32) -> bool
    ensures { result ≡ takes later sofar }
{
    later <= sofar
}

// The parent of least weight for label `m`, gone through upwards from the top.
fn least_parent(labels: usize, counts: &[u16; 64], rows: &[[bool; 64]; 64], m: usize) -> Choice
    requires { (labels ≤ 64) × (m < 64) }
    ensures { (result ≡ choice_of labels (entries counts.now) (entry_at rows.now) m) × (result.parent ≤ m) }
{
    if m == 0 {
        return Choice {
            parent: 0,
            weight: u32::from(counts[0]),
        };
    }
    let above = weights::accounts_above(labels, counts, rows, m);
    let mut parent = 0;
    let mut weight = weights::weight(labels, &above, rows, 0);
    for p in 1..m {
        if rows[m][p] {
            let weighed = weights::weight(labels, &above, rows, p);
            if takes(weighed, weight) {
                parent = p;
                weight = weighed;
            }
        }
    }
    Choice { parent, weight }
}

// A number past label `m`: up to it all labels that can be above `m` are counted, eight at a time.
fn past(m: usize) -> usize
    requires { m < 64 }
    ensures { (m < result) × (result ≤ 64) }
{
    (m + 1).next_multiple_of(8)
}

// For each label a parent of least weight, with that weight.
pub fn choose(labels: usize, counts: &[u16; 64], rows: &[[bool; 64]; 64]) -> Chosen
    requires { (labels ≤ 64) × Falls (entry_at rows.now) }
    ensures { result ≡ chosen_of labels (entries counts.now) (entry_at rows.now) }
{
    let mut parents = [0u8; 64];
    let mut weights = [0u32; 64];
    for m in 0..labels {
        let choice = least_parent(past(m), counts, rows, m);
        parents[m] = choice.parent as u8;
        weights[m] = choice.weight;
    }
    Chosen { parents, weights }
}
