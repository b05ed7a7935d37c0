// The weighing of an offered tree.
#![tactic(auto)]

ghost use Rattle.std.specs.Prelude.{◌≡◌, ◌≤◌};
ghost use Rattle.order.specs.Table.{entry_at};
ghost use Rattle.trees.specs.Weights.{total};
ghost use Rattle.weights.specs.Tables.{entries, Rowed, Falls};
ghost use Rattle.plan_answers.specs.Weighing.{refused_weighed, tree_weighed, weigh_of};

use plan_answers::Weighed;

// The total of a tree: accounts times size of the smallest set, summed.
fn total_of(labels: usize, counts: &[u16; 64], rows: &[[bool; 64]; 64], parents: &[u8; 64]) -> u32
    requires { (labels ≤ 64) × Rowed labels parents.now }
    ensures { result ≡ total labels (entries counts.now) (entry_at rows.now) (entries parents.now) }
{
    let sizes = sets::set_sizes(labels, rows, parents);
    sets::total_keys(labels, counts, &sizes)
}

// The answer with a refusal.
pub fn refused(number: u8) -> Weighed
    ensures { result ≡ refused_weighed number }
{
    Weighed {
        refusal: number,
        least: false,
        zeros: [0u8; 2],
        total: 0,
    }
}

// The total of a tree, and whether it is that of the chosen parents.
fn weigh_tree(
    labels: usize,
    counts: &[u16; 64],
    rows: &[[bool; 64]; 64],
    offered: &[u8; 64],
) -> Weighed
    requires { (labels ≤ 64) × Falls (entry_at rows.now) × Rowed labels offered.now }
    ensures { result ≡ tree_weighed labels (entries counts.now) (entry_at rows.now) (entries offered.now) }
{
    let best = parents::choose(labels, counts, rows);
    let planned = best.parents;
    let fewest = total_of(labels, counts, rows, &planned);
    let total = total_of(labels, counts, rows, offered);
    Weighed {
        refusal: 0,
        least: total == fewest,
        zeros: [0u8; 2],
        total,
    }
}

// The total of the tree that is offered, and whether it is the fewest; a refusal of the policy comes before one of the tree file.
pub fn weigh(policy: &[u8], tree: &[u8]) -> Weighed
    ensures { result ≡ weigh_of policy.now tree.now }
{
    let read = policy::read_policy(policy);
    if read.refusal != 0 {
        return refused(read.refusal);
    }
    let labels = read.labels;
    let counts = read.counts;
    let over = read.over;
    let rows = order_table::order_table(labels, read.pairs, over);
    let number = tree_file::tree_refusal(labels, &rows, tree);
    if number != 0 {
        return refused(number);
    }
    let offered = tree_file::read_parents(labels, tree);
    weigh_tree(labels, &counts, &rows, &offered)
}
