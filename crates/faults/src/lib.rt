// Which label refusals 10 and 12 mean, by its name: eight spaces when the refusal is another one, or none.
#![tactic(auto)]

ghost use Rattle.std.specs.Prelude.{◌≡◌, ◌+◌, ◌-◌, ◌≤◌, length};
ghost use Rattle.format.specs.Search.{first_from};
ghost use Rattle.order.specs.Table.{entry_at};
ghost use Rattle.faults.specs.Faults.{Inside, name_found, is_no_lower, second_top, is_ill_hung, ill_hung};

use order::Pair;

// The name of the label found; eight spaces for none.
fn name_found(policy: &[u8], found: Option<usize>) -> [u8; 8]
    requires { Inside policy.now found }
    ensures { result ≡ name_found policy.now found }
{
    match found {
        Some(m) => names::read_name(policy, 12 * m + 2),
        None => [b' '; 8],
    }
}

// The first label other than 0 that is not the lower of one of the first `pairs` pairs.
fn first_no_lower(labels: usize, pairs: usize, over: [Pair; 512]) -> Option<usize>
    requires { (labels ≤ 64) × (pairs ≤ 512) }
    ensures { result ≡ first_from (is_no_lower over pairs) 1 (labels - 1) }
{
    let lower = policy::lowers(pairs, over);
    (1..labels).find(|m| !lower[*m])
}

// The label that refusal 10 means: the first label other than 0 that is never the lower of a pair.
pub fn second_top(policy: &[u8]) -> [u8; 8]
    ensures { result ≡ second_top policy.now }
{
    let stop = policy_reading::read_to_stop(policy);
    if stop.refusal != 0 {
        return [b' '; 8];
    }
    let over = stop.over;
    let found = first_no_lower(stop.labels, stop.pairs, over);
    name_found(policy, found)
}

// The first label whose byte in the tree file is not in order.
fn first_ill_hung(labels: usize, rows: &[[bool; 64]; 64], tree: &[u8]) -> Option<usize>
    requires { (labels ≤ 64) × (2 + labels ≤ length tree.now) }
    ensures { result ≡ first_from (is_ill_hung (entry_at rows.now) tree.now) 0 labels }
{
    (0..labels).find(|m| !tree_file::hangs_at(rows, tree, *m))
}

// The label that refusal 12 means: the first label whose byte refuses the tree file.
pub fn ill_hung(policy: &[u8], tree: &[u8]) -> [u8; 8]
    ensures { result ≡ ill_hung policy.now tree.now }
{
    let read = policy::read_policy(policy);
    if read.refusal != 0 {
        return [b' '; 8];
    }
    let labels = read.labels;
    let over = read.over;
    let rows = order_table::order_table(labels, read.pairs, over);
    if tree_file::tree_refusal(labels, &rows, tree) != 12 {
        return [b' '; 8];
    }
    let found = first_ill_hung(labels, &rows, tree);
    name_found(policy, found)
}
