// The tree file: its refusals, and the parents that it gives.
#![tactic(auto)]

ghost use Rattle.std.specs.Prelude.{◌≡◌, ◌+◌, ◌≤◌, ◌<◌, length};
ghost use Rattle.lists.specs.Tables.{filled};
ghost use Rattle.order.specs.Table.{entry_at};
ghost use Rattle.plan_answers.specs.TreeFile.{parent_in, hangs_at, tree_refusal};

use format::TR;

// Label `m`'s byte.
#[tactic(auto, unfolding(plan_answers::specs::TreeFile::parent_in))]
fn parent_in(tree: &[u8], m: usize) -> u8
    requires { m + 2 < length tree.now }
    ensures { result ≡ parent_in tree.now m }
{
    tree[m + 2]
}

// Whether label `m`'s byte is in order: a strictly higher label, and the top's byte 0.
#[tactic(auto, unfolding(plan_answers::specs::TreeFile::hangs_at))]
pub fn hangs_at(rows: &[[bool; 64]; 64], tree: &[u8], m: usize) -> bool
    requires { (m < 64) × (m + 2 < length tree.now) }
    ensures { result ≡ hangs_at (entry_at rows.now) tree.now m }
{
    let parent = usize::from(parent_in(tree, m));
    if m == 0 {
        parent == 0
    } else {
        parent < m && rows[m][parent]
    }
}

// The number that a tree file is refused under, 0 when it is not.
pub fn tree_refusal(labels: usize, rows: &[[bool; 64]; 64], tree: &[u8]) -> u8
    requires { labels ≤ 64 }
    ensures { result ≡ tree_refusal labels (entry_at rows.now) tree.now }
{
    if tree.len() < 2 || !format::marked(tree, 0, TR) {
        return 2;
    }
    if tree.len() != 2 + labels {
        return 11;
    }
    if !(0..labels).all(|m| hangs_at(rows, tree, m)) {
        return 12;
    }
    0
}

// The parents that a tree file gives to `labels` labels.
pub fn read_parents(labels: usize, tree: &[u8]) -> [u8; 64]
    requires { (labels ≤ 64) × (2 + labels ≤ length tree.now) }
    ensures { result ≡ filled 64 0 (parent_in tree.now) labels }
{
    let mut parents = [0u8; 64];
    parents[..labels].copy_from_slice(&tree[2..2 + labels]);
    parents
}
