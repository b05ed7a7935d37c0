// Smallest sets from the order table and the parents: the labels in them, their sizes, and the keys of all accounts.
#![tactic(auto)]

ghost use Rattle.std.specs.Prelude.{◌+◌, ◌≤◌, ◌<◌, cond, ◌≡◌};
ghost use Rattle.order.specs.Table.{entry_at};
ghost use Rattle.trees.specs.Weights.{in_smallest};
ghost use Rattle.weights.specs.Tables.{entries, Rowed, sizes_below, size_table, key_total};

// Whether label `m` is in the smallest set of label `l`: at or below it, and the top or under a parent that is not.
pub fn in_smallest(rows: &[[bool; 64]; 64], parents: &[u8; 64], l: usize, m: usize) -> bool
    requires { (l < 64) × (m < 64) × (entries parents.now m < 64) }
    ensures { result ≡ in_smallest (entry_at rows.now) (entries parents.now) l m }
{
    let parent = usize::from(parents[m]);
    rows[m][l] & ((m == 0) | !rows[parent][l])
}

// The size of a set, with one label more if that is in it.
pub fn counted(size: u8, held: bool) -> u8
    requires { size ≤ 64 }
    ensures { result ≡ size + cond held 1 0 }
{
    size + u8::from(held)
}

// The sizes of the smallest sets with label `m` counted, from those of the labels below it.
fn with_label(
    labels: usize,
    rows: &[[bool; 64]; 64],
    parents: &[u8; 64],
    m: usize,
    sizes: [u8; 64],
) -> [u8; 64]
    requires { (labels ≤ 64) × (m < labels) × Rowed labels parents.now × (sizes ≡ sizes_below labels (entry_at rows.now) (entries parents.now) m) }
    ensures { result ≡ sizes_below labels (entry_at rows.now) (entries parents.now) (m + 1) }
{
    let mut next = [0u8; 64];
    for l in 0..labels {
        let held = in_smallest(rows, parents, l, m);
        next[l] = counted(sizes[l], held);
    }
    next
}

// The size of each label's smallest set.
pub fn set_sizes(labels: usize, rows: &[[bool; 64]; 64], parents: &[u8; 64]) -> [u8; 64]
    requires { (labels ≤ 64) × Rowed labels parents.now }
    ensures { result ≡ size_table labels (entry_at rows.now) (entries parents.now) }
{
    let mut sizes = [0u8; 64];
    for m in 0..labels {
        // In two steps: written in one, the kit does not follow the array that the call answers into the table that it reads.
        let next = with_label(labels, rows, parents, m, sizes);
        sizes = next;
    }
    sizes
}

// The keys of all accounts: for each label its accounts times the size of its smallest set, summed.
pub fn total_keys(labels: usize, counts: &[u16; 64], sizes: &[u8; 64]) -> u32
    requires { labels ≤ 64 }
    ensures { result ≡ key_total labels (entries counts.now) (entries sizes.now) }
{
    let mut total: u32 = 0;
    for (count, size) in counts[..labels].iter().zip(sizes) {
        total += u32::from(*count) * u32::from(*size);
    }
    total
}
