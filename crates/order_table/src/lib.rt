// The order of labels as a table of 64 rows of 64 yes-or-no entries, built from a policy's over-pairs.
#![tactic(auto)]

ghost use Rattle.std.specs.Prelude.{◌<◌, ◌≤◌, ◌≡◌, take};
ghost use Rattle.order.specs.Table.{entry_at, alone, joined, Links, label_row, order_table};

use order::Pair;

// The row that says yes of label `m` alone.
fn alone(m: usize) -> [bool; 64]
    requires { m < 64 }
    ensures { result ≡ alone m }
{
    let mut row = [false; 64];
    row[m] = true;
    row
}

// Two rows in one: yes where either is.
fn joined(row: [bool; 64], above: &[bool; 64]) -> [bool; 64]
    ensures { result ≡ joined row above.now }
{
    // A `for`, and no `std::array::from_fn`: with that the kit proves each function, and then cannot write down what the crate states.
    let mut both = [false; 64];
    for l in 0..64 {
        both[l] = row[l] | above[l];
    }
    both
}

// Which labels the first `pairs` pairs lead down from: entry `u` of row `m` says whether one leads from `u` to `m`.
fn links(pairs: usize, over: [Pair; 512]) -> [[bool; 64]; 64]
    requires { pairs ≤ 512 }
    ensures { Links result (take pairs over) }
{
    let mut table = [[false; 64]; 64];
    for pair in &over[..pairs] {
        let upper = usize::from(pair.upper);
        let lower = usize::from(pair.lower);
        if upper < 64 && lower < 64 {
            table[lower][upper] = true;
        }
    }
    table
}

// The row of label `m`: itself, and the row of each label before it that leads down to it.
fn label_row(rows: &[[bool; 64]; 64], links: &[[bool; 64]; 64], m: usize) -> [bool; 64]
    requires { m < 64 }
    ensures { result ≡ label_row rows.now (entry_at links.now m) m }
{
    let mut row = alone(m);
    for u in 0..m {
        if links[m][u] {
            // In two steps: written in one, the kit does not follow the array that the call answers into the row that it reads.
            let both = joined(row, &rows[u]);
            row = both;
        }
    }
    row
}

// The order table of `labels` labels and the first `pairs` over-pairs.
pub fn order_table(labels: usize, pairs: usize, over: [Pair; 512]) -> [[bool; 64]; 64]
    ensures { result ≡ order_table labels (take pairs over) }
{
    let mut rows = [[false; 64]; 64];
    let links = links(pairs.min(512), over);
    for m in 0..labels.min(64) {
        rows[m] = label_row(&rows, &links, m);
    }
    rows
}

// Whether label `m` is at or below label `l`.
pub fn at_or_below(rows: &[[bool; 64]; 64], m: usize, l: usize) -> bool
    requires { (m < 64) × (l < 64) }
    ensures { result ≡ entry_at rows.now m l }
{
    rows[m][l]
}
