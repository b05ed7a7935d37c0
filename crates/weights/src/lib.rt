// The weights of labels as parents, from the accounts and the order table.
#![tactic(auto)]

ghost use Rattle.std.specs.Prelude.{◌≤◌, ◌<◌, cond, not, ◌≡◌};
ghost use Rattle.order.specs.Table.{entry_at};
ghost use Rattle.weights.specs.Tables.{entries, Small, accounts_above, above_table, weight_from};

// The accounts of a label as a summand.
pub fn accounts(x: u16) -> u32
    ensures { (result ≡ x) × (result ≤ 65_535) }
{
    u32::from(x)
}

// The accounts of label `l` if label `m` is at or below it, else none.
fn account_above(counts: &[u16; 64], rows: &[[bool; 64]; 64], m: usize, l: usize) -> u32
    requires { (m < 64) × (l < 64) }
    ensures { (result ≡ accounts_above (entries counts.now) (entry_at rows.now) m l) × (result ≤ 65_535) }
{
    if rows[m][l] { accounts(counts[l]) } else { 0 }
}

// The accounts of the labels at or above label `m`.
pub fn accounts_above(
    labels: usize,
    counts: &[u16; 64],
    rows: &[[bool; 64]; 64],
    m: usize,
) -> [u32; 64]
    requires { (labels ≤ 64) × (m < 64) }
    ensures { (result ≡ above_table labels (entries counts.now) (entry_at rows.now) m) × Small result }
{
    let mut above = [0u32; 64];
    for l in 0..labels {
        above[l] = account_above(counts, rows, m, l);
    }
    above
}

// What stands at a label, or nothing if the label is at or above the parent.
fn outside(more: u32, above: bool) -> u32
    ensures { (result ≡ cond (not above) more 0) × (result ≤ more) }
{
    if above { 0 } else { more }
}

// The weight of parent `p` for the label whose accounts above it are given: those at labels that are not above `p`.
pub fn weight(labels: usize, above: &[u32; 64], rows: &[[bool; 64]; 64], p: usize) -> u32
    requires { (labels ≤ 64) × (p < 64) × Small above.now }
    ensures { result ≡ weight_from labels (entries above.now) (entry_at rows.now) p }
{
    let mut sum: u32 = 0;
    for (more, is_above) in above[..labels].iter().zip(&rows[p]) {
        sum += outside(*more, *is_above);
    }
    sum
}
