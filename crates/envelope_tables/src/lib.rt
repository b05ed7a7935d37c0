// What the envelope of a label says of each label, as tables: the place of its record, and whether its secret is held.
#![tactic(auto)]

ghost use Rattle.std.specs.Prelude.{false, ◌≡◌, ◌≤◌, ◌<◌};
ghost use Rattle.lists.specs.Tables.{filled};
ghost use Rattle.order.specs.Table.{entry_at};
ghost use Rattle.trees.specs.Weights.{in_smallest};
ghost use Rattle.weights.specs.Tables.{entries, Rowed};
ghost use Rattle.envelopes.specs.Envelope.{place_below};

// The places of the labels' records in the envelope of label `l`: how many labels before each are at or below `l`.
pub fn places(labels: usize, rows: &[[bool; 64]; 64], l: usize) -> [u8; 64]
    requires { (labels ≤ 64) × (l < 64) }
    ensures { result ≡ filled 64 0 (place_below (entry_at rows.now) l) labels }
{
    let mut places = [0u8; 64];
    let mut before: u8 = 0;
    for i in 0..labels {
        places[i] = before;
        before += u8::from(rows[i][l]);
    }
    places
}

// Which labels are in the smallest set of label `l`.
pub fn held_labels(
    labels: usize,
    rows: &[[bool; 64]; 64],
    parents: &[u8; 64],
    l: usize,
) -> [bool; 64]
    requires { (labels ≤ 64) × (l < 64) × Rowed labels parents.now }
    ensures { result ≡ filled 64 false (in_smallest (entry_at rows.now) (entries parents.now) l) labels }
{
    let mut held = [false; 64];
    for m in 0..labels {
        held[m] = sets::in_smallest(rows, parents, l, m);
    }
    held
}
