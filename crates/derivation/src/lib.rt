// The key of a record's label in an envelope: its secret, walked down from a held one, and the key made of it.
#![tactic(auto)]

ghost use Rattle.std.specs.Prelude.{◌≡◌, ◌≤◌, ◌<◌};
ghost use Rattle.envelope_file.specs.Derive.{walk_to, derived_at};

use envelope_file::{Derived, Walk};
use envelope_records::Records;

// The secret of record `k`: held if its place is its own, else one step from that of the record at its place.
fn walk_to(read: &Records, k: usize) -> Walk
    requires { k < read.now.front.count }
    ensures { (result ≡ walk_to read.now.front.envelope.now k) × (result.steps ≤ k) }
{
    let at = read.front.starts[k];
    let place = usize::from(read.places[k]);
    if place == k {
        return Walk {
            secret: format::read_secret(read.front.envelope, at + 10),
            steps: 0,
        };
    }
    let above = walk_to(read, place);
    let secret = above.secret;
    let steps = above.steps + 1;
    Walk {
        secret: hmac::child_secret(secret, names::read_name(read.front.envelope, at + 2)),
        steps,
    }
}

// The key of the label of record `k`.
pub fn derive_record(read: &Records, k: usize) -> Derived
    requires { k < read.now.front.count }
    ensures { result ≡ derived_at read.now.front.envelope.now k }
{
    let walk = walk_to(read, k);
    let secret = walk.secret;
    let applications = walk.steps + 1;
    let at = read.front.starts[k];
    Derived {
        refusal: 0,
        key: hmac::label_key(secret, names::read_name(read.front.envelope, at + 2)),
        applications,
    }
}
