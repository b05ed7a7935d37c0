// The secrets of a policy's labels, each made from its parent's.
#![tactic(auto)]

ghost use Rattle.std.specs.Prelude.{◌≢◌, ◌≡◌, ◌+◌, ◌≤◌};
ghost use Rattle.trees.specs.Trees.{top};
ghost use Rattle.weights.specs.Tables.{entries};
ghost use Rattle.secrets.specs.Asks.{ParentsFall, Hung, Needed, secret_at, table_secret, Made};

// The held labels and those that they hang from, up to the top: each label's parent is marked before the parent's own turn comes.
fn with_parents(labels: usize, parents: &[u8; 64], held: [bool; 64]) -> [bool; 64]
    requires { (labels ≤ 64) × ParentsFall parents.now labels }
    ensures { Needed held result parents.now 1 labels }
{
    let mut needed = held;
    for m in (1..labels).rev() {
        if needed[m] {
            needed[usize::from(parents[m])] = true;
        }
    }
    needed
}

// The secret of label `m`: the root secret for the top, else made from that of its parent, which is in the table.
fn next_secret(
    policy: &[u8],
    parents: &[u8; 64],
    root: [u8; 32],
    secrets: &[[u8; 32]; 64],
    m: usize,
) -> [u8; 32]
    requires { Hung policy.now parents.now (m + 1) × (m ≢ top → secret_at secrets.now (entries parents.now m) ≡ table_secret policy.now parents.now root (entries parents.now m)) }
    ensures { result ≡ table_secret policy.now parents.now root m }
{
    if m == 0 {
        return root;
    }
    let above = secrets[usize::from(parents[m])];
    hmac::child_secret(above, names::read_name(policy, 12 * m + 2))
}

// The secrets of the held labels, and of those that they hang from, each made once from its parent's. What stands in other entries is free: no one reads them.
pub fn make_secrets(
    policy: &[u8],
    labels: usize,
    parents: &[u8; 64],
    root: [u8; 32],
    held: [bool; 64],
) -> [[u8; 32]; 64]
    requires { Hung policy.now parents.now labels }
    ensures { Made policy.now parents.now root held result labels }
{
    let needed = with_parents(labels, parents, held);
    let mut secrets = [[0u8; 32]; 64];
    for m in 0..labels {
        if needed[m] {
            let secret = next_secret(policy, parents, root, &secrets, m);
            secrets[m] = secret;
        }
    }
    secrets
}

// The secret of label `m`.
pub fn secret_of(policy: &[u8], parents: &[u8; 64], root: [u8; 32], m: usize) -> [u8; 32]
    requires { Hung policy.now parents.now (m + 1) }
    ensures { result ≡ table_secret policy.now parents.now root m }
{
    let mut held = [false; 64];
    held[m] = true;
    let secrets = make_secrets(policy, m + 1, parents, root, held);
    secrets[m]
}
