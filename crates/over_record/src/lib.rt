// The `OV` record of a policy file.
#![tactic(auto)]

ghost use Rattle.std.specs.Prelude.{◌≡◌, ◌+◌, ◌≤◌, length};
ghost use Rattle.policy_file.specs.File.{place_of, pair_at};
ghost use Rattle.policy_file.specs.Record.{over_kind};

use order::Pair;
use policy_file::Kind;

// Pair `k` after `labels` labels.
#[tactic(auto, unfolding(policy_file::specs::File::pair_at))]
fn read_pair(policy: &[u8], labels: usize, k: usize) -> Pair
    requires { place_of labels k + 4 ≤ length policy.now }
    ensures { result ≡ pair_at policy.now labels k }
{
    let at = 12 * labels + 4 * k;
    Pair {
        upper: policy[at + 2],
        lower: policy[at + 3],
    }
}

// The `OV` record after `labels` labels and `pairs` pairs.
#[tactic(auto, unfolding(policy_file::specs::Record::over_kind))]
pub fn read_over(policy: &[u8], labels: usize, pairs: usize) -> Kind
    requires { place_of labels pairs + 4 ≤ length policy.now }
    ensures { result ≡ over_kind policy.now labels pairs }
{
    if 512 <= pairs {
        return Kind::Refused(5);
    }
    let pair = read_pair(policy, labels, pairs);
    let upper = usize::from(pair.upper);
    let lower = usize::from(pair.lower);
    if labels <= upper || labels <= lower {
        return Kind::Refused(8);
    }
    if lower <= upper {
        return Kind::Refused(9);
    }
    Kind::Over(pair)
}
