// One record of a policy file, read after so many labels and pairs.
#![tactic(auto)]

ghost use Rattle.std.specs.Prelude.{◌≡◌, ◌≤◌, length};
ghost use Rattle.policy_file.specs.File.{place_of};
ghost use Rattle.policy_file.specs.Record.{record_at};

use format::{LB, OV};
use label_record::unnamed;
use policy_file::{Kind, Record};

// The record after `labels` labels and `pairs` pairs. Most records are pairs, so their mark is looked for first.
pub fn read_record(policy: &[u8], labels: usize, pairs: usize) -> Record
    requires { place_of labels pairs ≤ length policy.now }
    ensures { result ≡ record_at policy.now labels pairs }
{
    let at = 12 * labels + 4 * pairs;
    let left = policy.len() - at;
    if left == 0 {
        return unnamed(Kind::End);
    }
    if left == 1 {
        return unnamed(Kind::Refused(2));
    }
    if format::marked(policy, at, OV) {
        if left < 4 {
            return unnamed(Kind::Refused(3));
        }
        return unnamed(over_record::read_over(policy, labels, pairs));
    }
    if format::marked(policy, at, LB) {
        if left < 12 {
            return unnamed(Kind::Refused(3));
        }
        if 0 < pairs {
            return unnamed(Kind::Refused(4));
        }
        return label_record::read_label(policy, labels);
    }
    unnamed(Kind::Refused(2))
}
