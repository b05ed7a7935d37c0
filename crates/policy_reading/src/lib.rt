// The records of a policy file from the first on, up to where reading stops.
#![tactic(auto)]

ghost use Rattle.std.specs.Prelude.{◌≡◌};
ghost use Rattle.policy_file.specs.Whole.{stop_of, policy_records_read};

use order::Pair;
use policy_file::{Kind, Policy};

// What the records say from the first on, up to the end of the file, or to the first refused record with its number. The count of a label
// and the numbers of a pair are stored as they are read.
pub fn read_to_stop(policy: &[u8]) -> Policy
    ensures { result ≡ stop_of policy.now }
{
    let mut labels = 0;
    let mut pairs = 0;
    let mut counts = [0u16; 64];
    let mut over = [Pair { upper: 0, lower: 0 }; 512];
    // A `while let` would be no plainer: the loop ends at the end of the file, and at a refusal with its number.
    let refusal = loop {
        let record = policy_record::read_record(policy, labels, pairs);
        match record.kind {
            Kind::Label(count) => {
                counts[labels] = count;
                labels += 1;
            }
            Kind::Over(pair) => {
                over[pairs] = pair;
                pairs += 1;
            }
            Kind::End => break 0,
            Kind::Refused(number) => break number,
        }
    };
    Policy {
        refusal,
        zeros: [0u8; 7],
        labels,
        pairs,
        counts,
        over,
    }
}

// How many records of a policy file are read before its end or its first refused record.
pub fn records_read(policy: &[u8]) -> usize
    ensures { result ≡ policy_records_read policy.now }
{
    let stop = read_to_stop(policy);
    stop.labels + stop.pairs
}
