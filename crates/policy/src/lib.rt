// A policy file read: the check at its end, and what it says.
#![tactic(auto)]

ghost use Rattle.std.specs.Prelude.{◌≡◌, ◌≤◌, ◌<◌};
ghost use Rattle.lists.specs.Tables.{listed};
ghost use Rattle.policy_file.specs.Whole.{is_lower, all_placed, refused_policy, policy_of};

use order::Pair;
use policy_file::Policy;

// Which numbers are the lower of one of the first `pairs` pairs.
pub fn lowers(pairs: usize, over: [Pair; 512]) -> [bool; 256]
    requires { pairs ≤ 512 }
    ensures { result ≡ listed (is_lower over pairs) 256 }
{
    let mut found = [false; 256];
    for pair in &over[..pairs] {
        found[usize::from(pair.lower)] = true;
    }
    found
}

// Whether every label but 0 is the lower of a pair.
fn all_placed(labels: usize, pairs: usize, over: [Pair; 512]) -> bool
    requires { (labels ≤ 64) × (pairs ≤ 512) }
    ensures { result ≡ all_placed labels pairs over }
{
    let lower = lowers(pairs, over);
    (1..labels).all(|m| lower[m])
}

// The answer for a refused file.
fn refuse(number: u8) -> Policy
    ensures { result ≡ refused_policy number }
{
    Policy {
        refusal: number,
        zeros: [0u8; 7],
        labels: 0,
        pairs: 0,
        counts: [0u16; 64],
        over: [Pair { upper: 0, lower: 0 }; 512],
    }
}

// What a policy file says, or the number of its refusal.
pub fn read_policy(policy: &[u8]) -> Policy
    ensures { result ≡ policy_of policy.now }
{
    if policy.is_empty() {
        return refuse(1);
    }
    let read = policy_reading::read_to_stop(policy);
    if read.refusal != 0 {
        return refuse(read.refusal);
    }
    let over = read.over;
    if !all_placed(read.labels, read.pairs, over) {
        return refuse(10);
    }
    read
}
