// A policy file with other counts.
#![tactic(auto)]

ghost use Rattle.std.specs.Prelude.{◌+◌, ◌*◌, ◌≤◌, ◌<◌, ◌≡◌, length};
ghost use Rattle.buffers.specs.Handed.{handed, handed_into};
ghost use Rattle.policy_file.specs.Counts.{with_count, recounted};
ghost use Rattle.weights.specs.Tables.{entries};

use buffers::Written;

// Writes a count over that of label `l`, its most significant byte first.
#[tactic(auto, unfolding(policy_file::specs::Counts::with_count))]
fn put_count(file: &mut [u8], l: usize, count: u16)
    requires { 12 * l + 12 ≤ length file.old }
    ensures { file.new ≡ with_count file.old l count }
{
    buffers::put_bytes(file, 12 * l + 10, &count.to_be_bytes());
}

// Writes counts over those of the first labels.
fn put_counts(file: &mut [u8], labels: usize, counts: [u16; 64])
    requires { (labels ≤ 64) × (12 * labels ≤ length file.old) }
    ensures { file.new ≡ recounted file.old (entries counts) labels }
{
    for (l, count) in counts[..labels].iter().enumerate() {
        put_count(file, l, *count);
    }
}

// Hands out a policy file with these counts in place of its own.
pub fn recount(policy: &[u8], labels: usize, counts: [u16; 64], out: &mut [u8]) -> Written
    requires { (labels ≤ 64) × (12 * labels ≤ length policy.now) }
    ensures { (result ≡ handed (recounted policy.now (entries counts) labels) (length out.old)) × (out.new ≡ handed_into (recounted policy.now (entries counts) labels) out.old) }
{
    let written = buffers::hand_out(policy, out);
    if written.refusal == 0 {
        put_counts(out, labels, counts);
    }
    written
}
