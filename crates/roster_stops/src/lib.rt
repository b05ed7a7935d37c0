// How many records of a roster file are read before the first refused one.
#![tactic(auto)]

ghost use Rattle.std.specs.Prelude.{◌≡◌, ◌*◌, ◌≤◌, length};
ghost use Rattle.roster_answers.specs.Records.{records_before, roster_records_read};

// The records that start before byte `end`. The place moves by the size of each record, which no iterator gives.
fn count_records(policy: &[u8], labels: usize, file: &[u8], end: usize) -> usize
    requires { (12 * labels ≤ length policy.now) × (labels ≤ 64) }
    ensures { result ≡ records_before (length file.now) policy.now labels file.now end 0 }
{
    let mut records: usize = 0;
    let mut at: usize = 0;
    while at < end {
        let entry = roster_entry::read_entry(policy, labels, file, at);
        let size = roster_entry::entry_size(entry);
        if size == 0 {
            return records;
        }
        records += 1;
        at += size;
    }
    records
}

// The records of a roster file before the first refused one, or all of them; none if the policy is refused.
pub fn records_read(policy: &[u8], roster: &[u8]) -> usize
    ensures { result ≡ roster_records_read policy.now roster.now }
{
    let read = policy::read_policy(policy);
    if read.refusal != 0 {
        return 0;
    }
    let stop = roster_reading::read_roster(policy, read.labels, roster);
    count_records(policy, read.labels, roster, stop.at)
}
