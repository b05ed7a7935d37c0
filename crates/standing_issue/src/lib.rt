// The envelope of an account by how it stands: what it is refused under, and the envelope handed out.
#![tactic(auto)]

ghost use Rattle.std.specs.Prelude.{◌≡◌, length};
ghost use Rattle.roster_answers.specs.Issue.{activity_refusal, standing_refusal, standing_issued, standing_after};

use buffers::Written;
use roster_file::{Activity, Standing};

// The number that an account on the label asked for, or the root secret, is refused under, 0 when they are not.
fn activity_refusal(activity: Activity, root: &[u8]) -> u8
    ensures { result ≡ activity_refusal activity root.now }
{
    match activity {
        Activity::Active if root.len() == 32 => 0,
        Activity::Active => 15,
        Activity::Held => 26,
    }
}

// The number that an account or the root secret is refused under where label `l` is asked for, 0 when they are not.
fn standing_refusal(standing: Standing, root: &[u8], l: usize) -> u8
    ensures { result ≡ standing_refusal standing root.now l }
{
    match standing {
        Standing::On(m, activity) if usize::from(m) == l => activity_refusal(activity, root),
        _ => 14,
    }
}

// Writes the envelope of an account that stands so from the buffer's start on, or nothing if it is refused.
pub fn issue_standing(
    policy: &[u8],
    standing: Standing,
    name: &[u8],
    account: u32,
    root: &[u8],
    envelope: &mut [u8],
) -> Written
    ensures { (result ≡ standing_issued policy.now standing name.now account root.now (length envelope.old)) × (envelope.new ≡ standing_after policy.now standing name.now account root.now envelope.old) }
{
    let mut rows = [[false; 64]; 64];
    let planned = planner::plan_order(policy, &mut rows);
    if planned.refusal != 0 {
        return buffers::refuse(planned.refusal);
    }
    match issuer_keys::asked_label(policy, planned.labels, name) {
        Some(l) => {
            let number = standing_refusal(standing, root, l);
            if number != 0 {
                return buffers::refuse(number);
            }
            let parents = planned.parents;
            let secret = format::read_secret(root, 0);
            label_issue::issue_label(
                policy,
                planned.labels,
                &rows,
                &parents,
                secret,
                l,
                account,
                envelope,
            )
        }
        None => buffers::refuse(13),
    }
}
