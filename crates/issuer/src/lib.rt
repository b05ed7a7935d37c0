// Key envelopes written for accounts of a policy.
#![tactic(auto)]

ghost use Rattle.std.specs.Prelude.{◌≡◌, length};
ghost use Rattle.issuer_answers.specs.Issue.{issued_of, envelope_after};

use buffers::Written;

// Writes the envelope of an account at the label asked for from the buffer's start on, or nothing if it is refused.
pub fn issue(policy: &[u8], name: &[u8], account: u32, root: &[u8], envelope: &mut [u8]) -> Written
    ensures { (result ≡ issued_of policy.now name.now account root.now (length envelope.old)) × (envelope.new ≡ envelope_after policy.now name.now account root.now envelope.old) }
{
    let mut rows = [[false; 64]; 64];
    let planned = planner::plan_order(policy, &mut rows);
    if planned.refusal != 0 {
        return buffers::refuse(planned.refusal);
    }
    let Some(l) = issuer_keys::asked_label(policy, planned.labels, name) else {
        return buffers::refuse(13);
    };
    let number = label_issue::account_refusal(policy, l, account, root);
    if number != 0 {
        return buffers::refuse(number);
    }
    let parents = planned.parents;
    let secret = format::read_secret(root, 0);
    label_issue::issue_label(
        policy,
        planned.labels,
        &rows,
        &parents,
        secret,
        l,
        account,
        envelope,
    )
}
