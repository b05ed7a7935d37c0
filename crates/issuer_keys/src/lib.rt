// The issuer's keys, and the label that a name asks for.
#![tactic(auto)]

ghost use Rattle.std.specs.Prelude.{◌≡◌, ◌*◌, ◌≤◌, length};
ghost use Rattle.issuer_answers.specs.Keys.{label_asked, refused_key, issuer_key_of};

use issuer_answers::IssuerKey;

// The label that has the name asked for; none if that does not have 8 bytes.
pub fn asked_label(policy: &[u8], labels: usize, name: &[u8]) -> Option<usize>
    requires { 12 * labels ≤ length policy.now }
    ensures { result ≡ label_asked policy.now labels name.now }
{
    if name.len() != 8 {
        return None;
    }
    label_record::find_name(policy, labels, names::read_name(name, 0))
}

// The answer of `issuer_key` with a refusal.
pub fn refuse_key(number: u8) -> IssuerKey
    ensures { result ≡ refused_key number }
{
    IssuerKey {
        refusal: number,
        key: [0u8; 32],
    }
}

// The issuer's own key for the label asked for.
pub fn issuer_key(policy: &[u8], name: &[u8], root: &[u8]) -> IssuerKey
    ensures { result ≡ issuer_key_of policy.now name.now root.now }
{
    let plan = planner::plan_policy(policy);
    if plan.refusal != 0 {
        return refuse_key(plan.refusal);
    }
    let Some(l) = asked_label(policy, plan.labels, name) else {
        return refuse_key(13);
    };
    let Ok(root) = <[u8; 32]>::try_from(root) else {
        return refuse_key(15);
    };
    let parents = plan.parents;
    let secret = secrets::secret_of(policy, &parents, root, l);
    IssuerKey {
        refusal: 0,
        key: hmac::label_key(secret, names::read_name(policy, 12 * l + 2)),
    }
}
