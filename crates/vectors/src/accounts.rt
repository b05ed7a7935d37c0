// The operations with a roster of accounts. What they answer is printed as without one. `asked` has the label's name, and after it what else is asked for.
use crate::{keys, modules, policies};

// The policy with the roster's counts.
pub(crate) fn policy(rt: HostRuntime, policy: &[u8], roster: &[u8], buffer: &mut [u8]) {
    let w = rosters::count_policy(policy, roster, buffer);
    modules::tell(rt, w, buffer);
}

// The policy's plan.
pub(crate) fn plan(rt: HostRuntime, policy: &[u8], roster: &[u8]) {
    policies::tell_plan(rt, &roster_plans::plan_roster(policy, roster));
}

// An offered tree of the policy.
pub(crate) fn tree(rt: HostRuntime, policy: &[u8], roster: &[u8], offered: &[u8]) {
    policies::tell_tree(rt, roster_plans::weigh_roster(policy, roster, offered));
}

// The key of a label. After the name comes the root secret.
pub(crate) fn key(rt: HostRuntime, policy: &[u8], roster: &[u8], asked: &[u8]) {
    if let Some((name, root)) = asked.split_at_checked(8) {
        let k = roster_issuer::issuer_key_roster(policy, roster, name, root);
        keys::tell_key(rt, &k);
    }
}

// An account's envelope. After the name comes the root secret.
pub(crate) fn envelope(
    rt: HostRuntime,
    policy: &[u8],
    roster: &[u8],
    asked: &[u8],
    account: u32,
    buffer: &mut [u8],
) {
    if let Some((name, root)) = asked.split_at_checked(8) {
        let w = roster_issuer::issue_roster(policy, roster, name, account, root, buffer);
        keys::tell_envelope(rt, w, buffer);
    }
}

// A text sealed for a label. After the name come the root secret, the nonce and the text.
pub(crate) fn sealed(
    rt: HostRuntime,
    policy: &[u8],
    roster: &[u8],
    asked: &[u8],
    buffer: &mut [u8],
) {
    if 52 <= asked.len() {
        let w = roster_issuer::seal_roster(
            policy,
            roster,
            &asked[..8],
            &asked[8..40],
            &asked[40..52],
            &asked[52..],
            buffer,
        );
        modules::tell(rt, w, buffer);
    }
}
