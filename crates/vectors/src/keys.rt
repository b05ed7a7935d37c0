// Keys and envelopes.
use crate::print;
use buffers::Written;
use issuer_answers::IssuerKey;

pub(crate) fn tell_key(rt: HostRuntime, k: &IssuerKey) {
    if print::accepted(rt, k.refusal) {
        print::hexadecimal(rt, &k.key, 32);
    }
}

// The key of a label.
pub(crate) fn key(rt: HostRuntime, policy: &[u8], name: &[u8], root: &[u8]) {
    tell_key(rt, &issuer_keys::issuer_key(policy, name, root));
}

// The length and the bytes of an envelope that is issued.
pub(crate) fn tell_envelope(rt: HostRuntime, w: Written, buffer: &[u8]) {
    if print::accepted(rt, w.refusal) {
        let _ = print!(rt; "{} bytes, ", w.length);
        print::hexadecimal(rt, buffer, w.length);
    }
}

// An account's envelope.
pub(crate) fn envelope(
    rt: HostRuntime,
    policy: &[u8],
    name: &[u8],
    account: u32,
    root: &[u8],
    buffer: &mut [u8],
) {
    let w = issuer::issue(policy, name, account, root, buffer);
    tell_envelope(rt, w, buffer);
}

// How often F was applied for the key that an envelope gives for a name, and that key.
pub(crate) fn derived(rt: HostRuntime, envelope: &[u8], name: &[u8]) {
    let d = desk::derive(envelope, name);
    if print::accepted(rt, d.refusal) {
        let _ = print!(rt; "{} applications, ", d.applications);
        print::hexadecimal(rt, &d.key, 32);
    }
}
