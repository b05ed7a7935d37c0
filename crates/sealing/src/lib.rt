// Sealed module files written for the labels of a policy.
#![tactic(auto)]

ghost use Rattle.std.specs.Prelude.{◌≡◌, ◌++◌, ◌+◌, ◌-◌, ◌≤◌, length};
ghost use Rattle.aead.specs.Aead.{tag_of};
ghost use Rattle.buffers.specs.Handed.{handed, handed_into};
ghost use Rattle.buffers.specs.Put.{Put};
ghost use Rattle.format.specs.Bytes.{bytes_at};
ghost use Rattle.sealed_file.specs.Sealed.{head_of, sealed_file};
ghost use Rattle.seal_answers.specs.Seal.{sealed_of, file_after};

use buffers::Written;
use format::SM;

// Writes mark, name and nonce.
fn put_head(out: &mut [u8], name: [u8; 8], nonce: [u8; 12]) -> usize
    requires { 22 ≤ length out.old }
    ensures { Put out.old out.new 0 (head_of name ++ nonce) result }
{
    let marked = buffers::put_bytes(out, 0, &SM);
    let named = buffers::put_bytes(out, marked, &name);
    buffers::put_bytes(out, named, &nonce)
}

// Writes the tag of what stands in the buffer up to `at`.
fn put_tag(key: [u8; 32], nonce: [u8; 12], out: &mut [u8], at: usize) -> usize
    requires { (22 ≤ at) × (at + 16 ≤ length out.old) }
    ensures { Put out.old out.new at (tag_of key nonce (bytes_at out.old 0 10) (bytes_at out.old 22 (at - 22))) result }
{
    let tag = aead::tag(key, nonce, &out[0..10], &out[22..at]);
    buffers::put_bytes(out, at, &tag)
}

// Writes the sealed file of a text at the buffer's start, and answers its length.
fn put_sealed(key: [u8; 32], name: [u8; 8], nonce: [u8; 12], text: &[u8], out: &mut [u8]) -> usize
    requires { (length name ≡ 8) × (length nonce ≡ 12) × (length text.now ≤ 32768) × (38 + length text.now ≤ length out.old) }
    ensures { Put out.old out.new 0 (sealed_file key name nonce text.now) result }
{
    let at = put_head(out, name, nonce);
    let end = sealed_parts::put_ciphered(key, nonce, text, out, at);
    put_tag(key, nonce, out, end)
}

// The same, where there is room. A buffer that has none stays as it was.
fn hand_out_sealed(
    key: [u8; 32],
    name: [u8; 8],
    nonce: [u8; 12],
    text: &[u8],
    out: &mut [u8],
) -> Written
    requires { length text.now ≤ 32768 }
    ensures { (result ≡ handed (sealed_file key name nonce text.now) (length out.old)) × (out.new ≡ handed_into (sealed_file key name nonce text.now) out.old) }
{
    if out.len() < 38 + text.len() {
        return buffers::refuse(16);
    }
    Written {
        refusal: 0,
        zeros: [0u8; 7],
        length: put_sealed(key, name, nonce, text, out),
    }
}

// Writes the sealed file of a text for the label asked for from the buffer's start on, or nothing if it is refused.
pub fn seal(
    policy: &[u8],
    name: &[u8],
    root: &[u8],
    nonce: &[u8],
    text: &[u8],
    out: &mut [u8],
) -> Written
    ensures { (result ≡ sealed_of policy.now name.now root.now nonce.now text.now (length out.old)) × (out.new ≡ file_after policy.now name.now root.now nonce.now text.now out.old) }
{
    let answer = issuer_keys::issuer_key(policy, name, root);
    if answer.refusal != 0 {
        return buffers::refuse(answer.refusal);
    }
    if nonce.len() != 12 {
        return buffers::refuse(22);
    }
    if 32768 < text.len() {
        return buffers::refuse(22);
    }
    let key = answer.key;
    hand_out_sealed(
        key,
        names::read_name(name, 0),
        sealed_parts::read_nonce(nonce, 0),
        text,
        out,
    )
}
