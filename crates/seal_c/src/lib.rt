// Sealed module files written for C callers, by the equation of the operation itself. A slice is passed as a pointer and a length.
#![tactic(auto)]

ghost use Rattle.std.specs.Prelude.{◌≡◌, length};
ghost use Rattle.seal_answers.specs.Seal.{sealed_of, file_after};

use buffers::Written;

#[unsafe(no_mangle)]
pub extern "C" fn yendlowa_seal(
    policy: &[u8],
    name: &[u8],
    root: &[u8],
    nonce: &[u8],
    text: &[u8],
    out: &mut [u8],
) -> Written
    ensures { (result ≡ sealed_of policy.now name.now root.now nonce.now text.now (length out.old)) × (out.new ≡ file_after policy.now name.now root.now nonce.now text.now out.old) }
{
    sealing::seal(policy, name, root, nonce, text, out)
}
