// Sealed module files opened for C callers, by the equation of the operation itself. A slice is passed as a pointer and a length.
#![tactic(auto)]

ghost use Rattle.std.specs.Prelude.{◌≡◌, length};
ghost use Rattle.open_answers.specs.Open.{opened_of, text_after};

use buffers::Written;

#[unsafe(no_mangle)]
pub extern "C" fn yendlowa_open(envelope: &[u8], sealed: &[u8], out: &mut [u8]) -> Written
    ensures { (result ≡ opened_of envelope.now sealed.now (length out.old)) × (out.new ≡ text_after envelope.now sealed.now out.old) }
{
    opening::open(envelope, sealed, out)
}
