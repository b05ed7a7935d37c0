// What the issuer's and the desk's libraries have in common for C callers: refusals in words, names padded. Each function by the equation of the
// operation itself. A slice is passed as a pointer and a length.
#![tactic(auto)]

ghost use Rattle.std.specs.Prelude.{◌≡◌, length};
ghost use Rattle.buffers.specs.Handed.{handed, handed_into};
ghost use Rattle.command.specs.Typed.{padded_name};
ghost use Rattle.refusals.specs.Refusals.{text_of};

use buffers::Written;
use refusals::Text;

#[unsafe(no_mangle)]
pub extern "C" fn yendlowa_refusal_text(number: u8) -> Text
    ensures { result.text ≡ text_of number }
{
    refusals::refusal_text(number)
}

#[unsafe(no_mangle)]
pub extern "C" fn yendlowa_pad_name(typed: &[u8], out: &mut [u8]) -> Written
    ensures { (result ≡ handed (padded_name typed.now) (length out.old)) × (out.new ≡ handed_into (padded_name typed.now) out.old) }
{
    command::pad_name(typed, out)
}
