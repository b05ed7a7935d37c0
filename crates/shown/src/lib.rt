// A value that was typed as a message shows it, without control characters.
#![tactic(auto)]

ghost use Rattle.std.specs.Prelude.{◌≡◌, length};
ghost use Rattle.buffers.specs.Handed.{handed, handed_into};
ghost use Rattle.shown.specs.Shown.{is_control, shown_byte, shown};

use buffers::Written;

// Whether a byte is a control character.
pub fn is_control(byte: u8) -> bool
    ensures { result ≡ is_control byte }
{
    byte.is_ascii_control()
}

// A byte as a message shows it: a control character as `?`.
fn shown_byte(byte: u8) -> u8
    ensures { result ≡ shown_byte byte }
{
    if is_control(byte) { b'?' } else { byte }
}

// Hands out a value that was typed as a message shows it.
pub fn show(value: &[u8], out: &mut [u8]) -> Written
    ensures { (result ≡ handed (shown value.now) (length out.old)) × (out.new ≡ handed_into (shown value.now) out.old) }
{
    if out.len() < value.len() {
        return buffers::refuse(16);
    }
    for (i, byte) in value.iter().enumerate() {
        out[i] = shown_byte(*byte);
    }
    buffers::wrote(value.len())
}
