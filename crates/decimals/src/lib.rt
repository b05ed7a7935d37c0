// Numbers in decimal, lines of a word and a number, and the line of a refusal.
#![tactic(auto)]

ghost use Rattle.std.specs.Prelude.{◌≡◌, ◌+◌, ◌≤◌, ◌<◌, ◌++◌, length};
ghost use Rattle.buffers.specs.Handed.{handed, handed_into};
ghost use Rattle.buffers.specs.Put.{Put};
ghost use Rattle.decimals.specs.Decimal.{decimal};
ghost use Rattle.decimals.specs.Decimal.{capped as cappedAt};
ghost use Rattle.decimals.specs.Worded.{space, worded, refused_text};

use buffers::Written;

// The number, or 65,535 if that is less.
#[tactic(auto, unfolding(crate::specs::Decimal::capped))]
pub fn capped(x: usize) -> u32
    ensures { (result ≡ cappedAt x) × (result < 65536) }
{
    x.min(65535) as u32
}

// Writes a number in decimal.
pub fn put_decimal(out: &mut [u8], at: usize, x: u32) -> usize
    requires { at + length (decimal x) ≤ length out.old }
    ensures { Put out.old out.new at (decimal x) result }
{
    let mut digits = [0u8; 10];
    let mut i = 9;
    let mut rest = x;
    // A `while`: the number that is left says when to stop, and a `for` over the places would need a `break`.
    while 10 <= rest {
        digits[i] = b'0' + (rest % 10) as u8;
        rest /= 10;
        i -= 1;
    }
    digits[i] = b'0' + rest as u8;
    buffers::put_bytes(out, at, &digits[i..])
}

// Writes a space and a number.
pub fn put_number(out: &mut [u8], at: usize, x: u32) -> usize
    requires { at + length (space ++ decimal x) ≤ length out.old }
    ensures { Put out.old out.new at (space ++ decimal x) result }
{
    let behind = buffers::put_bytes(out, at, b" ");
    put_decimal(out, behind, x)
}

// Writes a line of a word and a number.
pub fn put_worded(out: &mut [u8], at: usize, word: &[u8], x: u32) -> usize
    requires { at + length (worded word.now x) ≤ length out.old }
    ensures { Put out.old out.new at (worded word.now x) result }
{
    let behind = buffers::put_bytes(out, at, word);
    let end = put_number(out, behind, x);
    buffers::put_bytes(out, end, b"\n")
}

// Writes the line that the programs print for what is refused under a number.
pub fn refused_text(number: u8, out: &mut [u8]) -> Written
    ensures { (result ≡ handed (refused_text number) (length out.old)) × (out.new ≡ handed_into (refused_text number) out.old) }
{
    let mut text = [0u8; 32];
    let length = put_worded(&mut text, 0, b"REFUSED", u32::from(number));
    buffers::hand_out(&text[..length], out)
}
