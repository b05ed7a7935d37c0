// Keys, fingerprints and the lengths of new files as the verbs print them, as bytes in a buffer.
#![tactic(auto)]

ghost use Rattle.std.specs.Prelude.{◌+◌, ◌*◌, ◌≤◌, ◌<◌, ◌++◌, length};
ghost use Rattle.buffers.specs.Put.{Put};
ghost use Rattle.decimals.specs.Decimal.{capped};
ghost use Rattle.decimals.specs.Worded.{worded};
ghost use Rattle.lines.specs.Lines.{hex_line, fingerprint_line, option_line, key_text, issued_text, sealed_text, opened_text};

// Writes bytes as a line of hexadecimal digits.
pub fn put_hex(out: &mut [u8], at: usize, bytes: &[u8]) -> usize
    requires { (length bytes.now ≤ 32) × (at + 2 * length bytes.now < length out.old) }
    ensures { Put out.old out.new at (hex_line bytes.now) result }
{
    let mut digits = [0u8; 64];
    let written = hexadecimal::hex(bytes, &mut digits);
    let length = written.length;
    let end = buffers::put_bytes(out, at, &digits[..length]);
    buffers::put_bytes(out, end, b"\n")
}

// Writes the line of a root secret's fingerprint.
pub fn put_fingerprint(out: &mut [u8], at: usize, print: [u8; 8]) -> usize
    requires { at + 32 ≤ length out.old }
    ensures { Put out.old out.new at (fingerprint_line print) result }
{
    let next = buffers::put_bytes(out, at, b"FINGERPRINT ");
    put_hex(out, next, &print)
}

// Writes that line if it is asked for. `option` stands beside the fingerprint, and no Option: the definition `option_line` takes both.
fn put_option(out: &mut [u8], at: usize, print: [u8; 8], option: bool) -> usize
    requires { at + 32 ≤ length out.old }
    ensures { Put out.old out.new at (option_line print option) result }
{
    if option {
        put_fingerprint(out, at, print)
    } else {
        at
    }
}

// Writes what `key` prints.
pub fn put_key(out: &mut [u8], key: [u8; 32], print: [u8; 8], option: bool) -> usize
    requires { 128 ≤ length out.old }
    ensures { Put out.old out.new 0 (key_text key print option) result }
{
    let end = put_hex(out, 0, &key);
    put_option(out, end, print, option)
}

// Writes a word and the length of a new file, then that line if it is asked for.
fn put_made(out: &mut [u8], word: &[u8], size: usize, print: [u8; 8], option: bool) -> usize
    requires { (length word.now ≤ 8) × (128 ≤ length out.old) }
    ensures { Put out.old out.new 0 (worded word.now (capped size) ++ option_line print option) result }
{
    let end = decimals::put_worded(out, 0, word, decimals::capped(size));
    put_option(out, end, print, option)
}

// Writes what `issue` prints.
#[tactic(auto, unfolding(decimals::specs::Text::bytes_of, crate::specs::Lines::issued_text))]
pub fn put_issued(out: &mut [u8], size: usize, print: [u8; 8], option: bool) -> usize
    requires { 128 ≤ length out.old }
    ensures { Put out.old out.new 0 (issued_text size print option) result }
{
    put_made(out, b"ISSUED", size, print, option)
}

// Writes what `seal` prints.
#[tactic(auto, unfolding(decimals::specs::Text::bytes_of, crate::specs::Lines::sealed_text))]
pub fn put_sealed(out: &mut [u8], size: usize, print: [u8; 8], option: bool) -> usize
    requires { 128 ≤ length out.old }
    ensures { Put out.old out.new 0 (sealed_text size print option) result }
{
    put_made(out, b"SEALED", size, print, option)
}

// Writes what `open` prints.
pub fn put_opened(out: &mut [u8], size: usize) -> usize
    requires { 128 ≤ length out.old }
    ensures { Put out.old out.new 0 (opened_text size) result }
{
    decimals::put_worded(out, 0, b"OPENED", decimals::capped(size))
}
