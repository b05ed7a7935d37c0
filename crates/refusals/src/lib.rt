// What a refusal means, in words.
#![tactic(auto)]

mod words;

ghost use Rattle.std.specs.Prelude.{◌≡◌, ◌+◌, ◌≤◌, length};
ghost use Rattle.buffers.specs.Put.{Put};
ghost use Rattle.refusals.specs.Refusals.{text_of, words_line};

// What a number means, with zeros after it, so null-terminated for callers in C.
#[repr(C)]
#[derive(Clone, Copy)]
pub struct Text {
    pub text: [u8; 80],
}

// Writes the line of a number from `at` on.
pub fn put_line(out: &mut [u8], at: usize, number: u8) -> usize
    requires { at + 80 ≤ length out.old }
    ensures { Put out.old out.new at (words_line number) result }
{
    let end = buffers::put_bytes(out, at, words::meaning(number).as_bytes());
    buffers::put_bytes(out, end, b"\n")
}

// Writes the line of a number alone.
pub fn put_words(out: &mut [u8], number: u8) -> usize
    requires { 128 ≤ length out.old }
    ensures { Put out.old out.new 0 (words_line number) result }
{
    put_line(out, 0, number)
}

// What a number means, as a text of 80 bytes.
pub fn refusal_text(number: u8) -> Text
    ensures { result.text ≡ text_of number }
{
    let words = words::meaning(number).as_bytes();
    let mut text = [0u8; 80];
    text[..words.len()].copy_from_slice(words);
    Text { text }
}
