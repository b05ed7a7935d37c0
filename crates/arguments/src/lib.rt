// A program's arguments: put into a buffer, compared with a word, quoted where they are refused.
#![tactic(auto)]

ghost use Rattle.std.specs.Prelude.{true, ◌↔◌, ◌≡◌};
ghost use Rattle.format.specs.Bytes.{same_bytes};
ghost use Rattle.io.specs.Counts.{IsPrefixLen};
ghost use Rattle.arguments.specs.Asked.{AsksHelp};

use std::env::{Env, FillError};
use std::io::{Error, ErrorKind};

// Whether there is an argument i; the program's name is argument 0.
fn is_there(rt: HostRuntime, i: usize) -> bool {
    let mut first = [0u8; 1];
    !matches!(rt.arg(i, &mut first), Err(FillError::NotPresent))
}

// The number of arguments, with the program's name.
pub fn count(rt: HostRuntime) -> usize {
    (0..usize::MAX)
        .find(|i| !is_there(rt, *i))
        .unwrap_or(usize::MAX)
}

// Puts argument i at the start of the buffer, as much of it as the buffer holds, and answers how many bytes that is.
pub fn argument(rt: HostRuntime, i: usize, buffer: &mut [u8]) -> usize
    ensures { IsPrefixLen result buffer.new }
{
    match rt.arg(i, buffer) {
        Ok(length) => length,
        Err(FillError::TooLong) => buffer.len(),
        Err(FillError::NotPresent) => 0,
    }
}

// A path as the system's calls take it here. One that is not UTF-8 names no file.
pub fn path(bytes: &[u8]) -> Result<&str, Error> {
    std::str::from_utf8(bytes).map_err(|_| Error::new(
        ErrorKind::InvalidFilename,
        "a name that is not UTF-8",
    ))
}

// Whether argument i is this word.
pub fn is_argument(rt: HostRuntime, i: usize, word: &[u8]) -> bool {
    let mut typed = io::buffer();
    let length = argument(rt, i, &mut typed);
    check::same(&typed[..length], word)
}

// Whether a word is another.
pub fn is_word(typed: &[u8], word: &[u8]) -> bool
    ensures { result ≡ same_bytes typed.now word.now }
{
    check::same(typed, word)
}

// Whether the word that was typed asks how the program is called.
pub fn asks_help(typed: &[u8]) -> bool
    ensures { (result ≡ true) ↔ AsksHelp typed.now }
{
    matches!(typed, b"help" | b"--help" | b"-h")
}

// Whether argument i looks like an option: a dash, then at least one byte, the first of which is no digit.
pub fn is_option(rt: HostRuntime, i: usize) -> bool {
    let mut typed = io::buffer();
    let length = argument(rt, i, &mut typed);
    matches!(&typed[..length], [b'-', second, ..] if !second.is_ascii_digit())
}

// The first argument from i on that looks like an option.
pub fn find_option(rt: HostRuntime, i: usize) -> Option<usize> {
    (i..count(rt)).find(|next| is_option(rt, *next))
}

// Puts the label name that argument i says at the start of the buffer, padded as the operations take it.
pub fn name_argument(rt: HostRuntime, i: usize, name: &mut [u8]) -> usize
    ensures { IsPrefixLen result name.new }
{
    let mut typed = io::buffer();
    let length = argument(rt, i, &mut typed);
    let padded = command::pad_name(&typed[..length], name);
    padded.length
}

// Quotes argument i, or says that it is standard input where there is none.
fn tell_typed(rt: HostRuntime, i: usize) {
    if count(rt) <= i {
        messages::tell(rt, b"standard input");
        return;
    }
    let mut typed = io::buffer();
    let length = argument(rt, i, &mut typed);
    messages::tell_quoted(rt, &typed[..length]);
}

// Opens a line about argument i.
pub fn open_about(rt: HostRuntime, program: &[u8], i: usize) {
    messages::open_line(rt, program);
    tell_typed(rt, i);
    messages::tell(rt, b": ");
}

// Tells why argument i is refused.
pub fn tell_argument(rt: HostRuntime, program: &[u8], i: usize, number: u8) {
    open_about(rt, program, i);
    reasons::tell_words(rt, number);
}
