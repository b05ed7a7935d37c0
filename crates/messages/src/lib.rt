// What a program tells its user on standard error, in lines that open with the program's name. What the system does with them no contract can
// say; tests/commands, tests/desk and tests/statuses compare what the programs print.
#![tactic(auto)]

use std::io::{Cursor, Error, Write};

// Writes bytes to standard error. What it does not take is lost.
pub fn tell(rt: HostRuntime, bytes: &[u8]) {
    let _ = rt.stderr().write_all(bytes);
}

// Writes the front of a buffer to standard error.
pub fn tell_front(rt: HostRuntime, buffer: &[u8], length: usize) {
    if let Some(front) = buffer.get(..length) {
        tell(rt, front);
    }
}

// Opens a line on standard error.
pub fn open_line(rt: HostRuntime, program: &[u8]) {
    tell(rt, program);
    tell(rt, b": ");
}

// Writes a value between quotes to standard error, control characters as `?`.
pub fn tell_quoted(rt: HostRuntime, value: &[u8]) {
    // Room for every argument, of which 4,096 bytes are read at the most.
    let mut shown = io::buffer();
    let written = shown::show(value, &mut shown);
    tell(rt, b"'");
    tell_front(rt, &shown, written.length);
    tell(rt, b"'");
}

// Tells a line.
pub fn tell_line(rt: HostRuntime, program: &[u8], text: &[u8]) {
    open_line(rt, program);
    tell(rt, text);
    tell(rt, b"\n");
}

// Ends a line by how to learn the verbs.
fn tell_help(rt: HostRuntime, program: &[u8]) {
    tell(rt, b"; '");
    tell(rt, program);
    tell(rt, b" --help' lists the verbs\n");
}

// Tells that no verb is given.
pub fn no_verb(rt: HostRuntime, program: &[u8]) {
    open_line(rt, program);
    tell(rt, b"no verb is given");
    tell_help(rt, program);
}

// Tells that a word is not a verb.
pub fn not_a_verb(rt: HostRuntime, program: &[u8], word: &[u8]) {
    open_line(rt, program);
    tell_quoted(rt, word);
    tell(rt, b" is not a verb");
    tell_help(rt, program);
}

// Ends a line by how to call a verb.
pub fn tell_synopsis(rt: HostRuntime, synopsis: &[u8]) {
    tell(rt, b"; call it as: ");
    tell(rt, synopsis);
    tell(rt, b"\n");
}

// Tells a line with a value in it.
pub fn tell_value(rt: HostRuntime, program: &[u8], before: &[u8], value: &[u8], after: &[u8]) {
    open_line(rt, program);
    tell(rt, before);
    tell_quoted(rt, value);
    tell(rt, after);
    tell(rt, b"\n");
}

// How many bytes of an error's text are its reason: those before the number in parentheses that std puts after the system's own reasons.
fn reason_length(text: &[u8], end: usize) -> usize {
    text.iter()
        .skip(1)
        .position(|byte| *byte == b'(')
        .unwrap_or(end)
}

// Ends a line by the reason of an error, in the system's words.
fn tell_reason(rt: HostRuntime, error: Error) {
    // Room for every text of an error, of which 256 bytes are the reason at the most.
    let mut text = [0u8; 512];
    let mut line = Cursor::new(text.as_mut_slice());
    let _ = write!(line, "{error}");
    let end = line.position() as usize;
    tell(rt, b": ");
    tell_front(rt, &text, reason_length(&text, end));
    tell(rt, b"\n");
}

// Tells why the system could not read or write a file.
pub fn file_failed(rt: HostRuntime, program: &[u8], path: &[u8], error: Error) {
    open_line(rt, program);
    tell_quoted(rt, path);
    tell_reason(rt, error);
}

// Tells why the system failed at something else.
pub fn failed(rt: HostRuntime, program: &[u8], what: &[u8], error: Error) {
    open_line(rt, program);
    tell(rt, what);
    tell_reason(rt, error);
}
