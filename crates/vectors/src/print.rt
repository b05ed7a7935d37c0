// What lines are made of. A line that standard output does not take is dropped.
use crate::input;
use std::io::Write;

// The case's name.
pub(crate) fn name(rt: HostRuntime) {
    let mut buffer = input::letters();
    let length = input::file(rt, &mut buffer);
    let _ = rt.stdout().write_all(&buffer[..length]);
    let _ = print!(rt; ": ");
}

// Whether an operation accepted what it was given; a refusal is printed, as document 01 prints one.
pub(crate) fn accepted(rt: HostRuntime, refusal: u8) -> bool {
    if refusal != 0 {
        let _ = print!(rt; "REFUSED {refusal}");
    }
    refusal == 0
}

// The first `count` bytes in hexadecimal.
pub(crate) fn hexadecimal(rt: HostRuntime, bytes: &[u8], count: usize) {
    for byte in bytes.iter().take(count) {
        let _ = print!(rt; "{byte:02x}");
    }
}
