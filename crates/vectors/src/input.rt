// Numbers and files of a case, from standard input. A number that is cut off there counts as zeros, a file as a's.
ghost use Rattle.std.specs.Prelude.{◌≡◌, ◌≤◌, length};

use std::io::Read;

// Two bytes, the most significant first.
pub(crate) fn number(rt: HostRuntime) -> u16 {
    let mut bytes = [0u8; 2];
    let _ = rt.stdin().read_exact(&mut bytes);
    u16::from_be_bytes(bytes)
}

// Room for the longest file, one byte above the limit of document 01.
pub(crate) fn letters() -> [u8; 65537]
    ensures { 65537 ≡ length result }
{
    [b'a'; 65537]
}

// Puts a file at the start of a buffer of a's, and answers its length. Two numbers come before it: how many bytes are given, and how many
// a's follow them.
pub(crate) fn file(rt: HostRuntime, buffer: &mut [u8]) -> usize
    ensures { result ≤ length buffer.new }
{
    let given = usize::from(number(rt));
    let more = usize::from(number(rt));
    let start = given.min(buffer.len());
    let _ = rt.stdin().read_exact(&mut buffer[..start]);
    (given + more).min(buffer.len())
}
