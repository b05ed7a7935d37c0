// Words of 32 bits read from bytes and written as bytes, the least significant byte first.
#![tactic(auto)]

ghost use Rattle.std.specs.Prelude.{◌≡◌, ◌+◌, ◌≤◌, length, take, drop};
ghost use Rattle.lists.specs.Buffer.{pasted};
ghost use Rattle.little_endian.specs.LittleEndian.{little_endian, little_bytes};

// The word that stands at a place.
pub fn word_at(bytes: &[u8], at: usize) -> u32
    requires { at + 4 ≤ length bytes.now }
    ensures { result ≡ little_endian (take 4 (drop at bytes.now)) }
{
    u32::from_le_bytes([bytes[at], bytes[at + 1], bytes[at + 2], bytes[at + 3]])
}

// Writes the four bytes of a word from a place on.
pub fn put_word(buffer: &mut [u8], at: usize, x: u32)
    requires { at + 4 ≤ length buffer.old }
    ensures { buffer.new ≡ pasted buffer.old at (little_bytes 4 x) }
{
    buffer[at..at + 4].copy_from_slice(&x.to_le_bytes());
}
