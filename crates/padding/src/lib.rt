// The padding of a message that SHA-256 hashes (FIPS 180-4, section 5.1.1), and words written as bytes.
#![tactic(auto)]

ghost use Rattle.std.specs.Prelude.{◌≡◌, ◌++◌, ◌+◌, ◌/◌, ◌%◌, ◌^◌, ◌≤◌, ◌<◌, length};
ghost use Rattle.lists.specs.Buffer.{pasted, zero_filled};
ghost use Rattle.padding.specs.Padding.{word_bytes, zero_bytes, padding};

// Writes the four bytes of a word, most significant first.
pub fn put_word(buffer: &mut [u8], at: usize, x: u32)
    requires { at + 4 ≤ length buffer.old }
    ensures { buffer.new ≡ pasted buffer.old at (word_bytes x) }
{
    buffer[at..at + 4].copy_from_slice(&x.to_be_bytes());
}

// Where the padding ends that follows n bytes of a last block.
pub fn padded_end(n: usize) -> usize
    requires { n < 64 }
    ensures { result ≡ n + 9 + zero_bytes n }
{
    if n < 56 { 64 } else { 128 }
}

// The bytes after the last whole block of a message of `total` bytes, and the padding: one block or two.
pub fn last_blocks(rest: &[u8], total: usize) -> [u8; 128]
    requires { length rest.now ≡ total % 64 }
    ensures { result ≡ zero_filled 128 (rest.now ++ padding total) }
{
    let n = rest.len();
    let bits = (total as u64) << 3;
    let end = padded_end(n);
    let mut last = [0u8; 128];
    last[..n].copy_from_slice(rest);
    last[n] = 0x80;
    last[end - 8..end].copy_from_slice(&bits.to_be_bytes());
    last
}
