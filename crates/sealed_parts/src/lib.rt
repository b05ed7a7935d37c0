// What sealing and opening share: a nonce read, and a text encrypted or decrypted into a buffer.
#![tactic(auto)]

ghost use Rattle.std.specs.Prelude.{◌≡◌, ◌+◌, ◌≤◌, length};
ghost use Rattle.aead.specs.Aead.{ciphered};
ghost use Rattle.buffers.specs.Put.{Put};
ghost use Rattle.format.specs.Bytes.{bytes_at};

// The nonce that stands in `s` from `at` on.
pub fn read_nonce(s: &[u8], at: usize) -> [u8; 12]
    requires { at + 12 ≤ length s.now }
    ensures { result ≡ bytes_at s.now at 12 }
{
    format::read_bytes(s, at)
}

// Writes a text encrypted, or decrypted, from `at` on, and answers the place after it.
pub fn put_ciphered(key: [u8; 32], nonce: [u8; 12], text: &[u8], out: &mut [u8], at: usize) -> usize
    requires { (at + length text.now ≤ length out.old) × (length text.now ≤ 32768) }
    ensures { Put out.old out.new at (ciphered key nonce text.now) result }
{
    let end = buffers::put_bytes(out, at, text);
    aead::cipher(key, nonce, &mut out[at..end]);
    end
}
