// ChaCha20 encryption (RFC 8439, section 2.4), in place.
#![tactic(auto)]

ghost use Rattle.std.specs.Prelude.{◌≡◌, ◌+◌, ◌/◌, ◌^◌, ◌≤◌, length};
ghost use Rattle.chacha20.specs.Encryption.{xored, encrypted};

// A part of the text, of at most 64 bytes, with the key stream's block for it.
fn xor_into(part: &mut [u8], stream: [u8; 64])
    requires { length part.old ≤ 64 }
    ensures { part.new ≡ xored part.old stream }
{
    for (i, byte) in part.iter_mut().enumerate() {
        *byte ^= stream[i];
    }
}

// Encrypts the text, or decrypts it.
pub fn encrypt(key: [u8; 32], counter: u32, nonce: [u8; 12], text: &mut [u8])
    requires { counter + (length text.old + 63) / 64 ≤ 2 ^ 32 }
    ensures { text.new ≡ encrypted key counter nonce text.old }
{
    for j in 0..text.len().div_ceil(64) {
        let at = 64 * j;
        let end = (at + 64).min(text.len());
        let stream = chacha20_block::block(key, counter + j as u32, nonce);
        xor_into(&mut text[at..end], stream);
    }
}
