// The AEAD construction ChaCha20-Poly1305 (RFC 8439, sections 2.6 and 2.8): ciphertext and tag.
#![tactic(auto)]

ghost use Rattle.std.specs.Prelude.{◌≡◌, ◌++◌, ◌-◌, ◌*◌, ◌/◌, ◌%◌, ◌^◌, ◌≤◌, length};
ghost use Rattle.little_endian.specs.LittleEndian.{little_bytes};
ghost use Rattle.poly1305_limbs.specs.Prime.{prime};
ghost use Rattle.poly1305_limbs.specs.Limbs.{value, multiplier_value, Reduced, Clamped};
ghost use Rattle.poly1305.specs.Poly1305.{absorbed, blocks};
ghost use Rattle.aead.specs.Aead.{one_time_key, padded, mac_data, ciphered, tag_of};

use poly1305_limbs::{Accumulator, Multiplier};

// The one-time key of Poly1305.
fn one_time_key(key: [u8; 32], nonce: [u8; 12]) -> [u8; 32]
    ensures { result ≡ one_time_key key nonce }
{
    format::read_secret(&chacha20_block::block(key, 0, nonce), 0)
}

// The accumulator after bytes that are padded to whole blocks. They are not copied, but for the last few.
fn absorb_padded(h: Accumulator, r: Multiplier, message: &[u8]) -> Accumulator
    requires { Reduced h × Clamped r }
    ensures { Reduced result × (value result % prime ≡ absorbed (multiplier_value r) (value h % prime) (padded message.now) (length (padded message.now) / 16)) }
{
    let whole = poly1305::absorb(h, r, message);
    let (_, rest) = message.as_chunks::<16>();
    if rest.is_empty() {
        return whole;
    }
    let mut last = [0u8; 16];
    last[..rest.len()].copy_from_slice(rest);
    poly1305::absorb(whole, r, &last)
}

// The lengths of additional data and ciphertext.
fn length_block(aad: usize, ciphertext: usize) -> [u8; 16]
    ensures { result ≡ little_bytes 8 aad ++ little_bytes 8 ciphertext }
{
    let mut out = [0u8; 16];
    out[..8].copy_from_slice(&(aad as u64).to_le_bytes());
    out[8..].copy_from_slice(&(ciphertext as u64).to_le_bytes());
    out
}

// The accumulator after all that the tag is made of.
fn absorb_data(r: Multiplier, aad: &[u8], ciphertext: &[u8]) -> Accumulator
    requires { Clamped r }
    ensures { Reduced result × (value result % prime ≡ absorbed (multiplier_value r) 0 (mac_data aad.now ciphertext.now) (blocks (mac_data aad.now ciphertext.now))) }
{
    let first = absorb_padded(poly1305::nothing(), r, aad);
    let second = absorb_padded(first, r, ciphertext);
    let lengths = length_block(aad.len(), ciphertext.len());
    poly1305::absorb(second, r, &lengths)
}

// The tag of a ciphertext and its additional data.
pub fn tag(key: [u8; 32], nonce: [u8; 12], aad: &[u8], ciphertext: &[u8]) -> [u8; 16]
    ensures { result ≡ tag_of key nonce aad.now ciphertext.now }
{
    let once = one_time_key(key, nonce);
    let total = absorb_data(poly1305::clamped(&once), aad, ciphertext);
    poly1305::finish(total, &once)
}

// Encrypts a text in place, or decrypts it: the counter begins at 1.
pub fn cipher(key: [u8; 32], nonce: [u8; 12], text: &mut [u8])
    requires { length text.old ≤ 64 * (2 ^ 32 - 1) }
    ensures { text.new ≡ ciphered key nonce text.old }
{
    chacha20::encrypt(key, 1, nonce, text);
}
