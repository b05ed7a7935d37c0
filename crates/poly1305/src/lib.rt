// Poly1305 (RFC 8439, section 2.5): the tag of a message under a one-time key of 32 bytes.
#![tactic(auto)]

ghost use Rattle.std.specs.Prelude.{◌≡◌, ◌+◌, ◌/◌, ◌%◌, ◌≤◌, ◌<◌, length, take, drop, zip};
ghost use Rattle.std.specs.List.{fold};
ghost use Rattle.format.specs.Bytes.{same_bytes};
ghost use Rattle.little_endian.specs.LittleEndian.{little_endian, little_bytes};
ghost use Rattle.poly1305_limbs.specs.Prime.{prime};
ghost use Rattle.poly1305_limbs.specs.Limbs.{value, multiplier_value, words_value, Narrow, Reduced, Clamped};
ghost use Rattle.poly1305.specs.Poly1305.{multiplier, addend, absorbed, blocks, tagged, poly1305, gather};

use poly1305_limbs::{Accumulator, Multiplier, Words};

// The number of 16 bytes from a place on.
fn words_at(bytes: &[u8], at: usize) -> Words
    requires { at + 16 ≤ length bytes.now }
    ensures { Narrow result × (words_value result ≡ little_endian (take 16 (drop at bytes.now))) }
{
    Words {
        w0: u64::from(little_endian::word_at(bytes, at)),
        w1: u64::from(little_endian::word_at(bytes, at + 4)),
        w2: u64::from(little_endian::word_at(bytes, at + 8)),
        w3: u64::from(little_endian::word_at(bytes, at + 12)),
    }
}

// The 16 bytes of a number.
fn bytes_of(n: Words) -> [u8; 16]
    requires { Narrow n }
    ensures { result ≡ little_bytes 16 (words_value n) }
{
    let mut bytes = [0u8; 16];
    little_endian::put_word(&mut bytes, 0, n.w0 as u32);
    little_endian::put_word(&mut bytes, 4, n.w1 as u32);
    little_endian::put_word(&mut bytes, 8, n.w2 as u32);
    little_endian::put_word(&mut bytes, 12, n.w3 as u32);
    bytes
}

// The multiplier of a key.
pub fn clamped(key: &[u8]) -> Multiplier
    requires { 16 ≤ length key.now }
    ensures { Clamped result × (multiplier_value result ≡ multiplier key.now) }
{
    let n = words_at(key, 0);
    Multiplier {
        r0: n.w0 & 0x0fff_ffff,
        r1: n.w1 & 0x0fff_fffc,
        r2: n.w2 & 0x0fff_fffc,
        r3: n.w3 & 0x0fff_fffc,
    }
}

// The accumulator at the start.
pub fn nothing() -> Accumulator
    ensures { Reduced result × (value result % prime ≡ 0) }
{
    Accumulator {
        h0: 0,
        h1: 0,
        h2: 0,
        h3: 0,
        h4: 0,
    }
}

// The accumulator after the whole blocks of a message.
pub fn absorb(h: Accumulator, r: Multiplier, message: &[u8]) -> Accumulator
    requires { Reduced h × Clamped r }
    ensures { Reduced result × (value result % prime ≡ absorbed (multiplier_value r) (value h % prime) message.now (length message.now / 16)) }
{
    let (blocks, _) = message.as_chunks::<16>();
    let mut a = h;
    for block in blocks {
        a = poly1305_limbs::step(a, r, words_at(block, 0), 1);
    }
    a
}

// The accumulator after the last block of a message, the one that is not whole, if there is one.
fn absorb_rest(h: Accumulator, r: Multiplier, rest: &[u8]) -> Accumulator
    requires { Reduced h × Clamped r × (length rest.now < 16) }
    ensures { Reduced result × (value result % prime ≡ absorbed (multiplier_value r) (value h % prime) rest.now (blocks rest.now)) }
{
    let n = rest.len();
    if n == 0 {
        return h;
    }
    let mut block = [0u8; 16];
    block[..n].copy_from_slice(rest);
    block[n] = 1;
    poly1305_limbs::step(h, r, words_at(&block, 0), 0)
}

// The tag, from the accumulator after the last block.
pub fn finish(h: Accumulator, key: &[u8]) -> [u8; 16]
    requires { Reduced h × (length key.now ≡ 32) }
    ensures { result ≡ tagged (value h % prime) (addend key.now) }
{
    bytes_of(poly1305_limbs::finish(h, words_at(key, 16)))
}

// The tag of a message of any length.
pub fn poly1305(key: [u8; 32], message: &[u8]) -> [u8; 16]
    ensures { result ≡ poly1305 key message.now }
{
    let r = clamped(&key);
    let whole = absorb(nothing(), r, message);
    let (_, rest) = message.as_chunks::<16>();
    let h = absorb_rest(whole, r, rest);
    finish(h, &key)
}

// The bits in which two tags differ, all gathered in one byte.
fn differences(a: &[u8], b: &[u8]) -> u8
    ensures { result ≡ fold gather 0 (zip a.now b.now) }
{
    a.iter().zip(b).fold(0, |d, (x, y)| d | (x ^ y))
}

// Whether two tags are the same. It looks at all bytes, whatever they are.
pub fn same_tag(a: [u8; 16], b: &[u8]) -> bool
    requires { length b.now ≡ 16 }
    ensures { result ≡ same_bytes a b.now }
{
    differences(&a, b) == 0
}
