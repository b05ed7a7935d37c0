// SHA-256 (FIPS 180-4) of a message of bytes.
#![tactic(auto)]

ghost use Rattle.std.specs.Prelude.{◌≡◌, ◌++◌, ◌+◌, ◌*◌, ◌/◌, ◌≤◌, length};
ghost use Rattle.padding.specs.Padding.{padding};
ghost use Rattle.sha256.specs.Sha256.{chained, joined, digest_from, hash};
ghost use Rattle.sha256.specs.Digest.{too_long, sha256_of};

// How many bytes a key or a message may have.
pub const LIMIT: usize = 65_536;

// A digest, or a refusal with 32 zero bytes.
#[repr(C)]
#[derive(Clone, Copy)]
pub struct Digest {
    pub refusal: u8,
    pub bytes: [u8; 32],
}

// The answer to a key or a message that is too long.
pub fn too_long() -> Digest
    ensures { result ≡ too_long }
{
    Digest {
        refusal: 21,
        bytes: [0u8; 32],
    }
}

// The hash value after the whole blocks of a message.
#[tactic(auto, using(crate::proofs::Chain::chained_turn), unfolding(crate::specs::Sha256::chained))]
fn absorb(h: &mut [u32; 8], message: &[u8])
    ensures { h.new ≡ chained h.old message.now (length message.now / 64) }
{
    let (blocks, _) = message.as_chunks::<64>();
    for block in blocks {
        compression::compress(h, block);
    }
}

// The bytes of a hash value.
fn joined_bytes(h: [u32; 8]) -> [u8; 32]
    ensures { result ≡ joined h 8 }
{
    let mut out = [0u8; 32];
    for (i, word) in h.iter().enumerate() {
        padding::put_word(&mut out, 4 * i, *word);
    }
    out
}

// The digest of a message whose first `blocks` blocks have led to the hash value `from`.
fn finish(from: [u32; 8], blocks: usize, message: &[u8]) -> [u8; 32]
    requires { blocks ≤ 1 }
    ensures { result ≡ digest_from from (message.now ++ padding (64 * blocks + length message.now)) }
{
    let mut h = from;
    absorb(&mut h, message);
    let (_, rest) = message.as_chunks::<64>();
    let last = padding::last_blocks(rest, 64 * blocks + message.len());
    let end = padding::padded_end(rest.len());
    absorb(&mut h, &last[..end]);
    joined_bytes(h)
}

// The hash of a message of any length.
#[tactic(auto, unfolding(crate::specs::Sha256::hash))]
pub fn hash_bytes(message: &[u8]) -> [u8; 32]
    ensures { result ≡ hash message.now }
{
    finish(sha256_constants::initial_value(), 0, message)
}

// The hash of a block and a message after it, which is not copied.
#[tactic(auto, using(crate::proofs::Chain::hash_after_block))]
pub fn hash_after(first: [u8; 64], message: &[u8]) -> [u8; 32]
    ensures { result ≡ hash (first ++ message.now) }
{
    let mut h = sha256_constants::initial_value();
    compression::compress(&mut h, &first);
    finish(h, 1, message)
}

// SHA-256 of a message of at most LIMIT bytes; a longer one is refused.
#[tactic(auto, unfolding(crate::specs::Digest::sha256_of))]
pub fn sha256(message: &[u8]) -> Digest
    ensures { result ≡ sha256_of message.now }
{
    if LIMIT < message.len() {
        return too_long();
    }
    Digest {
        refusal: 0,
        bytes: hash_bytes(message),
    }
}
