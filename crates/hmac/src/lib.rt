// HMAC (FIPS 198-1) with SHA-256.
#![tactic(auto)]

ghost use Rattle.std.specs.Prelude.{◌≡◌, ◌≤◌, length};
ghost use Rattle.lists.specs.Buffer.{zero_filled};
ghost use Rattle.hmac.specs.Hmac.{key_block, masked, hmac};
ghost use Rattle.hmac.specs.HmacAnswer.{hmac_of};
ghost use Rattle.hmac.specs.Secrets.{F, child_secret, label_key};

use sha256::Digest;

// Bytes of a block, with zeros after them.
fn zero_filled(bytes: &[u8]) -> [u8; 64]
    requires { length bytes.now ≤ 64 }
    ensures { result ≡ zero_filled 64 bytes.now }
{
    let mut block = [0u8; 64];
    block[..bytes.len()].copy_from_slice(bytes);
    block
}

// The key as a block, K0.
#[tactic(auto, unfolding(crate::specs::Hmac::key_block))]
fn key_block(key: &[u8]) -> [u8; 64]
    ensures { result ≡ key_block key.now }
{
    if key.len() <= 64 {
        zero_filled(key)
    } else {
        zero_filled(&sha256::hash_bytes(key))
    }
}

// A block with each byte exclusive-ored with `pad`. It stays a loop: with `block.map(|x| x ^ pad)` an HMAC takes a fifth more time.
#[tactic(auto, unfolding(crate::specs::Hmac::masked))]
fn mask(mut block: [u8; 64], pad: u8) -> [u8; 64]
    ensures { result ≡ masked pad block }
{
    for byte in &mut block {
        *byte ^= pad;
    }
    block
}

// HMAC of a message of any length.
#[tactic(auto, unfolding(crate::specs::Hmac::hmac))]
pub fn hmac_bytes(key: &[u8], message: &[u8]) -> [u8; 32]
    ensures { result ≡ hmac key.now message.now }
{
    let block = key_block(key);
    let inner = sha256::hash_after(mask(block, 0x36), message);
    sha256::hash_after(mask(block, 0x5c), &inner)
}

// F: HMAC of an 8-byte name under a 32-byte secret.
#[tactic(auto, unfolding(crate::specs::Secrets::F))]
fn prf(secret: [u8; 32], name: [u8; 8]) -> [u8; 32]
    ensures { result ≡ F secret name }
{
    hmac_bytes(&secret, &name)
}

// The secret of the child `name`, from its parent's.
#[tactic(auto, unfolding(crate::specs::Secrets::child_secret))]
pub fn child_secret(parent: [u8; 32], name: [u8; 8]) -> [u8; 32]
    ensures { result ≡ child_secret parent name }
{
    prf(parent, name)
}

// The key of the label `name`, from its own secret.
#[tactic(auto, unfolding(crate::specs::Secrets::label_key))]
pub fn label_key(secret: [u8; 32], name: [u8; 8]) -> [u8; 32]
    ensures { result ≡ label_key secret name }
{
    prf(secret, name)
}

// HMAC of a key and a message of at most LIMIT bytes each; longer ones are refused.
#[tactic(auto, unfolding(crate::specs::HmacAnswer::hmac_of))]
pub fn hmac_sha256(key: &[u8], message: &[u8]) -> Digest
    ensures { result ≡ hmac_of key.now message.now }
{
    if sha256::LIMIT < key.len() || sha256::LIMIT < message.len() {
        return sha256::too_long();
    }
    Digest {
        refusal: 0,
        bytes: hmac_bytes(key, message),
    }
}
