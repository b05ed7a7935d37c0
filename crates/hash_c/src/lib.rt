// The hash for C callers, each function by the equation of the operation itself. A slice is passed as a pointer and a length.
#![tactic(auto)]

ghost use Rattle.std.specs.Prelude.{◌≡◌};
ghost use Rattle.sha256.specs.Digest.{sha256_of};
ghost use Rattle.hmac.specs.HmacAnswer.{hmac_of};

use sha256::Digest;

#[unsafe(no_mangle)]
pub extern "C" fn yendlowa_sha256(message: &[u8]) -> Digest
    ensures { result ≡ sha256_of message.now }
{
    sha256::sha256(message)
}

#[unsafe(no_mangle)]
pub extern "C" fn yendlowa_hmac_sha256(key: &[u8], message: &[u8]) -> Digest
    ensures { result ≡ hmac_of key.now message.now }
{
    hmac::hmac_sha256(key, message)
}
