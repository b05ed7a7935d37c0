// SHA-256 and HMAC: as many bytes of the digest as the source of the vector gives.
use crate::print;
use sha256::Digest;

fn tell(rt: HostRuntime, digest: &Digest, shown: usize) {
    if print::accepted(rt, digest.refusal) {
        print::hexadecimal(rt, &digest.bytes, shown);
    }
}

pub(crate) fn digest(rt: HostRuntime, message: &[u8], shown: usize) {
    tell(rt, &sha256::sha256(message), shown);
}

pub(crate) fn mac(rt: HostRuntime, key: &[u8], message: &[u8], shown: usize) {
    tell(rt, &hmac::hmac_sha256(key, message), shown);
}
