// ChaCha20, Poly1305 and the two together (RFC 8439).
use crate::print;

// The key or the nonce at the start of a file; zeros if the file is shorter.
fn leading<const N: usize>(file: &[u8]) -> [u8; N] {
    file.first_chunk().copied().unwrap_or([0; N])
}

// The first bytes of a block of the key stream.
pub(crate) fn block(rt: HostRuntime, key: &[u8], counter: u16, nonce: &[u8], shown: usize) {
    let bytes = chacha20_block::block(leading(key), u32::from(counter), leading(nonce));
    print::hexadecimal(rt, &bytes, shown);
}

// A text that is encrypted in place.
pub(crate) fn encrypted(rt: HostRuntime, key: &[u8], counter: u16, nonce: &[u8], text: &mut [u8]) {
    if text.len() < 65536 {
        chacha20::encrypt(leading(key), u32::from(counter), leading(nonce), text);
        print::hexadecimal(rt, text, text.len());
    }
}

pub(crate) fn tag(rt: HostRuntime, key: &[u8], message: &[u8]) {
    print::hexadecimal(rt, &poly1305::poly1305(leading(key), message), 16);
}

// A text that is encrypted in place, and after it the tag over it and the additional data.
pub(crate) fn sealed(rt: HostRuntime, key: &[u8], nonce: &[u8], aad: &[u8], text: &mut [u8]) {
    if text.len() < 65536 {
        let k = leading(key);
        let n = leading(nonce);
        aead::cipher(k, n, text);
        print::hexadecimal(rt, text, text.len());
        print::hexadecimal(rt, &aead::tag(k, n, aad, text), 16);
    }
}
