// Sealed module files.
use crate::print;
use buffers::Written;

// How many bytes are written, and the hash of the whole buffer.
pub(crate) fn tell(rt: HostRuntime, w: Written, buffer: &[u8]) {
    if print::accepted(rt, w.refusal) {
        let _ = print!(rt; "{} bytes, ", w.length);
        print::hexadecimal(rt, &sha256::hash_bytes(buffer), 32);
    }
}

// A text sealed for a label. `asked` has the label's name, the root secret and the nonce.
pub(crate) fn sealed(rt: HostRuntime, policy: &[u8], asked: &[u8], text: &[u8], buffer: &mut [u8]) {
    if 40 <= asked.len() {
        let w = sealing::seal(
            policy,
            &asked[..8],
            &asked[8..40],
            &asked[40..],
            text,
            buffer,
        );
        tell(rt, w, buffer);
    }
}

// The text of a sealed file.
pub(crate) fn opened(rt: HostRuntime, envelope: &[u8], file: &[u8], buffer: &mut [u8]) {
    let w = opening::open(envelope, file, buffer);
    tell(rt, w, buffer);
}
