// Sealed module files opened with an envelope.
#![tactic(auto)]

ghost use Rattle.std.specs.Prelude.{◌≡◌, length};
ghost use Rattle.buffers.specs.Handed.{written_unless, buffer_unless};
ghost use Rattle.open_answers.specs.Open.{unread, opened_of, text_after};
ghost use Rattle.sealed_file.specs.Rows.{Sealed};
ghost use Rattle.sealed_file.specs.Sealed.{nonce_in, sealed_refusal, tag_holds, text_in};

use buffers::Written;
use format::SM;

// The number that a file is refused under, 0 when it has the form of a sealed file.
fn form_refusal(file: &[u8]) -> u8
    ensures { result ≡ sealed_refusal file.now }
{
    if file.len() < 38 {
        return 22;
    }
    if 32806 < file.len() {
        return 22;
    }
    if format::marked(file, 0, SM) {
        return 0;
    }
    22
}

// Whether a file has the tag that it has to have under a key.
fn tag_holds(key: [u8; 32], nonce: [u8; 12], file: &[u8]) -> bool
    requires { Sealed file.now × (nonce ≡ nonce_in file.now) }
    ensures { result ≡ tag_holds key file.now }
{
    let end = file.len() - 16;
    let tag = aead::tag(key, nonce, &file[0..10], &file[22..end]);
    poly1305::same_tag(tag, &file[end..])
}

// Opens a file under a key: writes its text from the buffer's start on, or nothing if there is no room or the tag is another.
fn open_under(key: [u8; 32], file: &[u8], out: &mut [u8]) -> Written
    requires { Sealed file.now }
    ensures { (result ≡ written_unless (unread key file.now (length out.old)) (text_in key file.now) (length out.old)) × (out.new ≡ buffer_unless (unread key file.now (length out.old)) (text_in key file.now) out.old) }
{
    let end = file.len() - 16;
    if out.len() < end - 22 {
        return buffers::refuse(16);
    }
    let nonce = sealed_parts::read_nonce(file, 10);
    if tag_holds(key, nonce, file) {
        return Written {
            refusal: 0,
            zeros: [0u8; 7],
            length: sealed_parts::put_ciphered(key, nonce, &file[22..end], out, 0),
        };
    }
    buffers::refuse(23)
}

// Writes the text of a sealed file from the buffer's start on, or nothing if it is refused: no byte of text before its tag is known to be right.
pub fn open(envelope: &[u8], file: &[u8], out: &mut [u8]) -> Written
    ensures { (result ≡ opened_of envelope.now file.now (length out.old)) × (out.new ≡ text_after envelope.now file.now out.old) }
{
    let read = envelope::read_envelope(envelope);
    if read.refusal != 0 {
        return buffers::refuse(read.refusal);
    }
    let form = form_refusal(file);
    if form != 0 {
        return buffers::refuse(form);
    }
    let derived = desk::derive_read(envelope, read, &file[2..10]);
    if derived.refusal != 0 {
        return buffers::refuse(derived.refusal);
    }
    let key = derived.key;
    open_under(key, file, out)
}
