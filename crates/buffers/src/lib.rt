// Bytes written into a lent buffer, and bytes handed out into one that may have no room for them.
#![tactic(auto)]

ghost use Rattle.std.specs.Prelude.{◌≡◌, ◌+◌, ◌≤◌, length};
ghost use Rattle.buffers.specs.Handed.{wrote, refused_written, handed, handed_into};
ghost use Rattle.buffers.specs.Put.{Put};

// How many bytes were written; 0 with a refusal. `zeros` is always 0: a caller in C gets no byte that no contract speaks of.
#[repr(C)]
#[derive(Clone, Copy)]
pub struct Written {
    pub refusal: u8,
    pub zeros: [u8; 7],
    pub length: usize,
}

// The answer with a refusal: nothing was written.
pub fn refuse(number: u8) -> Written
    ensures { result ≡ refused_written number }
{
    Written {
        refusal: number,
        zeros: [0u8; 7],
        length: 0,
    }
}

// The answer with so many bytes written.
pub fn wrote(size: usize) -> Written
    ensures { result ≡ wrote size }
{
    Written {
        refusal: 0,
        zeros: [0u8; 7],
        length: size,
    }
}

// Writes bytes from `at` on, and answers the place after them.
pub fn put_bytes(out: &mut [u8], at: usize, bytes: &[u8]) -> usize
    requires { at + length bytes.now ≤ length out.old }
    ensures { Put out.old out.new at bytes.now result }
{
    let end = at + bytes.len();
    out[at..end].copy_from_slice(bytes);
    end
}

// Writes bytes from the buffer's start on. A buffer that has no room for them stays as it was.
pub fn hand_out(bytes: &[u8], out: &mut [u8]) -> Written
    ensures { (result ≡ handed bytes.now (length out.old)) × (out.new ≡ handed_into bytes.now out.old) }
{
    if out.len() < bytes.len() {
        return refuse(16);
    }
    put_bytes(out, 0, bytes);
    wrote(bytes.len())
}
