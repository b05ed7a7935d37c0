// What issuer and desk share of the file forms: the definitions of marks, names, secrets and two-byte numbers, and the
// functions that read bytes, marks, secrets and numbers.
#![tactic(auto)]

ghost use Rattle.std.specs.Prelude.{◌≡◌, ◌+◌, ◌≤◌, length};
ghost use Rattle.format.specs.Bytes.{bytes_at, same_bytes, number_at};

// The marks that records and files open with.
pub const LB: [u8; 2] = *b"LB";

pub const OV: [u8; 2] = *b"OV";

pub const TR: [u8; 2] = *b"TR";

pub const EN: [u8; 2] = *b"EN";

pub const KS: [u8; 2] = *b"KS";

pub const KD: [u8; 2] = *b"KD";

pub const SM: [u8; 2] = *b"SM";

pub const JN: [u8; 2] = *b"JN";

pub const MV: [u8; 2] = *b"MV";

pub const HD: [u8; 2] = *b"HD";

pub const RL: [u8; 2] = *b"RL";

pub const WD: [u8; 2] = *b"WD";

// What a byte of a name can be.
#[derive(Clone, Copy)]
pub enum Class {
    Letter,
    Digit,
    Space,
    Refused,
}

// The `N` bytes that stand in `s` from `at` on.
pub fn read_bytes<const N: usize>(s: &[u8], at: usize) -> [u8; N]
    requires { at + N ≤ length s.now }
    ensures { result ≡ bytes_at s.now at N }
{
    *s[at..at + N].first_chunk().unwrap()
}

// Whether a mark stands in `s` from `at` on.
pub fn marked(s: &[u8], at: usize, mark: [u8; 2]) -> bool
    requires { at + 2 ≤ length s.now }
    ensures { result ≡ same_bytes (bytes_at s.now at 2) mark }
{
    read_bytes(s, at) == mark
}

// The secret that stands in `s` from `at` on. Like `read_name` and `read_nonce` it gives `read_bytes` a name, so that a call says what it reads.
pub fn read_secret(s: &[u8], at: usize) -> [u8; 32]
    requires { at + 32 ≤ length s.now }
    ensures { result ≡ bytes_at s.now at 32 }
{
    read_bytes::<32>(s, at)
}

// The two-byte number that stands in `s` from `at` on.
pub fn read_number(s: &[u8], at: usize) -> u16
    requires { at + 2 ≤ length s.now }
    ensures { result ≡ number_at s.now at }
{
    u16::from_be_bytes(read_bytes(s, at))
}
