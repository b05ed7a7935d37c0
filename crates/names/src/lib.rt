// Names in files: read, compared, and their length without padding.
#![tactic(auto)]

ghost use Rattle.std.specs.Prelude.{◌≡◌, ◌+◌, ◌≤◌, length};
ghost use Rattle.format.specs.Bytes.{bytes_at, same_bytes};
ghost use Rattle.format.specs.Names.{unpadded};

// The name that stands in `s` from `at` on.
pub fn read_name(s: &[u8], at: usize) -> [u8; 8]
    requires { at + 8 ≤ length s.now }
    ensures { result ≡ bytes_at s.now at 8 }
{
    format::read_bytes(s, at)
}

// Whether two names are the same.
pub fn same_name(a: [u8; 8], b: [u8; 8]) -> bool
    ensures { result ≡ same_bytes a b }
{
    a == b
}

// How many bytes stand before a name's first space.
pub fn unpadded_length(name: &[u8]) -> usize
    ensures { result ≡ length (unpadded name.now) }
{
    name.iter()
        .position(|byte| *byte == b' ')
        .unwrap_or(name.len())
}
