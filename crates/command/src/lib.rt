// What a user types, as bytes: a name padded, a path with the name of a temporary file, an account's number read.
#![tactic(auto)]

ghost use Rattle.std.specs.Prelude.{◌≡◌, min, length};
ghost use Rattle.buffers.specs.Handed.{handed, handed_into};
ghost use Rattle.command.specs.Typed.{padded_name, temporary_name, number_of};

use buffers::Written;

// Hands out the name that was typed, with spaces after it up to 8 bytes. A longer one is handed out as it is, so that the
// operation that it goes to refuses it.
pub fn pad_name(typed: &[u8], name: &mut [u8]) -> Written
    ensures { (result ≡ handed (padded_name typed.now) (length name.old)) × (name.new ≡ handed_into (padded_name typed.now) name.old) }
{
    if 8 < typed.len() {
        return buffers::hand_out(typed, name);
    }
    let mut padded = *b"        ";
    padded[..typed.len()].copy_from_slice(typed);
    buffers::hand_out(&padded, name)
}

// Hands out the name of a temporary file beside a file, as `mkstemp` takes it: the file's own and `.XXXXXX`.
pub fn temporary_name(path: &[u8], name: &mut [u8]) -> Written
    ensures { (result ≡ handed (temporary_name path.now) (length name.old)) × (name.new ≡ handed_into (temporary_name path.now) name.old) }
{
    if name.len().saturating_sub(path.len()) < 7 {
        return buffers::refuse(16);
    }
    let next = buffers::put_bytes(name, 0, path);
    let end = buffers::put_bytes(name, next, b".XXXXXX");
    buffers::wrote(end)
}

// The number that digits say, or 65,536 if that is less: no label has so many accounts.
pub fn read_account(typed: &[u8]) -> Option<u32>
    ensures { result ≡ number_of typed.now }
{
    if typed.is_empty() {
        return None;
    }
    let mut x = 0;
    for byte in typed {
        if !byte.is_ascii_digit() {
            return None;
        }
        x = (10 * x + u32::from(*byte - b'0')).min(65536);
    }
    Some(x)
}
