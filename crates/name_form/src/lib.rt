// The form of a name: letters and digits, at least one, then spaces to the end.
#![tactic(auto)]

ghost use Rattle.std.specs.Prelude.{◌≡◌};
ghost use Rattle.format.specs.Names.{class_of, well_formed};

use format::Class;

#[tactic(auto, unfolding(format::specs::Names::class_of))]
pub fn class_of(byte: u8) -> Class
    ensures { result ≡ class_of byte }
{
    match byte {
        b'A'..=b'Z' => Class::Letter,
        b'0'..=b'9' => Class::Digit,
        b' ' => Class::Space,
        _ => Class::Refused,
    }
}

// Whether a name has its form.
pub fn well_formed(name: &[u8]) -> bool
    ensures { result ≡ well_formed name.now }
{
    let mut some = false;
    let mut padded = false;
    for byte in name {
        match class_of(*byte) {
            Class::Letter | Class::Digit if padded => return false,
            Class::Letter | Class::Digit => some = true,
            Class::Space => padded = true,
            Class::Refused => return false,
        }
    }
    some
}
