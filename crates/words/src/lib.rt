// The operations on 32-bit words of SHA-256 (FIPS 180-4, sections 3.2 and 4.1.2).
#![tactic(auto)]

ghost use Rattle.std.specs.Prelude.{◌≡◌};
ghost use Rattle.words.specs.Words as spec;

pub fn ch(x: u32, y: u32, z: u32) -> u32
    ensures { result ≡ spec.ch x y z }
{
    (x & y) ^ (!x & z)
}

pub fn maj(x: u32, y: u32, z: u32) -> u32
    ensures { result ≡ spec.maj x y z }
{
    (x & y) ^ (x & z) ^ (y & z)
}

#[tactic(auto, unfolding(crate::specs::Words::big_sigma0, crate::specs::Words::rotr))]
pub fn big_sigma0(x: u32) -> u32
    ensures { result ≡ spec.big_sigma0 x }
{
    x.rotate_right(2) ^ x.rotate_right(13) ^ x.rotate_right(22)
}

#[tactic(auto, unfolding(crate::specs::Words::big_sigma1, crate::specs::Words::rotr))]
pub fn big_sigma1(x: u32) -> u32
    ensures { result ≡ spec.big_sigma1 x }
{
    x.rotate_right(6) ^ x.rotate_right(11) ^ x.rotate_right(25)
}

#[tactic(auto, unfolding(crate::specs::Words::small_sigma0, crate::specs::Words::rotr))]
pub fn small_sigma0(x: u32) -> u32
    ensures { result ≡ spec.small_sigma0 x }
{
    x.rotate_right(7) ^ x.rotate_right(18) ^ x >> 3
}

#[tactic(auto, unfolding(crate::specs::Words::small_sigma1, crate::specs::Words::rotr))]
pub fn small_sigma1(x: u32) -> u32
    ensures { result ≡ spec.small_sigma1 x }
{
    x.rotate_right(17) ^ x.rotate_right(19) ^ x >> 10
}
