// The arithmetic of Poly1305 (RFC 8439, section 2.5) modulo 2^130 - 5: numbers as words of 32 bits, each in a u64. No branch depends on a number.
#![tactic(auto)]

ghost use Rattle.std.specs.Prelude.{◌≡◌, ◌+◌, ◌*◌, ◌/◌, ◌%◌, ◌^◌, ◌≤◌, ◌<◌};
ghost use Rattle.poly1305_limbs.specs.Prime.{prime};
ghost use Rattle.poly1305_limbs.specs.Limbs.{value, multiplier_value, words_value, Narrow, Reduced, Clamped};
ghost use Rattle.poly1305_limbs.specs.Columns.{Wide, Carriable, Whole, plus, raised, column, product, carried, folded, quotient};

// The accumulator: four words and a top.
#[derive(Clone, Copy)]
pub struct Accumulator {
    pub h0: u64,
    pub h1: u64,
    pub h2: u64,
    pub h3: u64,
    pub h4: u64,
}

// The number that the accumulator is multiplied with.
#[derive(Clone, Copy)]
pub struct Multiplier {
    pub r0: u64,
    pub r1: u64,
    pub r2: u64,
    pub r3: u64,
}

// A number below 2^128.
#[derive(Clone, Copy)]
pub struct Words {
    pub w0: u64,
    pub w1: u64,
    pub w2: u64,
    pub w3: u64,
}

// One column of a product.
#[tactic(auto, using(crate::proofs::Bounds::products_small), unfolding(crate::specs::Columns::column))]
fn column(h: Accumulator, y0: u64, y1: u64, y2: u64, y3: u64, y4: u64) -> u64
    requires { Wide h × (y0 ≤ 335544320) × (y1 ≤ 335544320) × (y2 ≤ 335544320) × (y3 ≤ 335544320) × (y4 ≤ 335544320) }
    ensures { (result ≡ column h y0 y1 y2 y3 y4) × (result ≤ 14411518807585587200) }
{
    h.h0 * y0 + h.h1 * y1 + h.h2 * y2 + h.h3 * y3 + h.h4 * y4
}

// A quarter of a word of the multiplier, five times.
fn back(r: u64) -> u64
    requires { r < 268435456 }
    ensures { (result ≡ r / 4 * 5) × (result ≤ 335544320) }
{
    r / 4 * 5
}

// The columns of the product, those above 2^128 brought back.
fn product(h: Accumulator, r: Multiplier) -> Accumulator
    requires { Wide h × Clamped r }
    ensures { (result ≡ product h r) × Carriable result }
{
    let s1 = back(r.r1);
    let s2 = back(r.r2);
    let s3 = back(r.r3);
    Accumulator {
        h0: column(h, r.r0, s3, s2, s1, 0),
        h1: column(h, r.r1, r.r0, s3, s2, s1),
        h2: column(h, r.r2, r.r1, r.r0, s3, s2),
        h3: column(h, r.r3, r.r2, r.r1, r.r0, s3),
        h4: h.h4 * r.r0,
    }
}

// The words of a block added.
#[tactic(auto, using(crate::proofs::Bounds::plus_wide), unfolding(crate::specs::Columns::plus))]
fn plus(h: Accumulator, n: Words, high: u64) -> Accumulator
    requires { Reduced h × Narrow n × (high ≤ 1) }
    ensures { (result ≡ plus h n high) × Wide result }
{
    Accumulator {
        h0: h.h0 + n.w0,
        h1: h.h1 + n.w1,
        h2: h.h2 + n.w2,
        h3: h.h3 + n.w3,
        h4: h.h4 + high,
    }
}

// A small number added.
#[tactic(auto, using(crate::proofs::Bounds::raised_carriable), unfolding(crate::specs::Columns::raised))]
fn raised(h: Accumulator, x: u64) -> Accumulator
    requires { Wide h × (x ≤ 5) }
    ensures { (result ≡ raised h x) × Carriable result }
{
    Accumulator { h0: h.h0 + x, ..h }
}

// The carries from word to word.
#[tactic(auto, using(crate::proofs::Bounds::carried_whole), unfolding(crate::specs::Columns::carried))]
fn carried(d: Accumulator) -> Accumulator
    requires { Carriable d }
    ensures { (result ≡ carried d) × Whole result }
{
    let e1 = d.h1 + d.h0 / 4294967296;
    let e2 = d.h2 + e1 / 4294967296;
    let e3 = d.h3 + e2 / 4294967296;
    Accumulator {
        h0: d.h0 % 4294967296,
        h1: e1 % 4294967296,
        h2: e2 % 4294967296,
        h3: e3 % 4294967296,
        h4: d.h4 + e3 / 4294967296,
    }
}

// The bits above 2^130 brought back.
#[tactic(auto, using(crate::proofs::Bounds::folded_carriable), unfolding(crate::specs::Columns::folded))]
fn folded(d: Accumulator) -> Accumulator
    requires { Whole d }
    ensures { (result ≡ folded d) × Carriable result }
{
    Accumulator {
        h0: d.h0 + d.h4 / 4 * 5,
        h4: d.h4 % 4,
        ..d
    }
}

// The accumulator after one more number, that of n and, where high is 1, of 2^128.
pub fn step(h: Accumulator, r: Multiplier, n: Words, high: u64) -> Accumulator
    requires { Reduced h × Clamped r × Narrow n × (high ≤ 1) }
    ensures { Reduced result × (value result % prime ≡ (value h % prime + (words_value n + 2 ^ 128 * high)) * multiplier_value r % prime) }
{
    let d = carried(product(plus(h, n, high), r));
    carried(folded(d))
}

// 1 if the number is at least the prime, 0 if not.
#[tactic(auto, using(crate::proofs::Bounds::quotient_small), unfolding(crate::specs::Columns::quotient))]
fn quotient(h: Accumulator) -> u64
    requires { Reduced h }
    ensures { (result ≡ quotient h) × (result ≤ 1) }
{
    let d = carried(raised(h, 5));
    d.h4 / 4
}

// The end: the accumulator modulo the prime, and s added, modulo 2^128.
pub fn finish(h: Accumulator, s: Words) -> Words
    requires { Reduced h × Narrow s }
    ensures { Narrow result × (words_value result ≡ (value h % prime + words_value s) % 2 ^ 128) }
{
    let q = quotient(h);
    let d = carried(raised(plus(h, s, 0), 5 * q));
    Words {
        w0: d.h0,
        w1: d.h1,
        w2: d.h2,
        w3: d.h3,
    }
}
