// The compression function of SHA-256 (FIPS 180-4, section 6.2.2): a hash value of eight words and a block of 64 bytes
// to the next hash value.
#![tactic(auto)]

ghost use Rattle.std.specs.Prelude.{◌≡◌, ◌+◌, ◌<◌, ◌++◌, length, take, drop};
ghost use Rattle.compression.specs.Compression.{word, words, extended, start, temporary1, temporary2, round_of, rounds, added, compressed};

// The working variables (section 6.2.2).
#[derive(Clone, Copy)]
pub struct Working {
    pub a: u32,
    pub b: u32,
    pub c: u32,
    pub d: u32,
    pub e: u32,
    pub f: u32,
    pub g: u32,
    pub h: u32,
}

// The word number t of a block.
fn word_at(block: &[u8], t: usize) -> u32
    requires { (t < 16) × (length block.now ≡ 64) }
    ensures { result ≡ word block.now t }
{
    let at = 4 * t;
    u32::from_be_bytes([block[at], block[at + 1], block[at + 2], block[at + 3]])
}

// The first 16 words of the schedule.
#[tactic(auto, using(crate::proofs::Schedule::load_turn), unfolding(crate::specs::Compression::words))]
fn load(block: &[u8], w: &mut [u32; 64])
    requires { (length block.now ≡ 64) × (length w.old ≡ 64) }
    ensures { w.new ≡ words block.now 16 ++ drop 16 w.old }
{
    for t in 0..16 {
        w[t] = word_at(block, t);
    }
}

// The other 48 words of the schedule.
fn extend(w: &mut [u32; 64])
    requires { length w.old ≡ 64 }
    ensures { w.new ≡ extended (take 16 w.old) 48 }
{
    for t in 16..64 {
        w[t] = words::small_sigma1(w[t - 2])
            .wrapping_add(w[t - 7])
            .wrapping_add(words::small_sigma0(w[t - 15]))
            .wrapping_add(w[t - 16]);
    }
}

// The working variables at the start.
fn started(h: &[u32; 8]) -> Working
    ensures { result ≡ start h.now }
{
    let [a, b, c, d, e, f, g, h] = *h;
    Working {
        a,
        b,
        c,
        d,
        e,
        f,
        g,
        h,
    }
}

// T_1.
fn temp1(e: u32, f: u32, g: u32, h: u32, k: u32, w: u32) -> u32
    ensures { result ≡ temporary1 e f g h k w }
{
    h.wrapping_add(words::big_sigma1(e))
        .wrapping_add(words::ch(e, f, g))
        .wrapping_add(k)
        .wrapping_add(w)
}

// T_2.
fn temp2(a: u32, b: u32, c: u32) -> u32
    ensures { result ≡ temporary2 a b c }
{
    words::big_sigma0(a).wrapping_add(words::maj(a, b, c))
}

// One round.
#[tactic(auto, unfolding(crate::specs::Compression::round_of))]
fn round(v: Working, k: u32, w: u32) -> Working
    ensures { result ≡ round_of v k w }
{
    let t1 = temp1(v.e, v.f, v.g, v.h, k, w);
    let t2 = temp2(v.a, v.b, v.c);
    Working {
        a: t1.wrapping_add(t2),
        b: v.a,
        c: v.b,
        d: v.c,
        e: v.d.wrapping_add(t1),
        f: v.e,
        g: v.f,
        h: v.g,
    }
}

// The 64 rounds, four at a time: the working variables move in every round, and one round a turn takes a sixth more time.
#[tactic(auto, using(crate::proofs::Rounds::four_rounds), unfolding(crate::specs::Compression::rounds))]
fn all_rounds(from: Working, w: &[u32; 64]) -> Working
    ensures { result ≡ rounds w.now from 64 }
{
    let k = sha256_constants::round_words();
    let mut v = from;
    for i in 0..16 {
        let t = 4 * i;
        v = round(v, k[t], w[t]);
        v = round(v, k[t + 1], w[t + 1]);
        v = round(v, k[t + 2], w[t + 2]);
        v = round(v, k[t + 3], w[t + 3]);
    }
    v
}

// Adds the working variables to the hash value.
fn add_to(h: &mut [u32; 8], v: Working)
    ensures { h.new ≡ added h.old v }
{
    *h = [
        h[0].wrapping_add(v.a),
        h[1].wrapping_add(v.b),
        h[2].wrapping_add(v.c),
        h[3].wrapping_add(v.d),
        h[4].wrapping_add(v.e),
        h[5].wrapping_add(v.f),
        h[6].wrapping_add(v.g),
        h[7].wrapping_add(v.h),
    ];
}

// The hash value after one more block.
pub fn compress(h: &mut [u32; 8], block: &[u8])
    requires { length block.now ≡ 64 }
    ensures { h.new ≡ compressed h.old block.now }
{
    let mut w = [0u32; 64];
    load(block, &mut w);
    extend(&mut w);
    let v = all_rounds(started(h), &w);
    add_to(h, v);
}
