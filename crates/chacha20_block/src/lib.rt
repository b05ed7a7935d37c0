// The ChaCha20 block function (RFC 8439, sections 2.1 to 2.3).
#![tactic(auto)]

ghost use Rattle.std.specs.Prelude.{◌≡◌, ◌+◌, ◌/◌, ◌<◌, ◌≤◌, length};
ghost use Rattle.chacha20_block.specs.ChaCha20.{quarter_round, quarter_round_at, column_round, diagonal_round, rounds, started, words, added, serialized, block_of, block_for};
ghost use Rattle.lists.specs.Buffer.{pasted};

// Four words of the state.
#[derive(Clone, Copy)]
pub struct Quarter {
    pub a: u32,
    pub b: u32,
    pub c: u32,
    pub d: u32,
}

// The quarter round.
#[tactic(auto, using(crate::proofs::Steps::quarter_lines), unfolding(crate::specs::ChaCha20::rotl))]
fn quarter_round(q: Quarter) -> Quarter
    ensures { result ≡ quarter_round q }
{
    let a = q.a.wrapping_add(q.b);
    let d = (q.d ^ a).rotate_left(16);
    let c = q.c.wrapping_add(d);
    let b = (q.b ^ c).rotate_left(12);
    let e = a.wrapping_add(b);
    let h = (d ^ e).rotate_left(8);
    let g = c.wrapping_add(h);
    let f = (b ^ g).rotate_left(7);
    Quarter {
        a: e,
        b: f,
        c: g,
        d: h,
    }
}

// The quarter round on the words at four places of the state.
#[tactic(auto, unfolding(crate::specs::ChaCha20::quarter_round_at))]
fn quarter_round_at(s: &mut [u32; 16], x: usize, y: usize, z: usize, w: usize)
    requires { (length s.old ≡ 16) × (x < 16) × (y < 16) × (z < 16) × (w < 16) }
    ensures { (s.new ≡ quarter_round_at x y z w s.old) × (length s.new ≡ 16) }
{
    let q = quarter_round(Quarter {
        a: s[x],
        b: s[y],
        c: s[z],
        d: s[w],
    });
    s[x] = q.a;
    s[y] = q.b;
    s[z] = q.c;
    s[w] = q.d;
}

// These two stay four lines each, as the RFC lists them: over a table of places they would read less plainly.
#[tactic(auto, unfolding(crate::specs::ChaCha20::column_round))]
fn column_round(s: &mut [u32; 16])
    requires { length s.old ≡ 16 }
    ensures { (s.new ≡ column_round s.old) × (length s.new ≡ 16) }
{
    quarter_round_at(s, 0, 4, 8, 12);
    quarter_round_at(s, 1, 5, 9, 13);
    quarter_round_at(s, 2, 6, 10, 14);
    quarter_round_at(s, 3, 7, 11, 15);
}

#[tactic(auto, unfolding(crate::specs::ChaCha20::diagonal_round))]
fn diagonal_round(s: &mut [u32; 16])
    requires { length s.old ≡ 16 }
    ensures { (s.new ≡ diagonal_round s.old) × (length s.new ≡ 16) }
{
    quarter_round_at(s, 0, 5, 10, 15);
    quarter_round_at(s, 1, 6, 11, 12);
    quarter_round_at(s, 2, 7, 8, 13);
    quarter_round_at(s, 3, 4, 9, 14);
}

// The 20 rounds.
#[tactic(auto, unfolding(crate::specs::ChaCha20::rounds))]
fn all_rounds(s: &mut [u32; 16])
    requires { length s.old ≡ 16 }
    ensures { (s.new ≡ rounds s.old 10) × (length s.new ≡ 16) }
{
    for _n in 0..10_usize {
        column_round(s);
        diagonal_round(s);
    }
}

// The sums of the words of two states.
fn sums(s: [u32; 16], t: [u32; 16]) -> [u32; 16]
    ensures { result ≡ added s t }
{
    let mut out = [0u32; 16];
    for (i, sum) in out.iter_mut().enumerate() {
        *sum = s[i].wrapping_add(t[i]);
    }
    out
}

// The words of a state as bytes.
fn bytes_of(s: [u32; 16]) -> [u8; 64]
    ensures { result ≡ serialized s }
{
    let mut out = [0u8; 64];
    for (i, word) in s.iter().enumerate() {
        little_endian::put_word(&mut out, 4 * i, *word);
    }
    out
}

// The 64 bytes of a state.
#[tactic(auto, unfolding(crate::specs::ChaCha20::block_of))]
fn block_of(state: [u32; 16]) -> [u8; 64]
    ensures { result ≡ block_of state }
{
    let mut s = state;
    all_rounds(&mut s);
    bytes_of(sums(s, state))
}

// Writes the words of some bytes into a state, from a place on.
#[tactic(auto, using(crate::proofs::Steps::load_turn, crate::proofs::Steps::load_none))]
fn load(s: &mut [u32; 16], at: usize, bytes: &[u8])
    requires { (length s.old ≡ 16) × (at + length bytes.now / 4 ≤ 16) }
    ensures { s.new ≡ pasted s.old at (words bytes.now (length bytes.now / 4)) }
{
    for i in 0..bytes.len() / 4 {
        s[at + i] = little_endian::word_at(bytes, 4 * i);
    }
}

// The state at the start.
fn start(key: [u8; 32], counter: u32, nonce: [u8; 12]) -> [u32; 16]
    ensures { result ≡ started key counter nonce }
{
    let mut s = [
        0x6170_7865,
        0x3320_646e,
        0x7962_2d32,
        0x6b20_6574,
        0,
        0,
        0,
        0,
        0,
        0,
        0,
        0,
        counter,
        0,
        0,
        0,
    ];
    load(&mut s, 4, &key);
    load(&mut s, 13, &nonce);
    s
}

// The block function.
#[tactic(auto, unfolding(crate::specs::ChaCha20::block_for))]
pub fn block(key: [u8; 32], counter: u32, nonce: [u8; 12]) -> [u8; 64]
    ensures { result ≡ block_for key counter nonce }
{
    block_of(start(key, counter, nonce))
}
