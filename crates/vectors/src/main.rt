// Runs the vectors of FIPS 180-4, RFC 4231 and RFC 8439 and the worked examples of documents 01 and 02 that are run and not proved, one
// line a case. The cases stand on standard input: how many there are, and for each its name, the operation, a number and four files;
// what an operation does not take is 0 or empty. tests/vectors.py makes the files stdin and stdout.
#![tactic(auto)]

mod accounts;
mod ciphers;
mod hashes;
mod input;
mod keys;
mod modules;
mod policies;
mod print;

// The files go to the operation as they stand; one that fills a buffer gets the last.
// The operations stay numbers, those of tests/vectors.py: an enum would only say each twice, since they are read here alone.
fn answer(
    rt: HostRuntime,
    operation: u16,
    number: u16,
    a: &[u8],
    b: &[u8],
    c: &[u8],
    buffer: &mut [u8],
) {
    match operation {
        0 => hashes::digest(rt, a, usize::from(number)),
        1 => hashes::mac(rt, a, b, usize::from(number)),
        2 => policies::policy(rt, a),
        3 => policies::plan(rt, a),
        4 => policies::tree(rt, a, b),
        5 => keys::key(rt, a, b, c),
        6 => keys::envelope(rt, a, b, u32::from(number), c, buffer),
        7 => keys::derived(rt, a, b),
        8 => ciphers::block(rt, a, number, b, 64),
        9 => ciphers::block(rt, a, 0, b, usize::from(number)),
        10 => ciphers::encrypted(rt, a, number, b, buffer),
        11 => ciphers::tag(rt, a, b),
        12 => ciphers::sealed(rt, a, b, c, buffer),
        13 => modules::sealed(rt, a, b, c, buffer),
        14 => modules::opened(rt, a, b, buffer),
        15 => accounts::policy(rt, a, b, buffer),
        16 => accounts::plan(rt, a, b),
        17 => accounts::tree(rt, a, b, c),
        18 => accounts::key(rt, a, b, c),
        19 => accounts::envelope(rt, a, b, c, u32::from(number), buffer),
        _ => accounts::sealed(rt, a, b, c, buffer),
    }
}

fn case(rt: HostRuntime) {
    print::name(rt);
    let operation = input::number(rt);
    let number = input::number(rt);
    let mut a = input::letters();
    let a_length = input::file(rt, &mut a);
    let mut b = input::letters();
    let b_length = input::file(rt, &mut b);
    let mut c = input::letters();
    let c_length = input::file(rt, &mut c);
    let mut d = input::letters();
    let d_length = input::file(rt, &mut d);
    answer(
        rt,
        operation,
        number,
        &a[..a_length],
        &b[..b_length],
        &c[..c_length],
        &mut d[..d_length],
    );
    let _ = println!(rt;);
}

fn main(rt: HostRuntime) {
    for _ in 0..input::number(rt) {
        case(rt);
    }
}
