// The policy file: the types of what is read of it. Its definitions stand in specs/, laws of them in proofs/. There is no code here.
#![tactic(auto)]

use order::Pair;

// What one record is: a label with its count of accounts, an over-pair, the end of the file, or a refusal with its number.
#[derive(Clone, Copy)]
pub enum Kind {
    Label(u16),
    Over(Pair),
    End,
    Refused(u8),
}

// One record read; the name is a label's, else zeros.
#[derive(Clone, Copy)]
pub struct Record {
    pub name: [u8; 8],
    pub kind: Kind,
}

// What a policy file says, and what is read of it so far. Entries past the counts are 0, and in the answer with a refusal everything is; `zeros`
// is always 0, so that a caller in C gets no byte that no contract speaks of.
#[repr(C)]
#[derive(Clone, Copy)]
pub struct Policy {
    pub refusal: u8,
    pub zeros: [u8; 7],
    pub labels: usize,
    pub pairs: usize,
    pub counts: [u16; 64],
    pub over: [Pair; 512],
}
