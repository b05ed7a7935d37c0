// The form of a key envelope: what its records and its operations answer. Definitions stand in specs/, theorems in proofs/; there is no code here.
#![tactic(auto)]

// What one record is: one that holds a secret, one under the record at a place, the end of the file, or a refusal with its number.
#[derive(Clone, Copy)]
pub enum Kind {
    Held,
    Under(u8),
    End,
    Refused(u8),
}

// The verdict on an envelope, the number of its records, where each starts and the place that each gives: its own if it holds its secret.
#[derive(Clone, Copy)]
pub struct Contents {
    pub refusal: u8,
    pub records: usize,
    pub starts: [usize; 64],
    pub places: [u8; 64],
}

// The secret of a record, and the tree steps that lead to it from a held one.
#[derive(Clone, Copy)]
pub struct Walk {
    pub secret: [u8; 32],
    pub steps: u8,
}

// A label's key and the number of applications of F made for it; zeros with a refusal.
#[repr(C)]
#[derive(Clone, Copy)]
pub struct Derived {
    pub refusal: u8,
    pub key: [u8; 32],
    pub applications: u8,
}

// The account and the labels of an envelope: 8 bytes of name for each record, in the envelope's order, and zeros after them; zeros with a refusal.
#[repr(C)]
#[derive(Clone, Copy)]
pub struct Labels {
    pub refusal: u8,
    pub zeros: [u8; 5],
    pub account: u16,
    pub labels: usize,
    pub names: [u8; 512],
}
