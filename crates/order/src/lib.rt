// The order of labels, as chains of over-pairs and as a table: definitions in specs/, laws in proofs/. There is no code here.
#![tactic(auto)]

// An over-pair, the numbers of one `OV` record.
#[repr(C)]
#[derive(Clone, Copy)]
pub struct Pair {
    pub upper: u8,
    pub lower: u8,
}
