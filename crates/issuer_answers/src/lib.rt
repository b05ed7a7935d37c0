// What `issuer_key` and `issue` answer: definitions in specs/, laws of them in proofs/. There is no code here but the answer's type.
#![tactic(auto)]

// A label's key; zeros with a refusal.
#[repr(C)]
#[derive(Clone, Copy)]
pub struct IssuerKey {
    pub refusal: u8,
    pub key: [u8; 32],
}
