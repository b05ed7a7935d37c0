// What is answered about a policy's plan and about an offered tree: types here, definitions in specs/, laws in proofs/. There is no code here.
#![tactic(auto)]

// For each label its parent, its weight (for the top its accounts) and the keys that one account holds, and the total of keys.
// Entries past the label count are 0, and with a refusal everything is. `zeros` is always 0: there is no padding.
#[repr(C)]
#[derive(Clone, Copy)]
pub struct Plan {
    pub refusal: u8,
    pub zeros: [u8; 3],
    pub total: u32,
    pub labels: usize,
    pub parents: [u8; 64],
    pub weights: [u32; 64],
    pub sizes: [u8; 64],
}

// The total of an offered tree, and whether no tree of the policy needs fewer; 0 and no with a refusal. `zeros` is always 0: there is no padding.
#[repr(C)]
#[derive(Clone, Copy)]
pub struct Weighed {
    pub refusal: u8,
    pub least: bool,
    pub zeros: [u8; 2],
    pub total: u32,
}
