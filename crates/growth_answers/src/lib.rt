// What one more account costs at each label of a policy: the type of the answer here, definitions in specs/, laws in proofs/. There is no code here.
#![tactic(auto)]

// For each label what one account more there adds to the plan's total, and the ceiling of that, the number of labels at or below it. Both are 0 for a label that has 65,535 accounts
// already, past the label count, and with a refusal. `zeros` is always 0: there is no padding.
#[repr(C)]
#[derive(Clone, Copy)]
pub struct Growth {
    pub refusal: u8,
    pub zeros: [u8; 7],
    pub labels: usize,
    pub costs: [u8; 64],
    pub ceilings: [u8; 64],
}
