// What the operations with a roster answer: types here, definitions in specs/, laws of them in proofs/. There is no code here.
#![tactic(auto)]

use roster_file::Roster;

// A policy's labels and the roster of its accounts; with a refusal no labels and an empty roster.
#[derive(Clone, Copy)]
pub struct Rostered {
    pub refusal: u8,
    pub labels: usize,
    pub roster: Roster,
}

// How the accounts stand, and how many there are on each label. Account i + 1 has state and place i: 0 unknown, 1 withdrawn, 2 active or 3 held, and
// the label where it is one of the last two. Entries past the labels are 0, and with a refusal everything is. `zeros` is always 0: there is no padding.
#[repr(C)]
#[derive(Clone, Copy)]
pub struct Standings {
    pub refusal: u8,
    pub zeros: [u8; 7],
    pub labels: usize,
    pub counts: [u16; 64],
    pub states: [u8; 4096],
    pub places: [u8; 4096],
}
