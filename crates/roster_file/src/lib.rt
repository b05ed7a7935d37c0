// The roster of accounts and its file: the types of both. Their definitions stand in specs/, laws of them in proofs/. There is no code here.
#![tactic(auto)]

// Whether an account on a label is active or held.
#[derive(Clone, Copy)]
pub enum Activity {
    Active,
    Held,
}

// Where an account stands: unknown, withdrawn, or on a label.
#[derive(Clone, Copy)]
pub enum Standing {
    Unknown,
    Withdrawn,
    On(u8, Activity),
}

#[derive(Clone, Copy)]
pub struct Account {
    pub standing: Standing,
}

// The accounts 1 to 4,096, in that order.
#[derive(Clone, Copy)]
pub struct Roster {
    pub accounts: [Account; 4096],
}

// One record of a roster file: what it says and of which account, or a refusal with its number.
#[derive(Clone, Copy)]
pub enum Entry {
    Join(u16, Option<u8>),
    Move(u16, Option<u8>),
    Hold(u16),
    Release(u16),
    Withdraw(u16),
    Refused(u8),
}

// What a record does to its account: the number that it is refused under, or 0, and the account after it.
#[derive(Clone, Copy)]
pub struct Stepped {
    pub refusal: u8,
    pub account: Account,
}

// Where the reading of a roster file stops: under which number, or 0 at the file's end; at which byte; and the roster there.
#[derive(Clone, Copy)]
pub struct Stop {
    pub refusal: u8,
    pub at: usize,
    pub roster: Roster,
}
