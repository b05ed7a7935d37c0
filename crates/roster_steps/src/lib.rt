// What each record of a roster file does to its account, by value. A number out of 1 to 4,096 is handled as an unknown account.
#![tactic(auto)]

ghost use Rattle.std.specs.Prelude.{◌≡◌, ◌<◌};
ghost use Rattle.roster_file.specs.Machine.{refuses, is_number, placing, joining, moving, holding, releasing, withdrawing};
ghost use Rattle.roster_steps.specs.Step.{place_of, seen_as, stands_so, stepped_by, OnLabel};

use roster_file::{Account, Activity, Standing, Stepped};

// Whether there is an account `number`.
#[tactic(auto, unfolding(roster_file::specs::Machine::is_number))]
fn is_number(number: u16) -> bool
    ensures { result ≡ is_number number }
{
    (1..=4096).contains(&number)
}

// Where account `number` stands in the array; the first place for a number that has no account.
#[tactic(auto, unfolding(crate::specs::Step::place_of, roster_file::specs::Machine::is_number))]
pub fn place(number: u16) -> usize
    ensures { (result ≡ place_of number) × (result < 4096) }
{
    if is_number(number) {
        usize::from(number) - 1
    } else {
        0
    }
}

// How account `number` stands, `account` being what stands at its place.
#[tactic(auto, unfolding(crate::specs::Step::seen_as))]
fn seen(account: Account, number: u16) -> Standing
    ensures { result ≡ seen_as number account }
{
    if is_number(number) {
        account.standing
    } else {
        Standing::Unknown
    }
}

// The account stands so from here on.
fn set(standing: Standing) -> Stepped
    ensures { result ≡ stands_so standing }
{
    Stepped {
        refusal: 0,
        account: Account { standing },
    }
}

// The record is refused, and the account stays as it is.
fn refused(account: Account, refusal: u8) -> Stepped
    ensures { result ≡ stepped_by account (refuses refusal) }
{
    Stepped { refusal, account }
}

// Active on the label that the record names, if there is one.
fn placed(account: Account, target: Option<u8>) -> Stepped
    ensures { result ≡ stepped_by account (placing target) }
{
    match target {
        Some(l) => set(Standing::On(l, Activity::Active)),
        None => refused(account, 13),
    }
}

// `MV`, `HD`, `RL` and `WD`: the account has to be on a label, which the step is told.
fn on_label<F: FnOnce(u8) -> Stepped>(account: Account, number: u16, step: F) -> Stepped
    requires { F.IsAlwaysCallable step }
    ensures { OnLabel account (F.post step) (seen_as number account) result }
{
    match seen(account, number) {
        Standing::On(l, _) => step(l),
        Standing::Unknown | Standing::Withdrawn => refused(account, 25),
    }
}

// `JN`: the account's number has to be new.
pub fn joined(account: Account, number: u16, target: Option<u8>) -> Stepped
    ensures { result ≡ stepped_by account (joining number target (seen_as number account)) }
{
    match seen(account, number) {
        Standing::Unknown if is_number(number) => placed(account, target),
        _ => refused(account, 24),
    }
}

pub fn moved(account: Account, number: u16, target: Option<u8>) -> Stepped
    ensures { result ≡ stepped_by account (moving target (seen_as number account)) }
{
    on_label(account, number, |_| placed(account, target))
}

pub fn held(account: Account, number: u16) -> Stepped
    ensures { result ≡ stepped_by account (holding (seen_as number account)) }
{
    on_label(account, number, |l| set(Standing::On(l, Activity::Held)))
}

pub fn released(account: Account, number: u16) -> Stepped
    ensures { result ≡ stepped_by account (releasing (seen_as number account)) }
{
    on_label(account, number, |l| set(Standing::On(l, Activity::Active)))
}

pub fn withdrawn(account: Account, number: u16) -> Stepped
    ensures { result ≡ stepped_by account (withdrawing (seen_as number account)) }
{
    on_label(account, number, |_| set(Standing::Withdrawn))
}
