// How the accounts of a roster stand, as tables of numbers.
#![tactic(auto)]

ghost use Rattle.std.specs.Prelude.{◌≡◌};
ghost use Rattle.lists.specs.Tables.{listed};
ghost use Rattle.roster_answers.specs.Standings.{activity_number, state_number, place_number, state_at, place_at};

use roster_file::{Account, Activity, Roster, Standing};

// 2 if active, 3 if held.
fn activity_number(activity: Activity) -> u8
    ensures { result ≡ activity_number activity }
{
    match activity {
        Activity::Active => 2,
        Activity::Held => 3,
    }
}

// How an account stands, as a number.
fn state_number(account: Account) -> u8
    ensures { result ≡ state_number account.standing }
{
    match account.standing {
        Standing::Unknown => 0,
        Standing::Withdrawn => 1,
        Standing::On(_, activity) => activity_number(activity),
    }
}

// The label that an account stands on; 0 if it is on none.
fn place_number(account: Account) -> u8
    ensures { result ≡ place_number account.standing }
{
    match account.standing {
        Standing::Unknown | Standing::Withdrawn => 0,
        Standing::On(l, _) => l,
    }
}

// How each account stands. Here and below a `for` over the places, and no `map` of the array, which goes over all accounts three times more.
pub fn states(roster: Roster) -> [u8; 4096]
    ensures { result ≡ listed (state_at roster) 4096 }
{
    let mut table = [0u8; 4096];
    for i in 0..4096 {
        table[i] = state_number(roster.accounts[i]);
    }
    table
}

// The label that each account stands on.
pub fn places(roster: Roster) -> [u8; 4096]
    ensures { result ≡ listed (place_at roster) 4096 }
{
    let mut table = [0u8; 4096];
    for i in 0..4096 {
        table[i] = place_number(roster.accounts[i]);
    }
    table
}
