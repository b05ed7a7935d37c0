// The accounts of a roster, counted by label.
#![tactic(auto)]

ghost use Rattle.std.specs.Prelude.{◌<◌, ◌≡◌};
ghost use Rattle.lists.specs.Tables.{listed};
ghost use Rattle.roster_file.specs.Counts.{count_in};
ghost use Rattle.tallies.specs.Tally.{place_in};

use roster_file::{Account, Roster, Standing};

// The label that an account stands on, active or held, if it is on one.
fn label_of(account: &Account) -> Option<usize>
    ensures { result ≡ place_in account.now.standing }
{
    match account.standing {
        Standing::On(l, _) => Some(usize::from(l)),
        Standing::Unknown | Standing::Withdrawn => None,
    }
}

// The number of accounts on each label.
pub fn tally(roster: Roster) -> [u16; 64]
    ensures { result ≡ listed (count_in roster) 64 }
{
    let mut counts = [0u16; 64];
    // Two tests, one in the other: with both in one condition the proof knows nothing where there is no label.
    for account in &roster.accounts {
        if let Some(l) = label_of(account) {
            if l < 64 {
                counts[l] += 1;
            }
        }
    }
    counts
}
