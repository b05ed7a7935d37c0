// The records of a roster file, each on a roster that is lent: it is altered in place. Every test is in the crate `roster_steps`, so that these functions have no
// branch.
#![tactic(auto)]

ghost use Rattle.std.specs.Prelude.{◌≡◌};
ghost use Rattle.roster_file.specs.Machine.{number_of, changed, asked_of};
ghost use Rattle.roster_file.specs.declared.Entry.TheVariants.{Join, Move, Hold, Release, Withdraw};
ghost use Rattle.roster_records.specs.Altered.{Altered};

use roster_file::{Account, Roster, Stepped};

// One account takes a step, by value, and stands as the step leaves it. The project's scope names a function for each record: they are below.
fn alter<F: FnOnce(Account) -> Stepped>(roster: &mut Roster, number: u16, step: F) -> u8
    requires { F.IsAlwaysCallable step }
    ensures { Altered (F.post step) number roster.old roster.new result }
{
    let account = &mut roster.accounts[roster_steps::place(number)];
    let taken = step(*account);
    *account = taken.account;
    taken.refusal
}

pub fn join(roster: &mut Roster, number: u16, target: Option<u8>) -> u8
    ensures { (result ≡ number_of (asked_of roster.old (Join number target)))
        × (roster.new ≡ changed roster.old number (asked_of roster.old (Join number target))) }
{
    alter(roster, number, |account| {
        roster_steps::joined(account, number, target)
    })
}

pub fn move_to(roster: &mut Roster, number: u16, target: Option<u8>) -> u8
    ensures { (result ≡ number_of (asked_of roster.old (Move number target)))
        × (roster.new ≡ changed roster.old number (asked_of roster.old (Move number target))) }
{
    alter(roster, number, |account| {
        roster_steps::moved(account, number, target)
    })
}

pub fn hold(roster: &mut Roster, number: u16) -> u8
    ensures { (result ≡ number_of (asked_of roster.old (Hold number)))
        × (roster.new ≡ changed roster.old number (asked_of roster.old (Hold number))) }
{
    alter(
        roster,
        number,
        |account| roster_steps::held(account, number),
    )
}

pub fn release(roster: &mut Roster, number: u16) -> u8
    ensures { (result ≡ number_of (asked_of roster.old (Release number)))
        × (roster.new ≡ changed roster.old number (asked_of roster.old (Release number))) }
{
    alter(
        roster,
        number,
        |account| roster_steps::released(account, number),
    )
}

pub fn withdraw(roster: &mut Roster, number: u16) -> u8
    ensures { (result ≡ number_of (asked_of roster.old (Withdraw number)))
        × (roster.new ≡ changed roster.old number (asked_of roster.old (Withdraw number))) }
{
    alter(
        roster,
        number,
        |account| roster_steps::withdrawn(account, number),
    )
}
