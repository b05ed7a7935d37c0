// A roster file, record by record: the roster in hand is lent to each record and altered there.
#![tactic(auto)]

ghost use Rattle.std.specs.Prelude.{◌≡◌, ◌*◌, ◌≤◌, ◌<◌, length};
ghost use Rattle.roster_file.specs.Machine.{empty_roster, number_of, asked_of, changed, account_of};
ghost use Rattle.roster_file.specs.Whole.{read_from, stop_of};
ghost use Rattle.roster_reading.specs.Place.{stop_at};

use roster_file::{Account, Entry, Roster, Standing, Stop};

// Where reading has come to: at which byte, and the number that the record there is refused under, 0 if none is.
#[derive(Clone, Copy)]
pub struct Place {
    pub refusal: u8,
    pub at: usize,
}

// The roster is lent on to the record's own function, which alters it.
pub fn obey(roster: &mut Roster, entry: Entry) -> u8
    ensures { (result ≡ number_of (asked_of roster.old entry))
        × (roster.new ≡ changed roster.old (account_of entry) (asked_of roster.old entry)) }
{
    match entry {
        Entry::Join(number, target) => roster_records::join(roster, number, target),
        Entry::Move(number, target) => roster_records::move_to(roster, number, target),
        Entry::Hold(number) => roster_records::hold(roster, number),
        Entry::Release(number) => roster_records::release(roster, number),
        Entry::Withdraw(number) => roster_records::withdraw(roster, number),
        Entry::Refused(n) => n,
    }
}

// The records of a file, one after another; stops at the first that is refused. The place moves by the size of each record, which no iterator gives.
fn read_records(roster: &mut Roster, policy: &[u8], labels: usize, file: &[u8]) -> Place
    requires { (12 * labels ≤ length policy.now) × (labels ≤ 64) }
    ensures { stop_at result roster.new
        ≡ read_from (length file.now) policy.now labels file.now 0 roster.old }
{
    let mut at = 0;
    while at < file.len() {
        let entry = roster_entry::read_entry(policy, labels, file, at);
        let refusal = obey(roster, entry);
        if refusal != 0 {
            return Place { refusal, at };
        }
        at += roster_entry::entry_size(entry);
    }
    Place { refusal: 0, at }
}

// Where the reading of a roster file stops, with the names of so many labels of a policy.
pub fn read_roster(policy: &[u8], labels: usize, file: &[u8]) -> Stop
    requires { (12 * labels ≤ length policy.now) × (labels ≤ 64) }
    ensures { result ≡ stop_of policy.now labels file.now }
{
    let mut roster = empty();
    let place = read_records(&mut roster, policy, labels, file);
    stop(place, roster)
}

// No account is known.
pub fn empty() -> Roster
    ensures { result ≡ empty_roster }
{
    let unknown = Account {
        standing: Standing::Unknown,
    };
    Roster {
        accounts: [unknown; 4096],
    }
}

// The place with the roster in hand there.
fn stop(place: Place, roster: Roster) -> Stop
    ensures { result ≡ stop_at place roster }
{
    Stop {
        refusal: place.refusal,
        at: place.at,
        roster,
    }
}
