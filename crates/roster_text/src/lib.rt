// A roster as text and as tables.
#![tactic(auto)]

ghost use Rattle.std.specs.Prelude.{◌≡◌, length};
ghost use Rattle.roster_answers.specs.RosterText.{roster_written, roster_after};
ghost use Rattle.roster_answers.specs.Standings.{refused_standings, roster_read};

use buffers::Written;
use roster_answers::Standings;

// Writes the text of a roster. No such text has more than 86,925 bytes.
pub fn roster_text(policy: &[u8], roster: &[u8], out: &mut [u8]) -> Written
    ensures { (result ≡ roster_written policy.now roster.now (length out.old)) × (out.new ≡ roster_after policy.now roster.now out.old) }
{
    let read = rosters::read_files(policy, roster);
    if read.refusal != 0 {
        return buffers::refuse(read.refusal);
    }
    let accounts = read.roster;
    let counts = tallies::tally(accounts);
    let mut written = [0u8; 86925];
    let length = roster_lines::put_listing(policy, read.labels, accounts, counts, &mut written);
    buffers::hand_out(&written[..length], out)
}

// The answer of `read_roster` with a refusal.
fn refused(number: u8) -> Standings
    ensures { result ≡ refused_standings number }
{
    Standings {
        refusal: number,
        zeros: [0u8; 7],
        labels: 0,
        counts: [0u16; 64],
        states: [0u8; 4096],
        places: [0u8; 4096],
    }
}

// How the accounts of a roster stand, and how many there are on each label.
pub fn read_roster(policy: &[u8], roster: &[u8]) -> Standings
    ensures { result ≡ roster_read policy.now roster.now }
{
    let read = rosters::read_files(policy, roster);
    if read.refusal != 0 {
        return refused(read.refusal);
    }
    let accounts = read.roster;
    Standings {
        refusal: 0,
        zeros: [0u8; 7],
        labels: read.labels,
        counts: tallies::tally(accounts),
        states: standings::states(accounts),
        places: standings::places(accounts),
    }
}
