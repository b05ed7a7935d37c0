// A roster read, written as text and counted, for C callers, each function by the equation of the operation itself. A slice is passed as a pointer and a length.
#![tactic(auto)]

ghost use Rattle.std.specs.Prelude.{◌≡◌, length};
ghost use Rattle.roster_answers.specs.Counted.{counted_written, counted_after};
ghost use Rattle.roster_answers.specs.Records.{roster_records_read};
ghost use Rattle.roster_answers.specs.RosterText.{roster_written, roster_after};
ghost use Rattle.roster_answers.specs.Standings.{roster_read};

use buffers::Written;
use roster_answers::Standings;

#[unsafe(no_mangle)]
pub extern "C" fn yendlowa_read_roster(policy: &[u8], roster: &[u8]) -> Standings
    ensures { result ≡ roster_read policy.now roster.now }
{
    roster_text::read_roster(policy, roster)
}

#[unsafe(no_mangle)]
pub extern "C" fn yendlowa_roster_records(policy: &[u8], roster: &[u8]) -> usize
    ensures { result ≡ roster_records_read policy.now roster.now }
{
    roster_stops::records_read(policy, roster)
}

#[unsafe(no_mangle)]
pub extern "C" fn yendlowa_roster_text(policy: &[u8], roster: &[u8], out: &mut [u8]) -> Written
    ensures { (result ≡ roster_written policy.now roster.now (length out.old)) × (out.new ≡ roster_after policy.now roster.now out.old) }
{
    roster_text::roster_text(policy, roster, out)
}

#[unsafe(no_mangle)]
pub extern "C" fn yendlowa_count_policy(policy: &[u8], roster: &[u8], out: &mut [u8]) -> Written
    ensures { (result ≡ counted_written policy.now roster.now (length out.old)) × (out.new ≡ counted_after policy.now roster.now out.old) }
{
    rosters::count_policy(policy, roster, out)
}
