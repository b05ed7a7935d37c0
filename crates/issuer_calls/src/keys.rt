// The arguments of `key`, `issue` and `root`. Wrong calls are told before any file is read or made.
ghost use Rattle.std.specs.Prelude.{ℕ, ◌≡◌};
ghost use Rattle.outcomes.specs.declared.Ended.TheVariants.{Failed};
ghost use Rattle.issuer_calls.specs.Ran.{KeyEnds, IssueEnds, RootEnds};

use crate::reports;
use outcomes::Ended;

// `key [--fingerprint] POLICY NAME ROOT`
pub(crate) fn key(rt: HostRuntime, program: &[u8], option: bool) -> Ended
    ensures { KeyEnds option result }
{
    let at = reports::first_argument(option);
    // Longer files have the answer of their first 4,096 bytes (`key_front`, `key_root_front`, crate issuer_answers).
    let mut policy = io::buffer();
    let mut root = io::buffer();
    let read = files::read_both(rt, program, at, at + 2, &mut policy, &mut root);
    let files = read.map(|(first, second)| (&policy[..first], &root[..second]));
    let mut name = io::buffer();
    let length = arguments::name_argument(rt, at + 1, &mut name);
    let ended = key_verb::key(files, &name[..length], option);
    reports::of_key(rt, program, files, option, ended)
}

// `issue`, for the account number that was read
fn issue_to(rt: HostRuntime, program: &[u8], option: bool, account: u32) -> Ended
    ensures { IssueEnds option account result }
{
    let at = reports::first_argument(option);
    if new_file::is_no_file(rt, program, at + 4) {
        return Ended::Failed;
    }
    // As for `key` (`buffer_front`, `buffer_root_front`, crate issuer_answers).
    let mut policy = io::buffer();
    let mut root = io::buffer();
    let read = files::read_both(rt, program, at, at + 3, &mut policy, &mut root);
    let files = read.map(|(first, second)| (&policy[..first], &root[..second]));
    let mut name = io::buffer();
    let name_length = arguments::name_argument(rt, at + 1, &mut name);
    let mut out = io::buffer();
    let out_length = arguments::argument(rt, at + 4, &mut out);
    let printed = issue_verb::issue(
        rt,
        program,
        files,
        &name[..name_length],
        account,
        option,
        &out[..out_length],
    );
    reports::of_issue(rt, program, files, option, printed)
}

// Tells an ACCOUNT that is not a number.
fn no_number(rt: HostRuntime, program: &[u8], typed: &[u8]) -> Ended
    ensures { result ≡ Failed }
{
    messages::tell_value(rt, program, b"ACCOUNT ", typed, b" is not a number");
    Ended::Failed
}

// `issue [--fingerprint] POLICY NAME ACCOUNT ROOT OUT`
pub(crate) fn issue(rt: HostRuntime, program: &[u8], option: bool) -> Ended
    ensures { (account : ℕ) × IssueEnds option account result }
{
    let at = reports::first_argument(option) + 2;
    let mut typed = io::buffer();
    let length = arguments::argument(rt, at, &mut typed);
    // A longer one is cut here, and what was cut off may be something else than digits.
    if length == 4096 {
        return no_number(rt, program, &typed[..length]);
    }
    match command::read_account(&typed[..length]) {
        Some(account) => issue_to(rt, program, option, account),
        None => no_number(rt, program, &typed[..length]),
    }
}

// `root OUT`
pub(crate) fn root(rt: HostRuntime, program: &[u8]) -> Ended
    ensures { RootEnds result }
{
    if new_file::is_no_file(rt, program, 2) {
        return Ended::Failed;
    }
    let mut out = io::buffer();
    let length = arguments::argument(rt, 2, &mut out);
    root_verb::make_root(rt, program, &out[..length])
}
