// The program `yendlowa`.
#![tactic(auto)]

ghost use Rattle.std.specs.Prelude.{◌≡◌};
ghost use Rattle.issuer_calls.specs.Ran.{Ran};
ghost use Rattle.outcomes.specs.Status.{status_of};
ghost use Rattle.outcomes.specs.declared.Ended.{Ended};

use std::process::ExitCode;

// The program: the exit status of the call that it made.
pub fn yendlowa_program(rt: HostRuntime) -> i32
    ensures { (e : Ended) × Ran e × (result ≡ status_of e) }
{
    files::keep_streams(rt);
    outcomes::status(issuer_calls::run(rt))
}

fn main(rt: HostRuntime) -> ExitCode {
    match yendlowa_program(rt) {
        0 => ExitCode::SUCCESS,
        1 => ExitCode::FAILURE,
        _ => ExitCode::from(2),
    }
}
