// Prints the plan of the policy on standard input. It takes no arguments.
#![tactic(auto)]

ghost use Rattle.std.specs.Prelude.{ℕ, List};
ghost use Rattle.outcomes.specs.Status.{Ends};
ghost use Rattle.policy_file.specs.Whole.{policy_refusal};
ghost use Rattle.plan_texts.specs.Listing.{plan_text};

use outcomes::Ended;

// Reads a policy and prints its plan: that of some bytes, those which the system read.
fn print_plan(rt: HostRuntime) -> Ended
    ensures { (policy : List ℕ) × Ends (policy_refusal policy) (plan_text policy) result }
{
    // More than the 2,828 bytes that decide (`printed_front`, crate plan_texts).
    let mut bytes = io::buffer();
    let read = files::read_input(rt, b"plan", &mut bytes);
    let policy = read.map(|length| &bytes[..length]);
    answers::print(rt, b"plan", plan_verbs::plan(policy))
}

fn main(rt: HostRuntime) {
    if arguments::count(rt) == 1 {
        print_plan(rt);
    } else {
        messages::tell_line(
            rt,
            b"plan",
            b"wrong number of arguments; call it as: plan <POLICY",
        );
    }
}
