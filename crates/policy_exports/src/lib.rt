// The reading of policies for C callers: each function calls the one of that name in `policy_c`, and promises what it promises. A slice is passed as a pointer and a length.
#![tactic(auto)]

ghost use Rattle.std.specs.Prelude.{◌≡◌};
ghost use Rattle.policy_file.specs.Whole.{policy_of, policy_records_read};
ghost use Rattle.policy_c.specs.Order.{rows_of};

use policy_c::Rows;
use policy_file::Policy;

#[unsafe(no_mangle)]
pub extern "C" fn yendlowa_read_policy(policy: &[u8]) -> Policy
    ensures { result ≡ policy_of policy.now }
{
    policy_c::yendlowa_read_policy(policy)
}

#[unsafe(no_mangle)]
pub extern "C" fn yendlowa_policy_records(policy: &[u8]) -> usize
    ensures { result ≡ policy_records_read policy.now }
{
    policy_c::yendlowa_policy_records(policy)
}

#[unsafe(no_mangle)]
pub extern "C" fn yendlowa_order(policy: &[u8]) -> Rows
    ensures { result ≡ rows_of policy.now }
{
    policy_c::yendlowa_order(policy)
}
