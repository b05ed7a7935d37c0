// The reading of policies as C callers see it, each function by the equation of the operation itself. `policy_exports` exports them.
#![tactic(auto)]

ghost use Rattle.std.specs.Prelude.{◌≡◌};
ghost use Rattle.policy_file.specs.Whole.{policy_of, policy_records_read};
ghost use Rattle.policy_c.specs.Order.{in_line, rows_of};

use policy_file::Policy;

// The order of a policy's labels: entry 64 * m + l says whether label m is at or below label l. All no with a refusal.
#[repr(C)]
#[derive(Clone, Copy)]
pub struct Rows {
    pub refusal: u8,
    pub rows: [bool; 4096],
}

pub fn yendlowa_read_policy(policy: &[u8]) -> Policy
    ensures { result ≡ policy_of policy.now }
{
    policy::read_policy(policy)
}

pub fn yendlowa_policy_records(policy: &[u8]) -> usize
    ensures { result ≡ policy_records_read policy.now }
{
    policy_reading::records_read(policy)
}

// The rows of an order table one after the other.
fn in_line(table: &[[bool; 64]; 64]) -> [bool; 4096]
    ensures { result ≡ in_line table.now }
{
    // No array::from_fn: of 4,096 entries its clause says each in turn, and the check does not come to an end.
    let mut line = [false; 4096];
    for i in 0..4096 {
        line[i] = order_table::at_or_below(table, i / 64, i % 64);
    }
    line
}

pub fn yendlowa_order(policy: &[u8]) -> Rows
    ensures { result ≡ rows_of policy.now }
{
    let read = policy::read_policy(policy);
    let over = read.over;
    let table = order_table::order_table(read.labels, read.pairs, over);
    let line = in_line(&table);
    Rows {
        refusal: read.refusal,
        rows: line,
    }
}
