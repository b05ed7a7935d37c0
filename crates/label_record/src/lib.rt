// The `LB` record of a policy file, and the search for a label's name.
#![tactic(auto)]

ghost use Rattle.std.specs.Prelude.{◌≡◌, ◌+◌, ◌*◌, ◌≤◌, length};
ghost use Rattle.policy_file.specs.File.{label_named};
ghost use Rattle.policy_file.specs.Record.{unnamed_of, with_name, label_kind};

use policy_file::{Kind, Record};

// A record that has no name.
pub fn unnamed(kind: Kind) -> Record
    ensures { result ≡ unnamed_of kind }
{
    Record {
        name: [0u8; 8],
        kind,
    }
}

// The first of `labels` labels that has the name, or none.
pub fn find_name(policy: &[u8], labels: usize, name: [u8; 8]) -> Option<usize>
    requires { 12 * labels ≤ length policy.now }
    ensures { result ≡ label_named policy.now labels name }
{
    // The project's scope names this form: a loop that breaks out with the place found as its value, or with not found.
    let mut i = 0;
    loop {
        if i == labels {
            break None;
        }
        if names::same_name(names::read_name(policy, 12 * i + 2), name) {
            break Some(i);
        }
        i += 1;
    }
}

// The `LB` record after `labels` labels and no pair.
pub fn read_label(policy: &[u8], labels: usize) -> Record
    requires { 12 * labels + 12 ≤ length policy.now }
    ensures { result ≡ with_name policy.now labels (label_kind policy.now labels) }
{
    if 64 <= labels {
        return unnamed(Kind::Refused(5));
    }
    let name = names::read_name(policy, 12 * labels + 2);
    if !name_form::well_formed(&name) {
        return unnamed(Kind::Refused(6));
    }
    match find_name(policy, labels, name) {
        Some(_) => unnamed(Kind::Refused(7)),
        None => Record {
            name,
            kind: Kind::Label(format::read_number(policy, 12 * labels + 10)),
        },
    }
}
