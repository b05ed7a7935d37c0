// The key of a label, derived from a key envelope alone.
#![tactic(auto)]

ghost use Rattle.std.specs.Prelude.{◌≡◌};
ghost use Rattle.envelope_file.specs.Derive.{refused_derived, record_asked, derived_of};
ghost use Rattle.envelope_file.specs.Whole.{contents_of};

use derivation::derive_record;
use envelope::read_envelope;
use envelope_file::{Contents, Derived};
use envelope_names::find_record;
use envelope_records::Records;

// The record that carries the name asked for; none if that does not have 8 bytes.
fn asked_record(read: &Records, name: &[u8]) -> Option<usize>
    ensures { result ≡ record_asked read.now.front.envelope.now read.now.front.count name.now }
{
    if name.len() != 8 {
        return None;
    }
    let front = &read.front;
    find_record(
        front.envelope,
        front.count,
        &front.starts,
        names::read_name(name, 0),
    )
}

// The answer with a refusal.
fn refuse(number: u8) -> Derived
    ensures { result ≡ refused_derived number }
{
    Derived {
        refusal: number,
        key: [0u8; 32],
        applications: 0,
    }
}

// The key of the label that is asked for, from an envelope that was read.
pub fn derive_read(envelope: &[u8], read: Contents, name: &[u8]) -> Derived
    requires { (read ≡ contents_of envelope.now) × (read.refusal ≡ 0) }
    ensures { result ≡ derived_of envelope.now name.now }
{
    let records = Records::all(envelope, read);
    match asked_record(&records, name) {
        Some(k) => derive_record(&records, k),
        None => refuse(20),
    }
}

// The key of the label that is asked for, from an envelope alone.
pub fn derive(envelope: &[u8], name: &[u8]) -> Derived
    ensures { result ≡ derived_of envelope.now name.now }
{
    let read = read_envelope(envelope);
    if read.refusal != 0 {
        return refuse(read.refusal);
    }
    derive_read(envelope, read, name)
}
