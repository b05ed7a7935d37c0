// The desk's operations for C callers, each by the equation of the operation itself. A slice is passed as a pointer and a length.
#![tactic(auto)]

ghost use Rattle.std.specs.Prelude.{◌≡◌};
ghost use Rattle.envelope_file.specs.Derive.{derived_of};
ghost use Rattle.envelope_file.specs.Labels.{envelope_labels};
ghost use Rattle.envelope_file.specs.Whole.{envelope_records_read};

use envelope_file::{Derived, Labels};

#[unsafe(no_mangle)]
pub extern "C" fn yendlowa_derive(envelope: &[u8], name: &[u8]) -> Derived
    ensures { result ≡ derived_of envelope.now name.now }
{
    desk::derive(envelope, name)
}

#[unsafe(no_mangle)]
pub extern "C" fn yendlowa_labels(envelope: &[u8]) -> Labels
    ensures { result ≡ envelope_labels envelope.now }
{
    envelope_labels::read_labels(envelope)
}

#[unsafe(no_mangle)]
pub extern "C" fn yendlowa_envelope_records(envelope: &[u8]) -> usize
    ensures { result ≡ envelope_records_read envelope.now }
{
    envelope::records_read(envelope)
}
