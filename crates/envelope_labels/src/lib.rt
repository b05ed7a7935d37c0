// The account of a key envelope, and the labels that it opens.
#![tactic(auto)]

ghost use Rattle.std.specs.Prelude.{◌≡◌};
ghost use Rattle.envelope_file.specs.Labels.{names_in, refused_labels, envelope_labels};

use envelope::read_envelope;
use envelope_file::Labels;
use envelope_records::Records;

// The names of an envelope's records, one after the other.
fn read_names(read: &Records) -> [u8; 512]
    ensures { result ≡ names_in read.now.front.envelope.now read.now.front.count }
{
    let mut names = [0u8; 512];
    for k in 0..read.front.count {
        let at = read.front.starts[k] + 2;
        names[8 * k..8 * k + 8].copy_from_slice(&read.front.envelope[at..at + 8]);
    }
    names
}

// The labels of an envelope that is refused.
fn refused_labels(number: u8) -> Labels
    ensures { result ≡ refused_labels number }
{
    Labels {
        refusal: number,
        zeros: [0u8; 5],
        account: 0,
        labels: 0,
        names: [0u8; 512],
    }
}

// The account and the labels of an envelope.
pub fn read_labels(envelope: &[u8]) -> Labels
    ensures { result ≡ envelope_labels envelope.now }
{
    let read = read_envelope(envelope);
    if read.refusal != 0 {
        return refused_labels(read.refusal);
    }
    let account = format::read_number(envelope, 2);
    let records = Records::all(envelope, read);
    Labels {
        refusal: 0,
        zeros: [0u8; 5],
        account,
        labels: records.front.count,
        names: read_names(&records),
    }
}
