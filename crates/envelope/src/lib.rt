// The whole key envelope: its header and its records.
#![tactic(auto)]

ghost use Rattle.std.specs.Prelude.{◌≡◌, ◌≤◌, length};
ghost use Rattle.envelope_file.specs.Whole.{head_refusal, refused, nothing_read, settled, scan_from, contents_of, count_from, envelope_records_read};

use envelope_file::{Contents, Kind};
use envelope_record::read_record;
use envelope_records::Records;
use format::EN;

// An envelope that is refused.
fn refused_contents(number: u8) -> Contents
    ensures { result ≡ refused number }
{
    Contents {
        refusal: number,
        records: 0,
        starts: [0usize; 64],
        places: [0u8; 64],
    }
}

// All records from the first on, after a header of 12 bytes; with a refusal those before the refused one.
fn read_records(envelope: &[u8]) -> Contents
    requires { 12 ≤ length envelope.now }
    ensures { (settled result ≡ scan_from 65 envelope.now nothing_read) × (result.records ≡ count_from 65 envelope.now 0) }
{
    let mut read = Records::none(envelope);
    // A `while let` would be no plainer: the loop ends at the end of the file, and at a refusal with its number.
    let refusal = loop {
        match read_record(&read.front) {
            Kind::Held => {
                let own = read.front.count as u8;
                read.push(42, own);
            }
            Kind::Under(place) => read.push(11, place),
            Kind::End => break 0,
            Kind::Refused(number) => break number,
        }
    };
    let starts = read.front.starts;
    let places = read.places;
    Contents {
        refusal,
        records: read.front.count,
        starts,
        places,
    }
}

// The number that the header is refused under, 0 when it is not.
fn head_refusal(envelope: &[u8]) -> u8
    ensures { result ≡ head_refusal envelope.now }
{
    if envelope.len() < 12 {
        return 17;
    }
    if !format::marked(envelope, 0, EN) {
        return 17;
    }
    if format::read_number(envelope, 2) == 0 {
        return 17;
    }
    0
}

// The records of an envelope; zeros beside the number of a refusal.
pub fn read_envelope(envelope: &[u8]) -> Contents
    ensures { result ≡ contents_of envelope.now }
{
    let number = head_refusal(envelope);
    if number != 0 {
        return refused_contents(number);
    }
    let read = read_records(envelope);
    if read.refusal != 0 {
        return refused_contents(read.refusal);
    }
    read
}

// How many records of an envelope are read before its end or its first refused record; 0 when its header is refused.
pub fn records_read(envelope: &[u8]) -> usize
    ensures { result ≡ envelope_records_read envelope.now }
{
    if head_refusal(envelope) != 0 {
        return 0;
    }
    let read = read_records(envelope);
    read.records
}
