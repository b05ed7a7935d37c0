// The records of a key envelope, as far as they are read.
#![tactic(auto)]

ghost use Rattle.std.specs.Prelude.{◌≡◌, ◌≤◌, length};
ghost use Rattle.envelope_file.specs.File.{start_of};
ghost use Rattle.envelope_file.specs.Reads.{Located, Placed, Falling};

use envelope_file::Contents;

// How many records of an envelope are read, where each starts, and where the next one does.
#[derive(Drop)]
pub struct Front<'a> {
    pub envelope: &'a [u8],
    pub count: usize,
    pub starts: [usize; 64],
    pub end: usize,
    pub ghost located: { Located envelope.now starts count },
    pub ghost here: { end ≡ start_of envelope.now count },
    pub ghost within: { end ≤ length envelope.now },
}

// The records that are read, and the place that each gives.
#[derive(Drop)]
pub struct Records<'a> {
    pub front: Front<'a>,
    pub places: [u8; 64],
    pub ghost placed: { Placed front.envelope.now places front.count },
    pub ghost falling: { Falling front.envelope.now front.count },
}

impl<'a> Records<'a> {
    ghost use Rattle.std.specs.Prelude.{◌+◌, replicate, slice_set};
    ghost use Rattle.envelope_file.specs.Reads.{Next};
    ghost use Rattle.envelope_file.specs.Whole.{contents_of};

    // No record yet, behind a header of 12 bytes.
    pub fn none(envelope: &'a [u8]) -> Records<'a>
        requires { 12 ≤ length envelope.now }
        ensures { (result.front.envelope.now ≡ envelope.now) × (result.front.count ≡ 0) × (result.front.starts ≡ replicate 64 0) × (result.places ≡ replicate 64 0) × (result.front.end ≡ 12) }
    {
        Records {
            front: Front {
                envelope,
                count: 0,
                starts: [0usize; 64],
                end: 12,
            },
            places: [0u8; 64],
        }
    }

    // All records of an envelope that is read and not refused.
    pub fn all(envelope: &'a [u8], read: Contents) -> Records<'a>
        requires { (read ≡ contents_of envelope.now) × (read.refusal ≡ 0) }
        ensures { (result.front.envelope.now ≡ envelope.now) × (result.front.count ≡ read.records) × (result.front.starts ≡ read.starts) × (result.places ≡ read.places) × (result.front.end ≡ length envelope.now) }
    {
        let starts = read.starts;
        let places = read.places;
        Records {
            front: Front {
                envelope,
                count: read.records,
                starts,
                end: envelope.len(),
            },
            places,
        }
    }

    // One record more: it has `size` bytes, and is kept with a place.
    pub fn push(&mut self, size: usize, place: u8)
        requires { Next self.old.front.envelope.now self.old.front.count size place }
        ensures { (self.new.front.envelope.now ≡ self.old.front.envelope.now) × (self.new.front.count ≡ self.old.front.count + 1) × (self.new.front.starts ≡ slice_set self.old.front.starts self.old.front.count self.old.front.end) × (self.new.places ≡ slice_set self.old.places self.old.front.count place) × (self.new.front.end ≡ self.old.front.end + size) }
    {
        let front = &mut self.front;
        front.starts[front.count] = front.end;
        self.places[front.count] = place;
        front.count += 1;
        front.end += size;
    }
}
