// Where and why an input is refused.
ghost use Rattle.std.specs.Prelude.{◌≡◌, Some};
ghost use Rattle.labels.specs.Faults.{word, numbered, line};
ghost use Rattle.labels.specs.Refusals.{row};

use crate::refusal::Refusal;
use std::error::Error;
use std::fmt;

// which reader refused
#[derive(Clone, Copy, PartialEq, Eq, Debug)]
pub enum Reader {
    Label,
    Record,
    Script,
}

// a refusal, the place of the first byte of the field that it is about, and the reader
#[derive(Clone, Copy, PartialEq, Eq, Debug)]
pub struct Fault {
    pub refusal: Refusal,
    pub place: usize,
    pub reader: Reader,
}

impl Reader {
    pub fn word(self) -> &'static str
        ensures { result.now ≡ word self }
    {
        match self {
            Reader::Label => "label",
            Reader::Record => "record",
            Reader::Script => "script",
        }
    }

    // The fault of this reader for a refusal at a place.
    pub fn fault_at(self, place: usize, refusal: Refusal) -> Fault
        ensures { numbered result ≡ (row refusal, place, self) }
    {
        Fault {
            refusal,
            place,
            reader: self,
        }
    }
}

// A reader is printed as its word.
impl fmt::Display for Reader {
    ghost output = { λ r. Some (word r) };

    fn fmt<W: fmt::Write>(&self, f: &mut fmt::Formatter<W>) -> fmt::Result {
        f.write_str(self.word())
    }
}

// As in `fault 16 at 12 in label`.
impl fmt::Display for Fault {
    ghost output = { λ f. Some (line f) };

    fn fmt<W: fmt::Write>(&self, f: &mut fmt::Formatter<W>) -> fmt::Result {
        let refusal = self.refusal;
        let place = self.place;
        let reader = self.reader;
        write!(f, "fault {refusal} at {place} in {reader}")
    }
}

impl Error for Fault {}
