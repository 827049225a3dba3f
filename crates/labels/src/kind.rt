// The kinds of labels, by number.
ghost use Rattle.std.specs.Prelude.{◌≡◌, ◌++◌, Some, codes, decimal};
ghost use Rattle.labels.specs.KindNumbers.{kind_row, Decodes};

use std::error::Error;
use std::fmt;

#[derive(Clone, Copy, PartialEq, Eq, Debug)]
pub enum Kind {
    Frames = 1,
    Stamps = 2,
}

// A number that is no kind's.
#[derive(Clone, Copy, PartialEq, Eq, Debug)]
pub struct UnknownKind(pub u8);

impl Kind {
    // The number of the kind, by which scripts name it.
    pub fn number(self) -> u8
        ensures { result ≡ kind_row self }
    {
        self as u8
    }
}

impl TryFrom<u8> for Kind {
    type Error = UnknownKind;

    ghost try_from_gives = { Decodes };

    fn try_from(number: u8) -> Result<Self, UnknownKind> {
        match number {
            1 => Ok(Kind::Frames),
            2 => Ok(Kind::Stamps),
            _ => Err(UnknownKind(number)),
        }
    }
}

// As in `no labels of kind 7`.
impl fmt::Display for UnknownKind {
    ghost output = { λ k. Some (codes "no labels of kind " ++ decimal k.0) };

    fn fmt<W: fmt::Write>(&self, f: &mut fmt::Formatter<W>) -> fmt::Result {
        let number = self.0;
        write!(f, "no labels of kind {number}")
    }
}

impl Error for UnknownKind {}
