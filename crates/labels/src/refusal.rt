// What a call answers when it refuses.
ghost use Rattle.std.specs.Prelude.{◌≡◌, Some, decimal};
ghost use Rattle.labels.specs.Refusals.{row, RowsDiffer};

use std::error::Error;
use std::fmt;

// One answer for each thing that is refused, for all calls of the project. Where several fit, the
// one with the lowest number is given.
#[derive(Clone, Copy, PartialEq, Eq, Debug)]
pub enum Refusal {
    // the panel is fitted already
    AlreadyFitted = 1,
    // no boards or more than seven, or too many faults for them
    BadCounts = 2,
    // the panel is not fitted
    NotFitted = 3,
    // the board number is not below the number of boards
    NoSuchBoard = 4,
    // a proposal after a phase has run
    PhaseHasRun = 5,
    // a second proposal of one board
    AlreadyProposed = 6,
    // a phase before every board has proposed
    ProposalMissing = 7,
    // a ninth phase
    PhasesSpent = 8,
    // an exchange for another number of boards or faults
    OtherCounts = 9,
    // given memory is too short
    MemoryTooShort = 10,
    // the round number would pass the last one
    RoundLimit = 11,
    // a script of too many bytes
    ScriptTooLong = 12,
    // the input ends inside or before a field that is due
    InputEnds = 13,
    // a field before the proposals is out of its range
    FieldOutOfRange = 14,
    // a header field stands although it has its default
    DefaultStands = 15,
    // bytes that are no label's
    NoLabel = 16,
    // a record of round 0, or not after the one before
    RecordOrder = 17,
    // a record names a board that there is not
    NoBoardOfRecord = 18,
    // a record with nothing lost and nothing forged
    EmptyRecord = 19,
    // a record with a board both lost and forged to
    LostAndForged = 20,
    // a record in which a sound board forges
    SoundForger = 21,
    // the output is too short
    OutputTooShort = 22,
}

impl Refusal {
    // The number of the refusal, by which it is documented and printed.
    pub fn number(self) -> u8
        ensures value { result ≡ row self }
        ensures distinct { RowsDiffer }
    {
        self as u8
    }
}

// A refusal is printed as its number.
impl fmt::Display for Refusal {
    ghost output = { λ r. Some (decimal (row r)) };

    fn fmt<W: fmt::Write>(&self, f: &mut fmt::Formatter<W>) -> fmt::Result {
        let number = self.number();
        write!(f, "{number}")
    }
}

impl Error for Refusal {}
