// The reader of a record's five fields.
ghost use Rattle.std.specs.Prelude.{◌≡◌, ◌^◌, nat_lt};
ghost use Rattle.labels.specs.Faults.{answered};
ghost use Rattle.script.specs.Entries.{later, forger, maps, fixed};
ghost use Rattle.script.specs.Header.{bad_map};

use crate::fields::{read_byte, read_pair};
use crate::model::{Header, Record};
use exchanges::maps::has;
use labels::fault::{Fault, Reader};
use labels::refusal::Refusal;

// When a record takes effect: in what round, and for which sender.
#[derive(Clone, Copy, PartialEq, Eq, PartialOrd, Ord)]
pub(crate) struct Turn {
    pub(crate) round: u16,
    pub(crate) sender: u8,
}

impl Turn {
    // Before that of every record.
    pub(crate) const FIRST: Turn = Turn {
        round: 0,
        sender: 0,
    };
}

impl Record {
    // Its turn.
    pub(crate) fn turn(self) -> Turn
        ensures { result ≡ record { round = self.round; sender = self.sender } }
    {
        Turn {
            round: self.round,
            sender: self.sender,
        }
    }
}

// Whether a record comes after the one before, and its round is not 0.
// Kept a test: by the derived order alone a record of round 0 could come first.
fn is_later(last: Turn, next: Turn) -> bool
    ensures { result ≡ later last.round last.sender next.round next.sender }
{
    next.round > 0 && last < next
}

// Whether a map names only boards below n.
pub(crate) fn is_within(map: u8, n: u8) -> bool
    ensures { result ≡ nat_lt map (2 ^ n) }
{
    n >= 8 || map < 1 << n
}

// Whether the sender may forge to the boards of this map.
fn may_forge(bad: u8, sender: u8, forged: u8) -> bool
    ensures { result ≡ forger bad sender forged }
{
    forged == 0 || has(bad, usize::from(sender))
}

// What is checked at the forged map, which stands at this place.
fn check_maps(head: Header, note: Record, place: usize) -> Result<(), Fault>
    ensures { answered result ≡ maps head.boards (bad_map head) note.sender note.lost note.forged place }
{
    let Record {
        sender,
        lost,
        forged,
        ..
    } = note;
    if !is_within(forged, head.boards) {
        return Err(Reader::Record.fault_at(place, Refusal::NoBoardOfRecord));
    }
    if lost == 0 && forged == 0 {
        return Err(Reader::Record.fault_at(place, Refusal::EmptyRecord));
    }
    if lost & forged != 0 {
        return Err(Reader::Record.fault_at(place, Refusal::LostAndForged));
    }
    if !may_forge(head.bad_boards(), sender, forged) {
        return Err(Reader::Record.fault_at(place, Refusal::SoundForger));
    }
    Ok(())
}

// The five fields of a record, after the record of this turn.
pub(crate) fn read_fixed(
    head: Header,
    last: Turn,
    b: &[u8],
    p: usize,
) -> Result<(Record, usize), Fault>
    ensures { answered result ≡ fixed head.boards (bad_map head) last.round last.sender b.now p }
{
    let (round, p1) = read_pair(Reader::Record, b, p)?;
    let (sender, p2) = read_byte(Reader::Record, b, p1)?;
    if !is_later(last, Turn { round, sender }) {
        return Err(Reader::Record.fault_at(p, Refusal::RecordOrder));
    }
    if sender >= head.boards {
        return Err(Reader::Record.fault_at(p1, Refusal::NoBoardOfRecord));
    }
    let (lost, p3) = read_byte(Reader::Record, b, p2)?;
    if !is_within(lost, head.boards) {
        return Err(Reader::Record.fault_at(p2, Refusal::NoBoardOfRecord));
    }
    let (forged, p4) = read_byte(Reader::Record, b, p3)?;
    let note = Record {
        round,
        sender,
        lost,
        forged,
    };
    check_maps(head, note, p3)?;
    Ok((note, p4))
}
