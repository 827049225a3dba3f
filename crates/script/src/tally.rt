// The first pass over the records: it checks them all and counts what memory they want.
ghost use Rattle.std.specs.Prelude.{◌≡◌, ◌≤◌, length, count_ones};
ghost use Rattle.labels.specs.Faults.{answered};
ghost use Rattle.script.specs.Entries.{entry, entries};
ghost use Rattle.script.specs.Header.{bad_map};
ghost use Rattle.script.specs.Passes.{noted, counted};

use crate::model::{Header, Record};
use crate::records::{Turn, read_fixed};
use crate::rows::{Slips, skip_row};
use labels::fault::Fault;
use labels::label::Label;
use labels::slip::Slip;

// How many boards a map names.
pub(crate) fn map_count(map: u8) -> usize
    ensures value { result ≡ count_ones map }
    ensures bound { result ≤ 8 }
{
    // Kept a cast: no `From` takes a `u32` to a `usize`.
    map.count_ones() as usize
}

// A record, past its slips.
pub(crate) fn skip_entry<L: Label>(
    head: Header,
    last: Turn,
    b: &[u8],
    p: usize,
) -> Result<(Record, usize), Fault>
    ensures { answered result ≡ noted (entry L.coding head.boards (bad_map head) last.round last.sender b.now p) }
{
    let (note, q) = read_fixed(head, last, b, p)?;
    let end = skip_row::<Slip<L>, Slips>(map_count(note.forged), b, q)?;
    Ok((note, end))
}

// How many records there are to the end, and how many slips they forge.
pub(crate) fn count_entries<L: Label>(
    head: Header,
    b: &[u8],
    start: usize,
) -> Result<(usize, usize), Fault>
    ensures { answered result ≡ counted (entries L.coding head.boards (bad_map head) (length b.now) 0 0 b.now start) }
{
    let mut p = start;
    let mut count = 0usize;
    let mut slips = 0usize;
    let mut last = Turn::FIRST;
    // Kept a loop over places: how long a record is shows only when it is read.
    while p < b.len() {
        let (note, end) = skip_entry::<L>(head, last, b, p)?;
        count += 1;
        slips += map_count(note.forged);
        last = note.turn();
        p = end;
    }
    Ok((count, slips))
}
