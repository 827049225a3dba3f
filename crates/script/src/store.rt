// The second pass over the records: it fills given memory.
// Kept apart from the first pass: one walk for both would need a trait with what each keeps and the room it
// needs, and be no shorter.
ghost use Rattle.std.specs.Prelude.{length};
ghost use Rattle.labels.specs.Faults.{answered};
ghost use Rattle.script.specs.Entries.{entries};
ghost use Rattle.script.specs.Header.{bad_map};
ghost use Rattle.script.specs.Passes.{Room, Stored};

use crate::model::{Header, Record};
use crate::records::{Turn, read_fixed};
use crate::rows::{Slips, fill_row};
use crate::tally::map_count;
use labels::fault::Fault;
use labels::label::Label;
use labels::slip::Slip;

// The records to the end and their slips, where all can be read and there is room.
pub(crate) fn fill_entries<L: Label>(
    head: Header,
    b: &[u8],
    start: usize,
    records: &mut [Record],
    slips: &mut [Slip<L>],
) -> Result<(), Fault>
    requires { Room (entries L.coding head.boards (bad_map head) (length b.now) 0 0 b.now start) (length records.old) (length slips.old) }
    ensures { Stored (entries L.coding head.boards (bad_map head) (length b.now) 0 0 b.now start) (answered result) records.old records.new slips.old slips.new }
{
    let mut p = start;
    let mut count = 0usize;
    let mut done = 0usize;
    let mut last = Turn::FIRST;
    // Kept a loop over places: how long a record is shows only when it is read.
    while p < b.len() {
        let (note, q) = read_fixed(head, last, b, p)?;
        let more = map_count(note.forged);
        records[count] = note;
        p = fill_row::<Slip<L>, Slips>(b, q, &mut slips[done..done + more])?;
        count += 1;
        done += more;
        last = note.turn();
    }
    Ok(())
}
