// The script reader: a pass that checks all, and a pass that fills.
ghost use Rattle.std.specs.Prelude.{◌≡◌};
ghost use Rattle.labels.specs.Faults.{answered};
ghost use Rattle.script.specs.Memory.{lists, reads, filled, WritesBack};
ghost use Rattle.script.specs.Passes.{surveyed};
ghost use Rattle.script.specs.Script.{decode};

use crate::heads::read_header;
use crate::model::{Header, MOST_BYTES, Record};
use crate::rows::{Labels, fill_row, skip_row};
use crate::store::fill_entries;
use crate::survey::Survey;
use crate::tally::count_entries;
use labels::fault::{Fault, Reader};
use labels::label::Label;
use labels::refusal::Refusal;
use labels::slip::Slip;

// The first pass: every fault but that of memory.
pub(crate) fn survey<L: Label>(input: &[u8]) -> Result<Survey, Fault>
    ensures { answered result ≡ surveyed L.coding input.now }
{
    if input.len() > MOST_BYTES {
        return Err(Reader::Script.fault_at(MOST_BYTES, Refusal::ScriptTooLong));
    }
    let (head, start) = read_header(L::KIND, input, 0)?;
    let rest = skip_row::<L, Labels>(usize::from(head.boards), input, start)?;
    let (records, slips) = count_entries::<L>(head, input, rest)?;
    Ok(Survey {
        head,
        start,
        rest,
        records,
        slips,
    })
}

// Reads a script into three lists, and answers its header and how many records it has. Entries past
// those due stay as they are; a refusal leaves all three lists as they are. Writing what was read
// restores its bytes.
pub fn read<L: Label>(
    input: &[u8],
    proposals: &mut [L],
    records: &mut [Record],
    slips: &mut [Slip<L>],
) -> Result<(Header, usize), Fault>
    ensures value { answered result ≡ reads L.coding input.now (lists proposals.old records.old slips.old) }
    ensures after { lists proposals.new records.new slips.new ≡ filled (decode L.coding input.now) (lists proposals.old records.old slips.old) }
    ensures trip { WritesBack L.coding }
{
    let found = survey::<L>(input)?;
    let n = usize::from(found.head.boards);
    if proposals.len() < n || records.len() < found.records || slips.len() < found.slips {
        return Err(Reader::Script.fault_at(input.len(), Refusal::MemoryTooShort));
    }
    let _ = fill_row::<L, Labels>(input, found.start, &mut proposals[..n])?;
    fill_entries::<L>(found.head, input, found.rest, records, slips)?;
    Ok((found.head, found.records))
}
