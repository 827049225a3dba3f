// The bytes of a script in memory, formed in a buffer.
ghost use Rattle.std.specs.Prelude.{◌≡◌};
ghost use Rattle.labels.specs.Faults.{answered};
ghost use Rattle.script.specs.Entries.{fixed_bytes, entry_bytes};
ghost use Rattle.script.specs.Fields.{joined};
ghost use Rattle.script.specs.Header.{header_map, header_bytes, listed};
ghost use Rattle.script.specs.Memory.{lists_of, with_slips, formed};
ghost use Rattle.script.specs.Passes.{Puts};

use crate::fields::put_bytes;
use crate::model::{Header, Record, Script};
use crate::rows::{Labels, Slips, put_row};
use crate::tally::map_count;
use labels::fault::Fault;
use labels::label::Label;
use labels::slip::Slip;

fn put_field(field: Option<u8>, out: &mut [u8], at: usize) -> Result<usize, Fault>
    ensures { Puts (listed field) out.old at (answered result) out.new }
{
    put_bytes(field.as_slice(), out, at)
}

// The map of the header fields that stand.
fn fields_map(head: Header) -> u8
    ensures { result ≡ header_map head }
{
    u8::from(head.faults.is_some())
        + 2 * u8::from(head.bad.is_some())
        + 4 * u8::from(head.phases.is_some())
}

fn put_header(kind: u8, head: Header, out: &mut [u8]) -> Result<usize, Fault>
    ensures { Puts (header_bytes kind head) out.old 0 (answered result) out.new }
{
    let start = put_bytes(&[1, head.boards, kind, fields_map(head)], out, 0)?;
    let next = put_field(head.faults, out, start)?;
    let last = put_field(head.bad, out, next)?;
    put_field(head.phases, out, last)
}

fn put_fixed(note: Record, out: &mut [u8], at: usize) -> Result<usize, Fault>
    ensures { Puts (fixed_bytes note) out.old at (answered result) out.new }
{
    let [high, low] = note.round.to_be_bytes();
    put_bytes(&[high, low, note.sender, note.lost, note.forged], out, at)
}

// The records, each with its slips, to where the slips end too soon.
fn put_records<L: Label>(
    records: &[Record],
    slips: &[Slip<L>],
    out: &mut [u8],
    at: usize,
) -> Result<usize, Fault>
    ensures { Puts (joined (entry_bytes L.coding) (with_slips records.now slips.now)) out.old at (answered result) out.new }
{
    let mut p = at;
    let mut rest = slips;
    for note in records {
        let due = map_count(note.forged);
        let (own, left) = rest.split_at(due.min(rest.len()));
        let q = put_fixed(*note, out, p)?;
        p = put_row::<Slip<L>, Slips>(own, out, q)?;
        if own.len() < due {
            return Ok(p);
        }
        rest = left;
    }
    Ok(p)
}

// The bytes of the script in memory, to where a list ends too soon; answers how many there are, or
// that they pass the end of the buffer.
pub(crate) fn form<L: Label>(script: Script<L>, out: &mut [u8]) -> Result<usize, Fault>
    ensures { Puts (formed L.coding script.entry.head script.entry.count (lists_of script.entry)) out.old 0 (answered result) out.new }
{
    let start = put_header(L::KIND, script.head, out)?;
    let n = usize::from(script.head.boards);
    let there = n.min(script.proposals.len());
    let rest = put_row::<L, Labels>(&script.proposals[..there], out, start)?;
    if there < n {
        return Ok(rest);
    }
    let records = &script.records[..script.count.min(script.records.len())];
    put_records(records, script.slips, out, rest)
}
