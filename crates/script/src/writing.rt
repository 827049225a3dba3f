// The script writer: it forms the bytes, reads them, and only then puts them out.
ghost use Rattle.std.specs.Prelude.{◌≡◌, length};
ghost use Rattle.labels.specs.Faults.{answered};
ghost use Rattle.script.specs.Memory.{lists_of, formed, last_checks, writes, written, ReadsBack};

use crate::forming::form;
use crate::model::{MOST_BYTES, Script};
use crate::reading::survey;
use labels::fault::{Fault, Reader};
use labels::label::Label;
use labels::refusal::Refusal;

// What is still refused of bytes that the reader takes: missing records, then too short an output.
fn check_last(count: usize, there: usize, bytes: usize, size: usize) -> Result<(), Fault>
    ensures { answered result ≡ last_checks count there bytes size }
{
    if there < count {
        return Err(Reader::Record.fault_at(bytes, Refusal::InputEnds));
    }
    if size < bytes {
        return Err(Reader::Script.fault_at(size, Refusal::OutputTooShort));
    }
    Ok(())
}

// Writes the bytes of the script in memory, and answers how many there are. What the reader would
// refuse is refused by the same fault; bytes past those written, and all of them on a refusal, stay
// as they are. Reading what was written restores the script.
pub fn write<L: Label>(script: Script<L>, output: &mut [u8]) -> Result<usize, Fault>
    ensures value { answered result ≡ writes L.coding script.entry.head script.entry.count (lists_of script.entry) (length output.old) }
    ensures after { output.new ≡ written (answered result) (formed L.coding script.entry.head script.entry.count (lists_of script.entry)) output.old }
    ensures trip { ReadsBack L.coding }
{
    // Kept a fixed buffer, as long as the longest script: there is no heap here to grow it on.
    let mut buffer = [0u8; MOST_BYTES];
    let size = form(script, &mut buffer)?;
    let _ = survey::<L>(&buffer[..size])?;
    check_last(script.count, script.records.len(), size, output.len())?;
    output[..size].copy_from_slice(&buffer[..size]);
    Ok(size)
}
