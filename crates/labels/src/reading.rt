// Labels at a place of a longer input or output.
ghost use Rattle.std.specs.Prelude.{◌≡◌};
ghost use Rattle.labels.specs.Coding.{read_at, write_at, written, RoundTrips};
ghost use Rattle.labels.specs.Faults.{answered};

use crate::fault::{Fault, Reader};
use crate::label::Label;
use crate::refusal::Refusal;

// The label at a place, and the place after it.
pub fn read_label<L: Label>(input: &[u8], place: usize) -> Result<(L, usize), Fault>
    ensures value { answered result ≡ read_at L.coding input.now place }
    ensures trips { RoundTrips L.coding }
{
    let width = L::WIDTH;
    // Kept a test: the end of a range, `place + width`, could pass the largest number.
    if input.len().saturating_sub(place) < width {
        return Err(Reader::Label.fault_at(place, Refusal::InputEnds));
    }
    let end = place + width;
    let no_label = Reader::Label.fault_at(place, Refusal::NoLabel);
    let label = L::from_bytes(&input[place..end]).ok_or(no_label)?;
    Ok((label, end))
}

// Writes a label at a place, and answers the place after it; bytes before and after stay as they are.
pub fn write_label<L: Label>(label: L, output: &mut [u8], place: usize) -> Result<usize, Fault>
    ensures value { answered result ≡ write_at L.coding label output.old place }
    ensures after { output.new ≡ written L.coding label output.old place }
{
    let width = L::WIDTH;
    if output.len().saturating_sub(place) < width {
        return Err(Reader::Label.fault_at(output.len(), Refusal::OutputTooShort));
    }
    let end = place + width;
    let _ = label.to_bytes(&mut output[place..end]);
    Ok(end)
}
