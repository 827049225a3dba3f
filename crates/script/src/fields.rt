// Single fields. A reader takes bytes and a place, and answers a value and the place after it; a
// writer puts bytes into a buffer at a place, and answers the place after them.
// Kept a pair, and no cursor: it is what the public `read_label` and `write_label` take and answer.
ghost use Rattle.std.specs.Prelude.{◌≡◌};
ghost use Rattle.labels.specs.Faults.{answered};
ghost use Rattle.script.specs.Entries.{slip, slip_bytes};
ghost use Rattle.script.specs.Fields.{byte, pair};
ghost use Rattle.script.specs.Passes.{Puts};

use crate::model::MOST_BYTES;
use labels::fault::{Fault, Reader};
use labels::label::Label;
use labels::reading::{read_label, write_label};
use labels::refusal::Refusal;
use labels::slip::Slip;

pub(crate) fn read_byte(reader: Reader, b: &[u8], p: usize) -> Result<(u8, usize), Fault>
    ensures { answered result ≡ byte reader b.now p }
{
    let Some(byte) = b.get(p) else {
        return Err(reader.fault_at(p, Refusal::InputEnds));
    };
    Ok((*byte, p + 1))
}

// Kept beside `read_byte`: a reader of any number of bytes would leave it to each call what they mean.
pub(crate) fn read_pair(reader: Reader, b: &[u8], p: usize) -> Result<(u16, usize), Fault>
    ensures { answered result ≡ pair reader b.now p }
{
    let Some(pair) = b.get(p..).and_then(|rest| rest.first_chunk::<2>()) else {
        return Err(reader.fault_at(p, Refusal::InputEnds));
    };
    Ok((u16::from_be_bytes(*pair), p + 2))
}

pub(crate) fn read_slip<L: Label>(b: &[u8], p: usize) -> Result<(Slip<L>, usize), Fault>
    ensures { answered result ≡ slip L.coding b.now p }
{
    let (phase, q) = read_byte(Reader::Record, b, p)?;
    let (label, r) = read_label(b, q)?;
    Ok((Slip { label, phase }, r))
}

pub(crate) fn put_bytes(bytes: &[u8], out: &mut [u8], at: usize) -> Result<usize, Fault>
    ensures { Puts bytes.now out.old at (answered result) out.new }
{
    if at > out.len() || out.len() - at < bytes.len() {
        return Err(Reader::Script.fault_at(MOST_BYTES, Refusal::ScriptTooLong));
    }
    out[at..at + bytes.len()].copy_from_slice(bytes);
    Ok(at + bytes.len())
}

pub(crate) fn put_label<L: Label>(label: L, out: &mut [u8], at: usize) -> Result<usize, Fault>
    ensures { Puts (L.coding.write label) out.old at (answered result) out.new }
{
    write_label(label, out, at).map_err(|_| Reader::Script.fault_at(
        MOST_BYTES,
        Refusal::ScriptTooLong,
    ))
}

pub(crate) fn put_slip<L: Label>(slip: Slip<L>, out: &mut [u8], at: usize) -> Result<usize, Fault>
    ensures { Puts (slip_bytes L.coding slip) out.old at (answered result) out.new }
{
    let next = put_bytes(&[slip.phase], out, at)?;
    put_label(slip.label, out, next)
}
