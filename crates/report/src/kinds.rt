// A script in bytes, by the kind of its labels.
ghost use Rattle.report.specs.Unrun.{NotRefused};

use crate::error::ScriptError;
use crate::results::show;
use crate::trips::written_back;
use labels::frame_number::FrameNumber;
use labels::kind::Kind;
use labels::trigger_stamp::TriggerStamp;
use std::alloc::Global;

// The place of the label kind in a script.
const KIND_PLACE: usize = 2;

// The kind of labels that a script names. What names none is read as one of frame numbers.
fn kind_named(input: &[u8]) -> Kind {
    input
        .get(KIND_PLACE)
        .and_then(|number| Kind::try_from(*number).ok())
        .unwrap_or(Kind::Frames)
}

// Runs the script in the bytes, and prints the phases run and each board's state and verdict, or the
// fault. What names no kind of labels is read as one of frame numbers.
pub fn show_script(rt: &HostRuntime, input: &[u8]) -> anyhow::Result<()> {
    match kind_named(input) {
        Kind::Frames => show::<FrameNumber>(rt, input),
        Kind::Stamps => show::<TriggerStamp>(rt, input),
    }
}

// Whether the script in the bytes, written to an output of so many bytes, is the same again; or the
// fault of reading or writing it.
// Kept beside `show_script`: what a kind chooses is a type, over which no closure is generic.
pub fn restored(heap: Global, input: &[u8], size: usize) -> Result<bool, ScriptError>
    ensures { NotRefused result }
{
    match kind_named(input) {
        Kind::Frames => written_back::<FrameNumber>(heap, input, size),
        Kind::Stamps => written_back::<TriggerStamp>(heap, input, size),
    }
}
