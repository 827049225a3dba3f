// A script read and written again.
ghost use Rattle.report.specs.Unrun.{NotRefused};

use crate::error::ScriptError;
use crate::stored::{Blank, Stored};
use std::alloc::Global;

// Whether the script in the bytes, written to an output of so many bytes, is the same again; or the
// fault of reading or writing it.
pub(crate) fn written_back<L: Blank>(
    heap: Global,
    input: &[u8],
    size: usize,
) -> Result<bool, ScriptError>
    ensures { NotRefused result }
{
    let mut output = vec![in heap; 0u8; size]?;
    let script: Stored<L> = Stored::read(heap, input)?;
    script.write(&mut output)?;
    Ok(output.as_slice() == input)
}
