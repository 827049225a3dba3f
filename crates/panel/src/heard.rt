// What a board heard.
ghost use Rattle.std.specs.Prelude.{◌<◌};

use exchanges::fitting::Size;
use labels::slip::Slip;

// What board p heard, in one exchange, or in the firm exchanges of a phase, of the claims and of the
// picks of each earlier phase. Each exchange fills a block of n rows of n slots.
#[derive(Drop)]
pub(crate) struct Heard<'a, L> {
    pub(crate) size: Size,
    pub(crate) blocks: &'a [Option<Slip<L>>],
    pub(crate) p: usize,
    ghost within: { p < size.boards },
}
