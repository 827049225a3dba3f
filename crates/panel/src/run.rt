// What the steps of a phase work with.
ghost use Rattle.std.specs.Prelude.{◌≡◌, ◌*◌, length};
ghost use Rattle.panel.specs.Steps.{Ready};

use crate::phase::Phase;
use exchanges::exchange::Exchange;
use labels::slip::Slip;

// A phase under way, with the exchange that it asks and the memory that is lent to it. The firm
// exchanges fill the blocks, with the row to send in `heard`; the plain ones fill `heard`, with the
// row to send in the blocks.
#[derive(Drop)]
pub(crate) struct Run<'a, 'e, L, E: Exchange<Slip<L>>> {
    pub(crate) phase: Phase,
    pub(crate) exchange: &'e mut E,
    pub(crate) heard: &'a mut [Option<Slip<L>>],
    pub(crate) blocks: &'a mut [Option<Slip<L>>],
    pub(crate) work: &'a mut [Option<Slip<L>>],
    ghost square: { length heard.now ≡ phase.size.boards * phase.size.boards },
    ghost room: { length blocks.now ≡ 8 * (phase.size.boards * phase.size.boards) },
    ghost ready: { Ready (E.meaning exchange.now) phase.size.boards (length work.now) },
}
