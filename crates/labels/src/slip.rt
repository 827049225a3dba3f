// What a board says in one exchange.
ghost use Rattle.labels.specs.Slip.{same_slip};
ghost use Rattle.labels.specs.Slips.{slips_tell};

use crate::item::Item;
use crate::order::Ordered;

// A label with the number of the phase under which it was said; a proposal has number 0.
// A slot is an `Option<Slip<L>>`: `None` is silence, which means that no slip came.
#[derive(Clone, Copy, PartialEq, Eq, Debug)]
pub struct Slip<L> {
    pub label: L,
    pub phase: u8,
}

// Two slips are the same when both parts are.
impl<L: Ordered> Item for Slip<L> {
    ghost same = { same_slip L.order };

    ghost tells = { slips_tell L.Ordered.total };

    // Kept in words: a label owes no `==`, and its order says what is the same.
    fn is_same(self, other: Slip<L>) -> bool {
        self.label.is_equal(other.label) && self.phase == other.phase
    }
}
