// A kind that is sorted one way, and voted on the other way: what a label owes is an order, and no `Ord`.
ghost use Rattle.labels_tests.specs.Ranks.{rank_order, rank_total};

use labels::frame_number::FrameNumber;
use labels::order::Ordered;
use std::cmp::Ordering;

#[derive(Clone, Copy, PartialEq, Eq, PartialOrd, Ord, Debug)]
pub struct Rank {
    pub frame: FrameNumber,
}

impl Ordered for Rank {
    ghost order = { rank_order };

    ghost total = { rank_total };

    // The later frame comes first.
    // Kept a method: it is what the derived comparison is not.
    fn compare(self, other: Rank) -> Ordering {
        other.frame.compare(self.frame)
    }
}
