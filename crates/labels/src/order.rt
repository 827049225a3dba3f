// What can be ordered, with nothing said of bytes.
ghost use Rattle.std.specs.Prelude.{◌≡◌};
ghost use Rattle.std.specs.declared.cmp.Ordering.{Ordering};
ghost use Rattle.std.specs.Ordering.{is_eq, is_lt};
ghost use Rattle.labels.specs.Order.{Total};

use std::cmp::Ordering;

// Values with a total order.
pub trait Ordered: Copy {
    // how two values stand to each other
    ghost order: { Self → Self → Ordering };

    // Kept methods, and no bound `Ord`: a kind may be sorted by an `Ord` of its own, and voted on by another order.
    fn compare(self, other: Self) -> Ordering
        ensures { result ≡ order self other };

    fn is_below(self, other: Self) -> bool
        ensures { result ≡ is_lt (order self other) }
    {
        self.compare(other).is_lt()
    }

    // Kept as `compare` is.
    fn is_equal(self, other: Self) -> bool
        ensures { result ≡ is_eq (order self other) }
    {
        self.compare(other).is_eq()
    }

    ghost total: { Total order };
}
