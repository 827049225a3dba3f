// The trees of all boards, in memory that is lent, and the rounds that fill them.
ghost use Rattle.std.specs.Prelude.{◌*◌, ◌≤◌, length};

use crate::path::Shape;

// The trees one after another, board by board; what is behind them is left as it is.
#[derive(Drop)]
pub(crate) struct Trees<'a, I> {
    pub(crate) shape: Shape,
    pub(crate) slots: &'a mut [Option<I>],
    ghost holds: { shape.n * shape.size ≤ length slots.now },
}

// The rounds of a firm exchange under way: what each board sends goes over the backplane into the trees.
// Kept flat: the slots of a `Trees` in here were lent out of a struct in a struct, and got no generated proof.
#[derive(Drop)]
pub(crate) struct Rounds<'a, 'o, 'p, I, B> {
    pub(crate) shape: Shape,
    pub(crate) plane: &'p mut B,
    pub(crate) own: &'o [Option<I>],
    pub(crate) slots: &'a mut [Option<I>],
    ghost sends: { shape.n ≤ length own.now },
    ghost holds: { shape.n * shape.size ≤ length slots.now },
}
