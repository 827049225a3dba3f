// The reduction of the trees, path by path.
ghost use Rattle.std.specs.Prelude.{◌≡◌, ◌+◌, ◌-◌, ◌*◌, ◌<◌, ◌≤◌, length, take, drop, fold, count_by};
ghost use Rattle.exchanges.specs.Trees.{holds, picked};
ghost use Rattle.exchanges.specs.Slots.{trail, settle, spots_on, spots, reduced_down};
ghost use Rattle.exchanges.specs.Lent.{GoesOn};

use crate::path::Path;
use crate::trees::Trees;
use labels::item::Item;

// Whether a slot holds the item.
fn holds_item<I: Item>(slot: Option<I>, x: I) -> bool
    ensures { result ≡ holds I.same x slot }
{
    slot.is_some_and(|y| x.is_same(y))
}

// How many slots hold the item.
fn holding<I: Item>(slots: &[Option<I>], x: I) -> usize
    ensures { result ≡ count_by (holds I.same x) slots.now }
{
    slots.iter().filter(|slot| holds_item(**slot, x)).count()
}

// The first item that at least `need` of the slots hold, or silence.
fn settled<I: Item>(slots: &[Option<I>], need: usize) -> Option<I>
    ensures { result ≡ picked I.same need slots.now slots.now }
{
    slots
        .iter()
        .filter_map(|slot| *slot)
        .find(|x| need <= holding(slots, *x))
}

// The same over `len` slots from `first`.
// Kept apart: a call in `reduce_at` that lends a part of the slots gets no generated proof.
fn settled_in<I: Item>(slots: &[Option<I>], first: usize, len: usize, need: usize) -> Option<I>
    requires { first + len ≤ length slots.now }
    ensures { result ≡ picked I.same need (take len (drop first slots.now)) (take len (drop first slots.now)) }
{
    settled(&slots[first..first + len], need)
}

impl<I: Item> Trees<'_, I> {
    // Board p's slot of a path gets what its children settle on.
    // Kept a clause: a path bears its shape, and the trees theirs, which are one.
    fn reduce_at(&mut self, p: usize, path: Path)
        requires alike { path.shape ≡ self.old.shape }
        requires board { p < path.shape.n }
        requires short { (1 ≤ path.len) × (path.len ≤ path.shape.t) }
        ensures kept { GoesOn self.old self.new }
        ensures slots { self.new.slots.now ≡ settle I.same path.shape.n path.shape.t path.shape.size self.old.slots.now (record { board = p; path = trail path.boards path.len }) }
    {
        let shape = path.shape;
        let off = shape.n - path.len();
        let first = p * shape.size + path.children();
        let slots = &mut *self.slots;
        let item = settled_in(slots, first, off, off - shape.t);
        slots[p * shape.size + path.place()] = item;
    }

    // A path reduced for every board.
    // Kept a clause, as in `reduce_at`.
    fn reduce_on(&mut self, path: Path)
        requires alike { path.shape ≡ self.old.shape }
        requires short { (1 ≤ path.len) × (path.len ≤ path.shape.t) }
        ensures kept { GoesOn self.old self.new }
        ensures slots { self.new.slots.now ≡ fold (settle I.same path.shape.n path.shape.t path.shape.size) self.old.slots.now (spots_on path.shape.n (trail path.boards path.len)) }
    {
        for p in 0..path.shape.n {
            self.reduce_at(p, path);
        }
    }

    // All paths of k boards reduced, for every board.
    fn reduce_level(&mut self, k: usize)
        requires short { (1 ≤ k) × (k ≤ self.old.shape.t) }
        ensures kept { GoesOn self.old self.new }
        ensures slots { self.new.slots.now ≡ fold (settle I.same self.old.shape.n self.old.shape.t self.old.shape.size) self.old.slots.now (spots self.old.shape.n k) }
    {
        for i in 0..self.shape.paths(k) {
            self.reduce_on(Path::at(self.shape, k, i));
        }
    }

    // The paths of length t down to 1 reduced, for every board.
    pub(crate) fn reduce_all(&mut self)
        ensures kept { GoesOn self.old self.new }
        ensures slots { self.new.slots.now ≡ reduced_down I.same self.old.shape.n self.old.shape.t self.old.shape.size self.old.slots.now self.old.shape.t }
    {
        let t = self.shape.t;
        // Kept counting up: the definition says what j levels come to.
        for j in 0..t {
            self.reduce_level(t - j);
        }
    }
}
