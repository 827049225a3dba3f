// The tree exchange: a firm exchange of t + 1 rounds over any backplane, for any kind of item.
ghost use Rattle.std.specs.Prelude.{◌≡◌, ◌+◌, ◌*◌, ◌<◌, ◌≤◌, ◌||◌, [], ◌∷◌, ◌++◌, length, take, drop, if◌then◌else◌, None, nat_lt, slice_index_or};
ghost use Rattle.exchanges.specs.Boards.{fits};
ghost use Rattle.exchanges.specs.Plane.{last_round};
ghost use Rattle.exchanges.specs.Asked.{due, short, FirmAsked};
ghost use Rattle.exchanges.specs.Ran.{Ran};
ghost use Rattle.exchanges.specs.Trees.{tree_size, grid, filled, reduced, workspace, tree_run, tree_meaning, tree_exchange};
ghost use Rattle.exchanges.specs.TreeLaws.{TreeLaws};
ghost use Rattle.exchanges.specs.Carries.{InOrder};
ghost use Rattle.exchanges.specs.Worked.{AllRight, cases};
ghost use Rattle.exchanges.specs.Left.{Left};
ghost use Rattle.exchanges.specs.Lent.{RoundsGoOn};
ghost use Rattle.exchanges.specs.Keep.{trees_keep};

use crate::backplane::Backplane;
use crate::exchange::Exchange;
use crate::fitting::Size;
use crate::path::Shape;
use crate::plain::{may_begin, plain_over, too_short};
use crate::trees::{Rounds, Trees};
use labels::item::Item;
use labels::refusal::Refusal;

impl<I: Copy> Trees<'_, I> {
    // What each board heard from each other: the slots of the paths of one board, which stand first in its tree.
    fn hear(&self, heard: &mut [Option<I>])
        requires { self.now.shape.n * self.now.shape.n ≤ length heard.old }
        ensures { heard.new ≡ grid self.now.shape.n (λ p q. slice_index_or self.now.slots.now (p * self.now.shape.size + q) None) ++ drop (self.now.shape.n * self.now.shape.n) heard.old }
    {
        let Shape { n, size, .. } = self.shape;
        // Kept by place: after `chunks_mut` a proof knows no element.
        for p in 0..n {
            let row = &self.slots[p * size..p * size + n];
            heard[p * n..p * n + n].copy_from_slice(row);
        }
    }
}

impl<I: Item, B: Backplane<I>> Rounds<'_, '_, '_, I, B> {
    // The rounds, the reduction, and what is heard.
    fn run(&mut self, heard: &mut [Option<I>])
        requires heard { self.old.shape.n * self.old.shape.n ≤ length heard.old }
        requires timely { (B.plane self.old.plane.now).round + (self.old.shape.t + 1) ≤ last_round }
        ensures kept { RoundsGoOn self.old self.new }
        ensures plane { B.plane self.new.plane.now ≡ (filled self.old.shape.n (self.old.shape.t + 1) (B.plane self.old.plane.now) (take self.old.shape.n self.old.own.now)).plane }
        ensures heard { heard.new ≡ grid self.old.shape.n (λ p q. reduced I.same self.old.shape.n self.old.shape.t (filled self.old.shape.n (self.old.shape.t + 1) (B.plane self.old.plane.now) (take self.old.shape.n self.old.own.now)).trees self.old.shape.t p (q ∷ [])) ++ drop (self.old.shape.n * self.old.shape.n) heard.old }
        ensures work { self.new.slots.now ≡ workspace I.same self.old.shape.n self.old.shape.t (filled self.old.shape.n (self.old.shape.t + 1) (B.plane self.old.plane.now) (take self.old.shape.n self.old.own.now)).trees ++ drop (self.old.shape.n * self.old.shape.size) self.old.slots.now }
    {
        self.gather();
        let shape = self.shape;
        let slots = &mut *self.slots;
        let mut trees = Trees { shape, slots };
        trees.reduce_all();
        trees.hear(heard);
    }
}

// How many slots the trees of all boards take; none where the counts do not fit.
fn slots_needed(boards: u8, faults: u8) -> usize
    ensures { result ≡ (if fits boards faults then boards * tree_size boards faults else 0) }
{
    Size::new(boards, faults).map_or(0, |size| Shape::new(size).slots())
}

// Whether what is sent, heard or worked in has too few places.
fn lacks_room<I>(
    boards: u8,
    faults: u8,
    sent: &[Option<I>],
    heard: &[Option<I>],
    work: &[Option<I>],
) -> bool
    ensures { result ≡ (short boards sent.now heard.now || nat_lt (length work.now) (if fits boards faults then boards * tree_size boards faults else 0)) }
{
    too_short(boards, sent, heard) || work.len() < slots_needed(boards, faults)
}

// A firm exchange by trees over the backplane.
pub(crate) fn firm_over<I: Item, B: Backplane<I>>(
    b: &mut B,
    faults: u8,
    sent: &[Option<I>],
    heard: &mut [Option<I>],
    work: &mut [Option<I>],
) -> Result<(), Refusal>
    ensures ran { Ran B.plane (tree_run I.same faults) b.old b.new sent.now (due (B.plane b.old).boards faults (short (B.plane b.old).boards sent.now heard.old || nat_lt (length work.old) (tree_meaning I.same faults (B.plane b.old)).workspace) (B.plane b.old).round (faults + 1)) heard.old heard.new result }
    ensures left { Left I.same faults (B.plane b.old) sent.now work.old work.new result }
{
    let boards = b.boards();
    let short = lacks_room(boards, faults, sent, heard, work);
    let size = may_begin(boards, faults, short, b.round(), u16::from(faults) + 1)?;
    let mut rounds = Rounds {
        shape: Shape::new(size),
        plane: b,
        own: sent,
        slots: work,
    };
    rounds.run(heard);
    Ok(())
}

#[derive(Drop)]
pub struct Tree<B> {
    plane: B,
    faults: u8,
}

impl<B> Tree<B> {
    // The tree exchange over a backplane, that bears so many bad boards.
    pub fn new(plane: B, faults: u8) -> Self
        ensures made { (result.plane ≡ plane) × (result.faults ≡ faults) }
        ensures order { InOrder }
        ensures worked { AllRight cases }
    {
        Tree { plane, faults }
    }

    // The backplane, given back.
    pub fn into_plane(self) -> B
        ensures { result ≡ self.plane }
    {
        let Tree { plane, faults: _ } = self;
        plane
    }
}

impl<I: Item, B: Backplane<I>> Exchange<I> for Tree<B> {
    ghost meaning = { tree_exchange I.same B.plane };

    ghost keeps = { λ x. trees_keep I.same I.tells x.faults (B.plane x.plane) (B.keeps x.plane) };

    fn boards(&self) -> u8 {
        self.plane.boards()
    }

    fn faults(&self) -> u8 {
        self.faults
    }

    fn round(&self) -> u16 {
        self.plane.round()
    }

    fn firm_rounds(&self) -> u16 {
        u16::from(self.faults) + 1
    }

    fn workspace(&self) -> usize {
        slots_needed(self.plane.boards(), self.faults)
    }

    fn plain(&mut self, sent: &[Option<I>], heard: &mut [Option<I>]) -> Result<(), Refusal> {
        plain_over(&mut self.plane, self.faults, sent, heard)
    }

    // The workspace then holds the trees of all boards: leaves as heard, other slots as reduced.
    fn firm(
        &mut self,
        sent: &[Option<I>],
        heard: &mut [Option<I>],
        work: &mut [Option<I>],
    ) -> Result<(), Refusal>
        ensures asked { FirmAsked (tree_exchange I.same B.plane) self.old self.new sent.now heard.old heard.new work.old work.new result }
        ensures left { Left I.same self.old.faults (B.plane self.old.plane) sent.now work.old work.new result }
        ensures laws { TreeLaws I }
    {
        firm_over(&mut self.plane, self.faults, sent, heard, work)
    }
}
