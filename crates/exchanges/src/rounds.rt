// The rounds of a firm exchange, in which the trees of all boards are filled.
ghost use Rattle.std.specs.Prelude.{◌≡◌, ◌+◌, ◌-◌, ◌*◌, ◌<◌, ◌≤◌, length, take, drop, fold};
ghost use Rattle.exchanges.specs.Plane.{last_round};
ghost use Rattle.exchanges.specs.Trees.{hops, filled};
ghost use Rattle.exchanges.specs.Slots.{trail, held, carried, hops_to, Worked, Stands};
ghost use Rattle.exchanges.specs.Lent.{RoundsGoOn};

use crate::backplane::Backplane;
use crate::path::Path;
use crate::trees::Rounds;

impl<I: Copy, B: Backplane<I>> Rounds<'_, '_, '_, I, B> {
    // What board q's tree holds at the path; at the empty path, what q itself sends.
    // Kept a clause here and in `Trees`: a path bears its shape, and the trees theirs, which are one.
    fn read(&self, path: Path, q: usize) -> Option<I>
        requires alike { path.shape ≡ self.now.shape }
        requires board { q < path.shape.n }
        ensures { result ≡ held path.shape.n path.shape.size self.now.own.now self.now.slots.now q (trail path.boards path.len) }
    {
        if path.len() == 0 {
            self.own[q]
        } else {
            self.slots[q * path.shape.size + path.place()]
        }
    }

    // The path's last board sends what its tree holds at the rest of the path to every board, which
    // stores the answer at the path.
    // Kept a clause, as in `read`.
    fn send(&mut self, path: Path)
        requires alike { path.shape ≡ self.old.shape }
        requires some { 1 ≤ path.len }
        ensures kept { RoundsGoOn self.old self.new }
        ensures made { Worked (B.plane self.new.plane.now) self.new.slots.now (fold (carried path.shape.n path.shape.size self.old.own.now) (record { plane = B.plane self.old.plane.now; slots = self.old.slots.now }) (hops_to path.shape.n (trail path.boards path.len))) }
    {
        let (rest, q) = path.split();
        let place = path.place();
        // Kept by place: the slots of one path lie a tree apart, and after `iter_mut` with steps a proof knows no element.
        for p in 0..path.shape.n {
            let item = self.read(rest, q);
            let answer = self.plane.carry(q, p, item);
            let slots = &mut *self.slots;
            slots[p * path.shape.size + place] = answer;
        }
    }

    // The round that fills the slots of the paths of r + 1 boards, in rising order.
    fn spread(&mut self, r: usize)
        requires short { r ≤ self.old.shape.t }
        ensures kept { RoundsGoOn self.old self.new }
        ensures made { Worked (B.plane self.new.plane.now) self.new.slots.now (fold (carried self.old.shape.n self.old.shape.size self.old.own.now) (record { plane = B.plane self.old.plane.now; slots = self.old.slots.now }) (hops self.old.shape.n r)) }
    {
        let shape = self.shape;
        for i in 0..shape.paths(r + 1) {
            self.send(Path::at(shape, r + 1, i));
        }
    }

    // The t + 1 rounds of a firm exchange fill every board's tree.
    pub(crate) fn gather(&mut self)
        requires timely { (B.plane self.old.plane.now).round + (self.old.shape.t + 1) ≤ last_round }
        ensures kept { RoundsGoOn self.old self.new }
        ensures plane { B.plane self.new.plane.now ≡ (filled self.old.shape.n (self.old.shape.t + 1) (B.plane self.old.plane.now) (take self.old.shape.n self.old.own.now)).plane }
        ensures slots { Stands self.old.shape.n self.old.shape.t self.old.shape.size self.old.own.now self.new.slots.now (filled self.old.shape.n (self.old.shape.t + 1) (B.plane self.old.plane.now) (take self.old.shape.n self.old.own.now)).trees }
        ensures behind { drop (self.old.shape.n * self.old.shape.size) self.new.slots.now ≡ drop (self.old.shape.n * self.old.shape.size) self.old.slots.now }
    {
        let shape = self.shape;
        for r in 0..shape.t + 1 {
            // there is a next round, so this is never refused
            let _ = self.plane.turn();
            self.spread(r);
        }
    }
}
