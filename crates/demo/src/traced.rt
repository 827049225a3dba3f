// A layer over any backplane that keeps what each carry answered, in order.
ghost use Rattle.std.specs.Prelude.{◌≡◌};
ghost use Rattle.exchanges.specs.Plane.{Carried};
ghost use Rattle.demo.specs.Traced.{traced_plane};

use crate::rows::slot_at;
use exchanges::backplane::Backplane;
use labels::refusal::Refusal;
use std::alloc::Global;

#[derive(Drop)]
pub struct Traced<B, I> {
    below: B,
    answers: Vec<Option<I>>,
}

impl<B, I: Copy> Traced<B, I> {
    pub fn new(heap: Global, below: B) -> Self
        ensures { result.below ≡ below }
    {
        Traced {
            below,
            answers: Vec::new(heap),
        }
    }

    // What board `to` heard at the path of this number, of n boards; silence if it was not kept.
    pub fn answer(&self, n: usize, path: usize, to: usize) -> Option<I> {
        slot_at(&self.answers, n, path, to)
    }
}

impl<I: Copy, B: Backplane<I>> Backplane<I> for Traced<B, I> {
    ghost plane = { traced_plane B.plane };

    ghost keeps = { λ b. B.keeps b.below };

    fn boards(&self) -> u8 {
        self.below.boards()
    }

    fn round(&self) -> u16 {
        self.below.round()
    }

    fn turn(&mut self) -> Result<(), Refusal> {
        self.below.turn()
    }

    fn carry(&mut self, from: usize, to: usize, sent: Option<I>) -> Option<I>
        ensures { Carried (traced_plane B.plane self.old) (traced_plane B.plane self.new) from to sent result }
    {
        let answer = self.below.carry(from, to, sent);
        let _ = self.answers.push(answer);
        answer
    }
}
