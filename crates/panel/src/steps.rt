// The steps of a phase, over slots, blocks and an exchange.
ghost use Rattle.std.specs.Prelude.{◌≡◌, ◌+◌, ◌-◌, ◌*◌, ◌<◌, ◌≤◌, ℕ, [], take, drop};
ghost use Rattle.exchanges.specs.Plane.{last_round};
ghost use Rattle.exchanges.specs.Exchange.{firm, plain, after_ask};
ghost use Rattle.panel.specs.Slots.{Slot, with_phase};
ghost use Rattle.panel.specs.Phase.{choice_of, best_heard};
ghost use Rattle.panel.specs.Votes.{block_row};
ghost use Rattle.panel.specs.Panel.{at, column, put, firsts, after_asks, picked, decided, asks};
ghost use Rattle.panel.specs.Steps.{Filled, Writes, Combines};
ghost use Rattle.panel.specs.Runs.{GoesOn};

use crate::heard::Heard;
use crate::memory::{copy_column, keep_claims, put_slot, slot_at};
use crate::phase::Phase;
use crate::run::Run;
use exchanges::exchange::Exchange;
use exchanges::fitting::Size;
use labels::order::Ordered;
use labels::slip::Slip;

// where a board keeps its estimate and its verdict
pub(crate) const ESTIMATE: usize = 0;

pub(crate) const VERDICT: usize = 9;

// Writes one slot of each board, by the board and by what it holds there.
fn put_each<L: Copy, F: Fn(usize, Option<Slip<L>>) -> Option<Slip<L>>>(
    slots: &mut [Option<Slip<L>>],
    place: usize,
    size: Size,
    new: F,
)
    requires inside { place ≤ 9 }
    requires callable { (p : ℕ) (s : Slot L) → p < size.boards → F.pre new p s }
    ensures { (c : ℕ → Slot L → Slot L) → Writes size.boards (F.post new) c → slots.new ≡ put place (λ p. c p (at slots.old p place)) slots.old size.boards }
{
    // Kept by place: after `chunks_mut` a proof knows no element.
    for p in 0..size.n() {
        let here = 10 * p + place;
        put_slot(slots, here, new(p, slot_at(slots, here)));
    }
}

impl<L: Ordered, E: Exchange<Slip<L>>> Run<'_, '_, L, E> {
    // A firm exchange of what the boards hold at one place, into the block of that number.
    fn hear_block(&mut self, slots: &[Option<Slip<L>>], g: usize)
        requires inside { g < self.old.phase.number }
        requires rounds { (E.meaning self.old.exchange.now).round + (E.meaning self.old.exchange.now).firm_rounds ≤ last_round }
        ensures kept { GoesOn self.old self.new }
        ensures leaves { E.meaning self.new.exchange.now ≡ after_ask (E.meaning self.old.exchange.now) (firm (column self.old.phase.size.boards slots.now g)) }
        ensures here { take (self.old.phase.size.boards * self.old.phase.size.boards) (drop (g * (self.old.phase.size.boards * self.old.phase.size.boards)) self.new.blocks.now) ≡ (E.meaning self.old.exchange.now).fills [] (firm (column self.old.phase.size.boards slots.now g)) }
        ensures before { take (g * (self.old.phase.size.boards * self.old.phase.size.boards)) self.new.blocks.now ≡ take (g * (self.old.phase.size.boards * self.old.phase.size.boards)) self.old.blocks.now }
    {
        let size = self.phase.size;
        let sent = &mut *self.heard;
        copy_column(slots, g, size, sent);
        let n = size.n();
        let area = n * n;
        let start = g * area;
        let block = &mut self.blocks[start..start + area];
        let _ = self.exchange.firm(sent, block, self.work);
    }

    // The firm exchanges of a phase, of the estimates and of the picks of each earlier phase, each into
    // its own block.
    fn hear_all(&mut self, slots: &[Option<Slip<L>>])
        requires rounds { (E.meaning self.old.exchange.now).round + self.old.phase.number * (E.meaning self.old.exchange.now).firm_rounds ≤ last_round }
        ensures kept { GoesOn self.old self.new }
        ensures leaves { E.meaning self.new.exchange.now ≡ after_asks (E.meaning self.old.exchange.now) (firsts self.old.phase.size.boards slots.now self.old.phase.number) }
        ensures fills { Filled (E.meaning self.old.exchange.now) self.old.phase.size.boards slots.now self.old.phase.number self.new.blocks.now }
    {
        for g in 0..usize::from(self.phase.number) {
            self.hear_block(slots, g);
        }
    }

    // Estimates and earlier picks are heard, and each board chooses its pick.
    fn choose_step(&mut self, slots: &mut [Option<Slip<L>>])
        requires rounds { (E.meaning self.old.exchange.now).round + self.old.phase.number * (E.meaning self.old.exchange.now).firm_rounds ≤ last_round }
        ensures kept { GoesOn self.old self.new }
        ensures slots { slots.new ≡ picked L.order self.old.phase.size.boards self.old.phase.size.faults self.old.phase.number (E.meaning self.old.exchange.now) slots.old }
        ensures exchange { E.meaning self.new.exchange.now ≡ after_asks (E.meaning self.old.exchange.now) (firsts self.old.phase.size.boards slots.old self.old.phase.number) }
    {
        let Phase { size, number, .. } = self.phase;
        self.hear_all(slots);
        let n = size.n();
        let blocks = &mut *self.blocks;
        keep_claims(&mut blocks[0..n * n], number);
        let blocks = &*blocks;
        let pick = |p: usize, _: Option<Slip<L>>|
            requires { p < size.boards }
            ensures { result ≡ with_phase number (choice_of L.order size.boards size.faults (block_row size.boards p blocks.entry.now 0) (block_row size.boards p blocks.entry.now)) }
        {
            let label = Heard { size, blocks, p }.choose()?;
            Some(Slip {
                label,
                phase: number,
            })
        };
        put_each(slots, usize::from(number), size, pick);
    }

    // What the boards hold at one place is heard plainly, and each board writes another of its places, by
    // what it holds there and by what it heard often enough.
    // Kept four parameters: the two calls differ in each.
    fn hear_step<F: Fn(Option<Slip<L>>, Option<Slip<L>>) -> Option<Slip<L>>>(
        &mut self,
        slots: &mut [Option<Slip<L>>],
        from: usize,
        to: usize,
        many: usize,
        new: F,
    )
        requires out { from ≤ 9 }
        requires back { to ≤ 9 }
        requires callable { F.IsAlwaysCallable new }
        requires rounds { (E.meaning self.old.exchange.now).round + 1 ≤ last_round }
        ensures kept { GoesOn self.old self.new }
        ensures slots { (c : Slot L → Slot L → Slot L) → Combines (F.post new) c → slots.new ≡ put to (λ p. c (at slots.old p to) (best_heard L.order self.old.phase.size.boards many self.old.phase.number (block_row self.old.phase.size.boards p ((E.meaning self.old.exchange.now).fills [] (plain (column self.old.phase.size.boards slots.old from))) 0))) slots.old self.old.phase.size.boards }
        ensures exchange { E.meaning self.new.exchange.now ≡ after_ask (E.meaning self.old.exchange.now) (plain (column self.old.phase.size.boards slots.old from)) }
    {
        let Phase { size, number, .. } = self.phase;
        let sent = &mut *self.blocks;
        copy_column(slots, from, size, sent);
        let heard = &mut *self.heard;
        let _ = self.exchange.plain(sent, heard);
        let blocks = &*heard;
        let write = |p: usize, kept: Option<Slip<L>>|
            requires within { p < size.boards }
            requires callable { F.IsAlwaysCallable new }
            ensures { F.post new kept (best_heard L.order size.boards many number (block_row size.boards p blocks.entry.now 0)) result }
        { new(kept, Heard { size, blocks, p }.often(many, number)) };
        put_each(slots, to, size, write);
    }

    // The steps of a phase that is not refused.
    pub(crate) fn decide(&mut self, slots: &mut [Option<Slip<L>>])
        requires rounds { (E.meaning self.old.exchange.now).round + self.old.phase.number * (E.meaning self.old.exchange.now).firm_rounds + 2 ≤ last_round }
        ensures kept { GoesOn self.old self.new }
        ensures slots { slots.new ≡ decided L.order self.old.phase.size.boards self.old.phase.size.faults self.old.phase.number (E.meaning self.old.exchange.now) slots.old }
        ensures exchange { E.meaning self.new.exchange.now ≡ after_asks (E.meaning self.old.exchange.now) (asks L.order self.old.phase.size.boards self.old.phase.size.faults self.old.phase.number (E.meaning self.old.exchange.now) slots.old) }
    {
        let Phase { size, number, .. } = self.phase;
        self.choose_step(slots);
        let (n, t) = (size.n(), size.t());
        // where the boards keep what they send
        let (picks, estimates) = (usize::from(number), ESTIMATE);
        // an estimate gives way to a pick that was heard often enough, and a verdict is kept
        let adopt = |kept: Option<Slip<L>>, taken: Option<Slip<L>>| taken.or(kept);
        let settle = |kept: Option<Slip<L>>, taken: Option<Slip<L>>| kept.or(taken);
        self.hear_step(slots, picks, ESTIMATE, n - t, adopt);
        self.hear_step(slots, estimates, VERDICT, 2 * t + 1, settle);
    }
}
