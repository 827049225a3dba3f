// A layer over any exchange that keeps what each exchange was given and what it filled, in order.
ghost use Rattle.std.specs.Prelude.{◌≡◌};
ghost use Rattle.exchanges.specs.Asked.{PlainAsked, FirmAsked};
ghost use Rattle.demo.specs.Watched.{watched_meaning};

use crate::rows::slot_at;
use exchanges::exchange::Exchange;
use labels::refusal::Refusal;
use std::alloc::Global;
use std::iter;

#[derive(Drop)]
pub struct Watched<X, I> {
    below: X,
    sent: Vec<Option<I>>,
    heard: Vec<Option<I>>,
}

// Adds the first slots of a list to a log, or silence where it has fewer.
fn keep<I: Copy>(log: &mut Vec<Option<I>>, slots: &[Option<I>], count: usize) {
    let silence = iter::repeat(None);
    let _ = log.extend(slots.iter().copied().chain(silence).take(count));
}

impl<X, I: Copy> Watched<X, I> {
    pub fn new(heap: Global, below: X) -> Self
        ensures { result.below ≡ below }
    {
        Watched {
            below,
            sent: Vec::new(heap),
            heard: Vec::new(heap),
        }
    }

    // What board p sent in the exchange of this number, of n boards.
    pub fn sent(&self, n: usize, exchange: usize, p: usize) -> Option<I> {
        slot_at(&self.sent, n, exchange, p)
    }

    // What board p heard from q in the exchange of this number, of n boards.
    pub fn heard(&self, n: usize, exchange: usize, p: usize, q: usize) -> Option<I> {
        let row = exchange.saturating_mul(n).saturating_add(p);
        slot_at(&self.heard, n, row, q)
    }
}

impl<I: Copy, X: Exchange<I>> Watched<X, I> {
    // Keeps what an exchange was given and what it filled.
    fn note(&mut self, sent: &[Option<I>], heard: &[Option<I>])
        ensures { self.new.below ≡ self.old.below }
    {
        let n = usize::from(self.below.boards());
        keep(&mut self.sent, sent, n);
        keep(&mut self.heard, heard, n * n);
    }
}

impl<I: Copy, X: Exchange<I>> Exchange<I> for Watched<X, I> {
    ghost meaning = { watched_meaning X.meaning };

    ghost keeps = { λ x. X.keeps x.below };

    fn boards(&self) -> u8 {
        self.below.boards()
    }

    fn faults(&self) -> u8 {
        self.below.faults()
    }

    fn round(&self) -> u16 {
        self.below.round()
    }

    fn firm_rounds(&self) -> u16 {
        self.below.firm_rounds()
    }

    fn workspace(&self) -> usize {
        self.below.workspace()
    }

    fn plain(&mut self, sent: &[Option<I>], heard: &mut [Option<I>]) -> Result<(), Refusal> {
        self.below.plain(sent, heard)?;
        self.note(sent, heard);
        Ok(())
    }

    fn firm(
        &mut self,
        sent: &[Option<I>],
        heard: &mut [Option<I>],
        work: &mut [Option<I>],
    ) -> Result<(), Refusal> {
        self.below.firm(sent, heard, work)?;
        self.note(sent, heard);
        Ok(())
    }
}
