// The calls on a panel.
ghost use Rattle.std.specs.Prelude.{◌≡◌, ◌+◌, ◌*◌, ◌<◌, length, is_some, None, nat_lt, slice_index_or};
ghost use Rattle.exchanges.specs.Boards.{count};
ghost use Rattle.exchanges.specs.Plane.{last_round};
ghost use Rattle.exchanges.specs.Asked.{Kept};
ghost use Rattle.panel.specs.Slots.{label_of};
ghost use Rattle.panel.specs.Laws.{Laws};
ghost use Rattle.panel.specs.Worked.{Worked};
ghost use Rattle.panel.specs.Panel.{at, new, fit, propose, phase, verdict, sizes, refusal, step, Answers, AnswersWith, Unaltered, Exchanged, verdict_place};
ghost use Rattle.panel.specs.Settled.{Promised};
ghost use Rattle.panel.specs.Modelled.{state, NextOf};

use crate::held::Panel;
use crate::memory::{put_slot, silence, slot_at};
use crate::phase::Phase;
use crate::run::Run;
use crate::steps::{ESTIMATE, VERDICT};
use exchanges::exchange::Exchange;
use exchanges::fitting::Size;
use labels::order::Ordered;
use labels::refusal::Refusal;
use labels::slip::Slip;

// the most phases that a panel runs, and the last round number
const PHASES: u8 = 8;

const LAST_ROUND: usize = 65_535;

// Whether the phase after these would pass the last round.
fn rounds_lack(round: u16, firm_rounds: u16, phases: u8) -> bool
    requires { phases < 8 }
    ensures { result ≡ nat_lt last_round (round + (phases + 1) * firm_rounds + 2) }
{
    LAST_ROUND < usize::from(round) + (usize::from(phases) + 1) * usize::from(firm_rounds) + 2
}

impl<'a, L: Ordered> Panel<'a, L> {
    // A panel over lent memory. It has no boards until it is fitted.
    pub fn new(slots: &'a mut [Option<Slip<L>>]) -> Panel<'a, L>
        ensures made { state result ≡ new slots.old }
        ensures laws { Laws L.order }
        ensures worked { Worked }
    {
        Panel {
            slots,
            size: None,
            phases: 0,
        }
    }

    // Kept sums in the calls: a board's ten slots begin at ten times its number, as the definitions say.
    // What the slot at a place holds.
    fn slot(&self, place: usize) -> Option<Slip<L>>
        ensures { result ≡ slice_index_or self.now.slots.now place None }
    {
        slot_at(self.slots, place)
    }

    // Sets the number of boards and of those that may be bad, and makes the boards' slots silent.
    pub fn fit(&mut self, n: u8, t: u8) -> Result<(), Refusal>
        ensures answer { Answers (refusal (state self.old) (fit n t)) result }
        ensures next { state self.new ≡ step L.order (state self.old) (fit n t) }
        ensures unaltered { Unaltered result self.old self.new }
    {
        if self.size.is_some() {
            return Err(Refusal::AlreadyFitted);
        }
        let size = Size::new(n, t).ok_or(Refusal::BadCounts)?;
        if self.slots.len() < 10 * size.n() {
            return Err(Refusal::MemoryTooShort);
        }
        silence(self.slots, 10 * size.n());
        self.size = Some(size);
        self.phases = 0;
        Ok(())
    }

    // Makes a label the board's proposal and estimate.
    pub fn propose(&mut self, board: usize, label: L) -> Result<(), Refusal>
        ensures answer { Answers (refusal (state self.old) (propose board label)) result }
        ensures next { state self.new ≡ step L.order (state self.old) (propose board label) }
        ensures unaltered { Unaltered result self.old self.new }
    {
        let size = self.size.ok_or(Refusal::NotFitted)?;
        if board >= size.n() {
            return Err(Refusal::NoSuchBoard);
        }
        if self.phases > 0 {
            return Err(Refusal::PhaseHasRun);
        }
        if self.slot(10 * board + ESTIMATE).is_some() {
            return Err(Refusal::AlreadyProposed);
        }
        put_slot(
            self.slots,
            10 * board + ESTIMATE,
            Some(Slip { label, phase: 0 }),
        );
        Ok(())
    }

    // What the board's verdict slot tells.
    // Kept apart from `verdict`: the promise there is of what this answers.
    fn held_verdict(&self, board: usize) -> Result<Option<L>, Refusal>
        ensures { AnswersWith (refusal (state self.now) (verdict board)) (label_of (at self.now.slots.now board verdict_place)) result }
    {
        // Kept two tests, as in `propose`: each call answers the first of its own table that holds.
        let size = self.size.ok_or(Refusal::NotFitted)?;
        if board >= size.n() {
            return Err(Refusal::NoSuchBoard);
        }
        Ok(self.slot(10 * board + VERDICT).map(|s| s.label))
    }

    // The verdict of a board, if it holds one. What is promised of verdicts stands here.
    pub fn verdict(&self, board: usize) -> Result<Option<L>, Refusal>
        ensures answer { AnswersWith (refusal (state self.now) (verdict board)) (label_of (at self.now.slots.now board verdict_place)) result }
        ensures promise { Promised L.order (state self.now) board result }
    {
        self.held_verdict(board)
    }

    // How many of the boards have an estimate.
    fn proposed(&self, size: Size) -> usize
        ensures { result ≡ count (λ q. is_some (at self.now.slots.now q 0)) size.boards }
    {
        (0..size.n())
            .filter(|q| self.slot(10 * *q + ESTIMATE).is_some())
            .count()
    }

    // The next phase, where it may run with blocks of these lengths.
    // Kept three numbers: the lists themselves are lent on afterwards.
    fn admit<E: Exchange<Slip<L>>>(
        &self,
        exchange: &E,
        heard: usize,
        picks: usize,
        work: usize,
    ) -> Result<Phase, Refusal>
        ensures answer { Answers (refusal (state self.now) (phase (E.meaning exchange.now) (sizes heard picks work))) result }
        ensures next { NextOf self.now.size self.now.phases result }
    {
        let size = self.size.ok_or(Refusal::NotFitted)?;
        let n = size.n();
        if self.proposed(size) < n {
            return Err(Refusal::ProposalMissing);
        }
        if self.phases >= PHASES {
            return Err(Refusal::PhasesSpent);
        }
        if exchange.boards() != size.boards || exchange.faults() != size.faults {
            return Err(Refusal::OtherCounts);
        }
        if heard < n * n || picks < 8 * (n * n) || work < exchange.workspace() {
            return Err(Refusal::MemoryTooShort);
        }
        if rounds_lack(exchange.round(), exchange.firm_rounds(), self.phases) {
            return Err(Refusal::RoundLimit);
        }
        let number = self.phases + 1;
        Ok(Phase { size, number })
    }

    // Runs the next phase. The blocks have room for what is heard, n * n slots, for what was heard of
    // the estimates and the earlier picks, 8 * n * n, and for the exchange's workspace. What they
    // hold there afterwards is free; past that they are left as they were.
    // Kept three lists: callers lend lists of their own, and a struct of them would be made for each call.
    pub fn phase<E: Exchange<Slip<L>>>(
        &mut self,
        exchange: &mut E,
        heard: &mut [Option<Slip<L>>],
        picks: &mut [Option<Slip<L>>],
        work: &mut [Option<Slip<L>>],
    ) -> Result<(), Refusal>
        ensures answer { Answers (refusal (state self.old) (phase (E.meaning exchange.old) (sizes (length heard.old) (length picks.old) (length work.old)))) result }
        ensures next { state self.new ≡ step L.order (state self.old) (phase (E.meaning exchange.old) (sizes (length heard.old) (length picks.old) (length work.old))) }
        ensures unaltered { Unaltered result self.old self.new }
        ensures exchanged { Exchanged L.order E.meaning (state self.old) exchange.old exchange.new result }
        ensures heard { Kept ((state self.old).boards * (state self.old).boards) heard.old heard.new result }
        ensures picks { Kept (8 * ((state self.old).boards * (state self.old).boards)) picks.old picks.new result }
        ensures work { Kept (E.meaning exchange.old).workspace work.old work.new result }
    {
        let phase = self.admit(exchange, heard.len(), picks.len(), work.len())?;
        let n = phase.size.n();
        let space = exchange.workspace();
        let mut run = Run {
            phase,
            exchange,
            heard: &mut heard[0..n * n],
            blocks: &mut picks[0..8 * (n * n)],
            work: &mut work[0..space],
        };
        run.decide(self.slots);
        self.phases = phase.number;
        Ok(())
    }
}
