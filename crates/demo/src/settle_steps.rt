// Settles one exposure among four boards, of which board 3 is two-faced, step by step.
use crate::firm_steps::liars_plane;
use crate::rows::{BOARDS, Phased, show_refusal, show_slots};
use crate::watched::Watched;
use exchanges::exchange::Exchange;
use exchanges::tree::Tree;
use labels::label::Label;
use labels::refusal::Refusal;
use labels::slip::Slip;
use panel::Panel;
use std::alloc::{AllocError, Global};
use std::fmt::Display;

// The blocks of slots that a phase works in.
#[derive(Drop)]
struct Blocks<I> {
    heard: Vec<Option<I>>,
    picks: Vec<Option<I>>,
    work: Vec<Option<I>>,
}

impl<I: Copy> Blocks<I> {
    fn new(heap: Global) -> Result<Self, AllocError> {
        Ok(Blocks {
            heard: vec![in heap; None; 16]?,
            picks: vec![in heap; None; 128]?,
            work: vec![in heap; None; 64]?,
        })
    }
}

// What each board heard in one exchange of the phase.
fn show_heard<X, L: Copy + Display>(
    rt: &HostRuntime,
    exchange: &Watched<X, Slip<L>>,
    number: usize,
    words: &str,
) -> anyhow::Result<()> {
    show_slots(rt, words, BOARDS, |p, q| {
        exchange.heard(BOARDS, number, p, q).map(Phased)
    })
}

// What each board sent in one exchange of the phase.
fn show_sent<X, L: Copy + Display>(
    rt: &HostRuntime,
    exchange: &Watched<X, Slip<L>>,
    number: usize,
    words: &str,
) -> anyhow::Result<()> {
    show_slots(rt, words, 1, |p, _| {
        exchange.sent(BOARDS, number, p).map(Phased)
    })
}

// Fits the panel, lets each board propose, and runs one phase.
fn run<L: Label, E: Exchange<Slip<L>>>(
    panel: &mut Panel<L>,
    exchange: &mut E,
    proposals: &[L],
    blocks: &mut Blocks<Slip<L>>,
) -> Result<(), Refusal> {
    panel.fit(4, 1)?;
    for (board, label) in proposals.iter().enumerate() {
        panel.propose(board, *label)?;
    }
    panel.phase(
        exchange,
        &mut blocks.heard,
        &mut blocks.picks,
        &mut blocks.work,
    )
}

// The verdict of each board.
fn show_verdicts<L: Label + Display>(rt: &HostRuntime, panel: &Panel<L>) -> anyhow::Result<()> {
    for board in 0..BOARDS {
        match panel.verdict(board) {
            Ok(Some(label)) => println!(rt; "board {board} settles on {label}")?,
            Ok(None) => println!(rt; "board {board} has no verdict")?,
            Err(refusal) => show_refusal(rt, refusal)?,
        }
    }
    Ok(())
}

// Runs one phase where four boards propose, and prints each step.
pub fn show_settling<L: Label + Display>(rt: &HostRuntime, proposals: &[L]) -> anyhow::Result<()> {
    let [_, _, other, _] = proposals else {
        return Ok(());
    };
    let tree = Tree::new(liars_plane(*other), 1);
    let mut exchange = Watched::new(rt.alloc(), tree);
    let mut slots = vec![in rt.alloc(); None; 40]?;
    let mut blocks = Blocks::new(rt.alloc())?;
    let mut panel = Panel::new(&mut slots);
    if let Err(refusal) = run(&mut panel, &mut exchange, proposals, &mut blocks) {
        return show_refusal(rt, refusal);
    }
    show_heard(rt, &exchange, 0, "hears claims")?;
    show_sent(rt, &exchange, 1, "picks")?;
    show_heard(rt, &exchange, 1, "hears picks")?;
    show_sent(rt, &exchange, 2, "estimates")?;
    show_heard(rt, &exchange, 2, "hears estimates")?;
    show_verdicts(rt, &panel)
}
