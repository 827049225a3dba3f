// One firm exchange among four boards, of which board 3 is two-faced, step by step.
use crate::rows::{BOARDS, Slot, show_boards, show_refusal, show_slots, slot_at};
use crate::traced::Traced;
use exchanges::exchange::Exchange;
use exchanges::tree::Tree;
use exchanges::two_faced::TwoFaced;
use labels::item::Item;
use labels::label::Label;
use labels::slip::Slip;
use std::fmt::Display;

// The map of bad boards: board 3.
const BAD: u8 = 8;

// Four boards, of which board 3 gives odd boards this label.
pub(crate) fn liars_plane<L: Copy>(label: L) -> TwoFaced<Slip<L>> {
    TwoFaced::new(4, BAD, Slip { label, phase: 0 })
}

// The boards on a path of two, by the path's number: the first, then one of the others.
fn pair(path: usize) -> (usize, usize) {
    let first = path / 3;
    let other = path % 3;
    (first, other + usize::from(other >= first))
}

// What each board stored in the two rounds: at the paths of one board, and then of two boards.
fn show_rounds<B, L: Copy + Display>(
    rt: &HostRuntime,
    plane: &Traced<B, Slip<L>>,
) -> anyhow::Result<()> {
    let heap = rt.alloc();
    show_boards(rt, "round 1: ", "stores", BOARDS, |p, q| {
        let slot = plane.answer(BOARDS, q, p).map(|slip| slip.label);
        format!(in heap; "{q}:{}", Slot(slot))
    })?;
    show_boards(rt, "round 2: ", "stores", 12, |p, path| {
        let (first, second) = pair(path);
        let slot = plane
            .answer(BOARDS, path.saturating_add(BOARDS), p)
            .map(|slip| slip.label);
        format!(in heap; "{first}{second}:{}", Slot(slot))
    })
}

// What each board heard from each.
fn show_heard<L: Copy + Display>(
    rt: &HostRuntime,
    heard: &[Option<Slip<L>>],
) -> anyhow::Result<()> {
    show_slots(rt, "heard", BOARDS, |p, q| {
        slot_at(heard, BOARDS, p, q).map(|slip| slip.label)
    })
}

// Whether two slots hold the same, or are both silent.
// Kept in words: an item owes no `==`.
fn same_slots<I: Item>(a: Option<I>, b: Option<I>) -> bool {
    match (a, b) {
        (Some(x), Some(y)) => x.is_same(y),
        (a, b) => a.is_none() && b.is_none(),
    }
}

// Whether boards 0, 1 and 2, which are sound, heard the same from every board: board 0's row begins
// what was heard.
fn heard_alike<I: Item>(heard: &[Option<I>]) -> bool {
    heard.chunks(BOARDS).take(3).all(|row| row.iter().zip(heard).all(|(a, b)| same_slots(*a, *b)))
}

// Runs the exchange where four boards propose, and prints each step.
pub fn show_firm<L: Label + Display>(rt: &HostRuntime, proposals: &[L]) -> anyhow::Result<()> {
    let [_, _, other, _] = proposals else {
        return Ok(());
    };
    let mut sent = Vec::new(rt.alloc());
    for (board, &label) in proposals.iter().enumerate() {
        println!(rt; "board {board} sends {label}")?;
        sent.push(Some(Slip { label, phase: 0 }))?;
    }
    println!(rt; "board 3 is two-faced: it gives odd boards {other}")?;
    let mut exchange = Tree::new(Traced::new(rt.alloc(), liars_plane(*other)), 1);
    let mut heard = vec![in rt.alloc(); None; 16]?;
    let mut work = vec![in rt.alloc(); None; 64]?;
    if let Err(refusal) = exchange.firm(&sent, &mut heard, &mut work) {
        return show_refusal(rt, refusal);
    }
    show_rounds(rt, &exchange.into_plane())?;
    show_heard(rt, &heard)?;
    if heard_alike(&heard) {
        println!(rt; "the sound boards heard the same")?;
    } else {
        println!(rt; "the sound boards heard different things")?;
    }
    Ok(())
}
