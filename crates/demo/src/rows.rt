// How slots are printed, a line for a board.
use labels::refusal::Refusal;
use labels::slip::Slip;
use std::alloc::AllocError;
use std::fmt;
use std::fmt::Display;

// How many boards a panel has whose steps are shown.
pub(crate) const BOARDS: usize = 4;

// The slot at a place of a row, in rows of so many slots; silence past the end.
pub(crate) fn slot_at<T: Copy>(
    slots: &[Option<T>],
    width: usize,
    row: usize,
    place: usize,
) -> Option<T> {
    let at = row.saturating_mul(width).saturating_add(place);
    slots.get(at).copied().flatten()
}

// What a slot has, or a dash for silence.
#[derive(Drop)]
pub(crate) struct Slot<T>(pub Option<T>);

impl<T: Display> Display for Slot<T> {
    fn fmt<W: fmt::Write>(&self, f: &mut fmt::Formatter<W>) -> fmt::Result {
        match &self.0 {
            Some(text) => write!(f, "{text}"),
            None => f.write_str("-"),
        }
    }
}

// A slip as label and phase number.
#[derive(Drop)]
pub(crate) struct Phased<L>(pub Slip<L>);

impl<L: Display> Display for Phased<L> {
    fn fmt<W: fmt::Write>(&self, f: &mut fmt::Formatter<W>) -> fmt::Result {
        write!(f, "{}/{}", self.0.label, self.0.phase)
    }
}

// The texts for places 0 to one below `places`, each after a space.
fn row<F: Fn(usize) -> Result<String, AllocError>>(
    rt: &HostRuntime,
    places: usize,
    text: F,
) -> Result<String, AllocError>
    requires { F.IsAlwaysCallable text }
{
    let mut line = String::new(rt.alloc());
    for place in 0..places {
        write!(line, " {}", text(place)?)?;
    }
    Ok(line)
}

// A line for each board, with its number between two texts and then what is said of it at each place.
pub(crate) fn show_boards<F: Fn(usize, usize) -> Result<String, AllocError>>(
    rt: &HostRuntime,
    before: &str,
    after: &str,
    places: usize,
    text: F,
) -> anyhow::Result<()>
    requires { F.IsAlwaysCallable text }
{
    for board in 0..BOARDS {
        let line = row(rt, places, |place| text(board, place))?;
        println!(rt; "{before}board {board} {after}{line}")?;
    }
    Ok(())
}

// A line for each board, with what its slots have or dashes.
pub(crate) fn show_slots<T: Display + Drop, F: Fn(usize, usize) -> Option<T>>(
    rt: &HostRuntime,
    words: &str,
    places: usize,
    slot: F,
) -> anyhow::Result<()>
    requires { F.IsAlwaysCallable slot }
{
    let heap = rt.alloc();
    show_boards(rt, "", words, places, |board, place| {
        format!(in heap; "{}", Slot(slot(board, place)))
    })
}

// Says that a call was refused.
pub(crate) fn show_refusal(rt: &HostRuntime, refusal: Refusal) -> anyhow::Result<()> {
    println!(rt; "refused with {refusal}")?;
    Ok(())
}
