// Reads a script, runs it, and prints what comes of it.
use crate::error::ScriptError;
use crate::stored::{Blank, Ran, Stored};
use exchanges::maps::has;
use std::alloc::Global;
use std::fmt::Display;

// Whether a board is sound, and its verdict.
fn show_board<L: Copy + Display>(
    rt: &HostRuntime,
    board: usize,
    bad: u8,
    verdict: Option<L>,
) -> anyhow::Result<()> {
    let state = if has(bad, board) { "bad" } else { "sound" };
    match verdict {
        Some(label) => println!(rt; "board {board} {state} {label}")?,
        None => println!(rt; "board {board} {state} none")?,
    }
    Ok(())
}

// The number of phases, and then each board.
fn show_verdicts<L: Copy + Display>(rt: &HostRuntime, ran: &Ran<L>) -> anyhow::Result<()> {
    println!(rt; "phases {}", ran.phases)?;
    for (board, verdict) in ran.told.iter().enumerate() {
        show_board(rt, board, ran.bad, *verdict)?;
    }
    Ok(())
}

// What comes of the script in the bytes.
fn run_script<L: Blank>(heap: Global, input: &[u8]) -> Result<Ran<L>, ScriptError> {
    Stored::read(heap, input)?.run(heap)
}

// Reads the script in the bytes, runs it, and prints what comes of it, or why nothing does.
pub(crate) fn show<L: Blank + Display>(rt: &HostRuntime, input: &[u8]) -> anyhow::Result<()> {
    match run_script::<L>(rt.alloc(), input) {
        Ok(ran) => show_verdicts(rt, &ran),
        Err(ScriptError::NoMemory(error)) => Err(error.into()),
        Err(error) => Ok(println!(rt; "{error}")?),
    }
}
