// Reads the labels that the boards of some panels propose, and shows each step.
//
// The input is one panel after another: the number of the label kind (one byte), the number of
// boards (one byte), and a label for each board.
#![tactic(auto)]

mod firm_steps;
mod rows;
mod settle_steps;
mod traced;
mod watched;

use crate::firm_steps::show_firm;
use crate::settle_steps::show_settling;
use labels::fault::Fault;
use labels::frame_number::FrameNumber;
use labels::kind::Kind;
use labels::label::Label;
use labels::reading::{read_label, write_label};
use labels::smallest::smallest;
use labels::trigger_stamp::TriggerStamp;
use std::fmt::Display;
use std::io::Read;

// More input than this is left unread.
const MOST: u64 = 60_000;

// Reads what the boards propose, and prints each label with its place; None after a fault.
fn read_proposals<L: Label + Display>(
    rt: &HostRuntime,
    input: &[u8],
    start: usize,
    boards: u8,
) -> anyhow::Result<Option<Vec<L>>> {
    let mut proposals = Vec::new(rt.alloc());
    let mut place = start;
    for board in 0..boards {
        match read_label::<L>(input, place) {
            Ok((label, next)) => {
                println!(rt; "board {board} proposes {label}, at {place}")?;
                proposals.push(label)?;
                place = next;
            }
            Err(fault) => {
                println!(rt; "{fault}")?;
                return Ok(None);
            }
        }
    }
    Ok(Some(proposals))
}

// Says which label is the smallest, and which board proposes it.
fn show_smallest<L: Label + Display>(rt: &HostRuntime, proposals: &[L]) -> anyhow::Result<()> {
    if let Some(board) = smallest(proposals) {
        let label = proposals[board];
        println!(rt; "the smallest is {label}, of board {board}")?;
    }
    Ok(())
}

// Writes the labels one after another, and answers the place after them.
fn write_labels<L: Label>(labels: &[L], output: &mut [u8]) -> Result<usize, Fault> {
    let mut place = 0;
    for label in labels {
        place = write_label(*label, output, place)?;
    }
    Ok(place)
}

// Says whether the labels, written, are the bytes that were read.
fn write_back<L: Label>(rt: &HostRuntime, proposals: &[L], read: &[u8]) -> anyhow::Result<()> {
    let mut written = vec![in rt.alloc(); 0u8; read.len()]?;
    match write_labels(proposals, &mut written) {
        Err(fault) => println!(rt; "{fault}")?,
        Ok(size) if written.as_slice() == read => {
            println!(rt; "written back: the same {size} bytes")?
        }
        Ok(_) => println!(rt; "written back: other bytes")?,
    }
    Ok(())
}

// One panel, whose labels begin at a place; answers how many bytes they have.
fn show_panel<L: Label + Display>(
    rt: &HostRuntime,
    input: &[u8],
    start: usize,
    boards: u8,
) -> anyhow::Result<usize> {
    println!(rt; "panel of {boards} boards, labels of kind {}", L::KIND)?;
    let size = L::WIDTH.saturating_mul(usize::from(boards));
    if let Some(proposals) = read_proposals::<L>(rt, input, start, boards)? {
        show_smallest(rt, &proposals)?;
        if let Some(read) = input.get(start..start.saturating_add(size)) {
            write_back(rt, &proposals, read)?;
        }
        show_firm(rt, &proposals)?;
        show_settling(rt, &proposals)?;
    }
    Ok(size)
}

// All panels of the input.
fn show_panels(rt: &HostRuntime, input: &[u8]) -> anyhow::Result<()> {
    let mut rest = input;
    while let [kind, boards, labels @ ..] = rest {
        let start = input.len().saturating_sub(labels.len());
        let size = match Kind::try_from(*kind) {
            Ok(Kind::Frames) => show_panel::<FrameNumber>(rt, input, start, *boards)?,
            Ok(Kind::Stamps) => show_panel::<TriggerStamp>(rt, input, start, *boards)?,
            Err(unknown) => {
                println!(rt; "{unknown}")?;
                break;
            }
        };
        rest = labels.get(size..).unwrap_or(&[]);
    }
    Ok(())
}

fn main(rt: HostRuntime) -> anyhow::Result<()> {
    let mut input = Vec::new(rt.alloc());
    rt.stdin().take(MOST).read_to_end(&mut input)?;
    show_panels(&rt, &input)
}
