// Runs many scripts. Each line of standard input is a script in hex, with a comment after `#`; for
// each the program prints what `bench` prints, and what writing it comes to, with just enough room and
// with a byte too little. Last comes a script that is too long.
#![tactic(auto)]

use report::error::ScriptError;
use report::kinds::{restored, show_script};
use std::alloc::{AllocError, Global};
use std::io::Read;

// More input than this is left unread.
const MOST: u64 = 1_000_000;

// What a hex digit stands for; a capital is none.
// Kept by hand: `to_digit` takes capitals too, which here are skipped like all that is no digit.
fn digit(byte: u8) -> Option<u8> {
    match byte {
        b'0'..=b'9' => Some(byte - b'0'),
        b'a'..=b'f' => Some(byte - b'a' + 10),
        _ => None,
    }
}

// A line as far as it was read: the script that it has in hex, two digits for each byte, the first
// digit of a byte of which the second is still to come, and whether a comment has begun.
#[derive(Drop)]
struct Line {
    script: Vec<u8>,
    high: Option<u8>,
    comment: bool,
}

impl Line {
    fn new(heap: Global) -> Line {
        Line {
            script: Vec::new(heap),
            high: None,
            comment: false,
        }
    }

    // One more byte of the line; all but digits is skipped, and so is a comment.
    fn take(&mut self, byte: u8) -> Result<(), AllocError> {
        if byte == b'#' {
            self.comment = true;
        } else if !self.comment {
            if let Some(low) = digit(byte) {
                match self.high.take() {
                    Some(high) => self.script.push(high << 4 | low)?,
                    None => self.high = Some(low),
                }
            }
        }
        Ok(())
    }

    // The script of the line; None where the line has a comment alone.
    fn script(&self) -> Option<&[u8]> {
        if self.comment && self.script.is_empty() {
            return None;
        }
        Some(self.script.as_slice())
    }

    // The next line begins.
    fn clear(&mut self) {
        self.script.clear();
        self.high = None;
        self.comment = false;
    }
}

// What writing the script to an output of so many bytes comes to.
fn show_written(rt: &HostRuntime, script: &[u8], size: usize) -> anyhow::Result<()> {
    match restored(rt.alloc(), script, size) {
        Ok(same) => println!(rt; "written to {size}: the same is {same}")?,
        Err(ScriptError::NoMemory(error)) => return Err(error.into()),
        Err(error) => println!(rt; "written to {size}: {error}")?,
    }
    Ok(())
}

// One script, with the number of its line.
fn show_line(rt: &HostRuntime, number: usize, script: &[u8]) -> anyhow::Result<()> {
    println!(rt; "line {number}")?;
    show_script(rt, script)?;
    show_written(rt, script, script.len())?;
    show_written(rt, script, script.len().saturating_sub(1))
}

fn main(rt: HostRuntime) -> anyhow::Result<()> {
    let mut input = Vec::new(rt.alloc());
    rt.stdin().take(MOST).read_to_end(&mut input)?;
    let mut line = Line::new(rt.alloc());
    let mut number = 1usize;
    // Kept a byte at a time: cut into lines and then into digits, an input of comments took twice the
    // instructions. A last line that has no end is left unread.
    for byte in &input {
        if *byte != b'\n' {
            line.take(*byte)?;
            continue;
        }
        if let Some(script) = line.script() {
            show_line(&rt, number, script)?;
        }
        line.clear();
        number = number.saturating_add(1);
    }
    println!(rt; "a byte too many")?;
    show_script(&rt, &vec![in rt.alloc(); 0u8; 60_001]?)
}
