// A script in lists of its own.
ghost use Rattle.report.specs.Unrun.{NotRefused};

use crate::error::ScriptError;
use crate::storage::{HEARD, MOST_BOARDS, MOST_RECORDS, MOST_SLIPS, PICKS, SLOTS, WORKSPACE};
use labels::frame_number::FrameNumber;
use labels::label::Label;
use labels::slip::Slip;
use labels::trigger_stamp::TriggerStamp;
use script::model::{Header, Record, Script};
use script::reading::read;
use script::running::run;
use script::writing::write;
use std::alloc::Global;

// Labels of which one is at hand, for lists to begin with.
// Kept a trait: a label has no default of its own, and no use for one but here.
pub(crate) trait Blank: Label {
    fn blank() -> Self;
}

impl Blank for FrameNumber {
    fn blank() -> Self {
        FrameNumber::new(0)
    }
}

impl Blank for TriggerStamp {
    fn blank() -> Self {
        TriggerStamp::new(0, 0).unwrap()
    }
}

// The header, the records, and lists of proposals and slips with room for any script.
#[derive(Drop)]
pub(crate) struct Stored<L> {
    head: Header,
    proposals: Vec<L>,
    records: Vec<Record>,
    slips: Vec<Slip<L>>,
}

// What comes of a run: the map of bad boards, how many phases were run, and the verdict of each board.
#[derive(Drop)]
pub(crate) struct Ran<L> {
    pub bad: u8,
    pub phases: u8,
    pub told: Vec<Option<L>>,
}

impl<L: Blank> Stored<L> {
    // The script in the bytes.
    pub(crate) fn read(heap: Global, input: &[u8]) -> Result<Self, ScriptError>
        ensures { NotRefused result }
    {
        let empty = Slip {
            label: L::blank(),
            phase: 0,
        };
        let mut proposals = vec![in heap; L::blank(); MOST_BOARDS]?;
        let mut records = vec![in heap; Record::default(); MOST_RECORDS]?;
        let mut slips = vec![in heap; empty; MOST_SLIPS]?;
        let (head, count) = read(input, &mut proposals, &mut records, &mut slips)?;
        records.truncate(count);
        Ok(Stored {
            head,
            proposals,
            records,
            slips,
        })
    }

    fn script(&self) -> Script<L> {
        Script {
            head: self.head,
            proposals: &self.proposals,
            records: &self.records,
            count: self.records.len(),
            slips: &self.slips,
        }
    }

    // Writes the script's bytes, and answers how many there are.
    pub(crate) fn write(&self, output: &mut [u8]) -> Result<usize, ScriptError>
        ensures { NotRefused result }
    {
        Ok(write(self.script(), output)?)
    }

    // Runs the script over slots and blocks of its own.
    pub(crate) fn run(&self, heap: Global) -> Result<Ran<L>, ScriptError> {
        let head = self.head;
        let mut slots = vec![in heap; None; SLOTS]?;
        let mut heard = vec![in heap; None; HEARD]?;
        let mut picks = vec![in heap; None; PICKS]?;
        let mut work = vec![in heap; None; WORKSPACE]?;
        let mut told = vec![in heap; None; usize::from(head.boards)]?;
        let phases = run(
            self.script(),
            &mut slots,
            &mut heard,
            &mut picks,
            &mut work,
            &mut told,
        )?;
        let bad = head.bad_boards();
        Ok(Ran { bad, phases, told })
    }
}
