// Running a script as it lies in memory: the panel's calls over the script's backplane.
ghost use Rattle.std.specs.Prelude.{◌≡◌, ◌<◌, ◌≤◌, length};
ghost use Rattle.panel.specs.Slots.{label_of};
ghost use Rattle.panel.specs.Panel.{at, sizes, verdict_place};
ghost use Rattle.panel.specs.Modelled.{state};
ghost use Rattle.script.specs.Memory.{lists_of};
ghost use Rattle.script.specs.Runs.{phases_due, opening, proposing, phases, history, verdicts, Ran, Went};

use crate::model::{Header, Script};
use crate::script_plane::ScriptBackplane;
use exchanges::backplane::Backplane;
use exchanges::exchange::Exchange;
use exchanges::tree::Tree;
use labels::order::Ordered;
use labels::refusal::Refusal;
use labels::slip::Slip;
use panel::Panel;

// The boards propose these labels, from board 0 on.
fn propose_all<L: Ordered>(panel: &mut Panel<L>, proposals: &[L]) -> Result<(), Refusal>
    ensures { Went L.order (state panel.old) (proposing 0 proposals.now) (state panel.new) result }
{
    for (board, label) in proposals.iter().enumerate() {
        panel.propose(board, *label)?;
    }
    Ok(())
}

// So many phases, one after another.
// Kept three blocks: the panel takes them so, and says of each what of it is left as it was.
fn run_phases<L: Ordered, E: Exchange<Slip<L>>>(
    panel: &mut Panel<L>,
    exchange: &mut E,
    count: u8,
    heard: &mut [Option<Slip<L>>],
    picks: &mut [Option<Slip<L>>],
    work: &mut [Option<Slip<L>>],
) -> Result<(), Refusal>
    ensures { Went L.order (state panel.old) (phases L.order (sizes (length heard.old) (length picks.old) (length work.old)) (state panel.old) (E.meaning exchange.old) count).calls (state panel.new) result }
{
    for _i in 0..count {
        panel.phase(exchange, heard, picks, work)?;
    }
    Ok(())
}

// The verdict of a board that the panel has.
fn verdict_of<L: Ordered>(panel: &Panel<L>, board: usize) -> Option<L>
    requires { board < (state panel.now).boards }
    ensures { result ≡ label_of (at (state panel.now).slots board verdict_place) }
{
    panel.verdict(board).unwrap_or(None)
}

// The verdicts of the boards, as many as the list has places.
fn tell_verdicts<L: Ordered>(panel: &Panel<L>, told: &mut [Option<L>])
    requires { length told.old ≤ (state panel.now).boards }
    ensures { told.new ≡ verdicts (length told.old) (state panel.now) }
{
    for (board, place) in told.iter_mut().enumerate() {
        *place = verdict_of(panel, board);
    }
}

// Fits the panel, and lets the boards propose, or as many as there are proposals for.
fn open_panel<L: Ordered>(
    panel: &mut Panel<L>,
    head: Header,
    proposals: &[L],
) -> Result<(), Refusal>
    ensures { Went L.order (state panel.old) (opening head proposals.now) (state panel.new) result }
{
    panel.fit(head.boards, head.faults_borne())?;
    let there = usize::from(head.boards).min(proposals.len());
    propose_all(panel, &proposals[..there])
}

// Runs the script that lies in memory with the tree exchange, on a new panel over the slots. The
// verdict of each board stands at the board's place of the list `told`, and the answer is how many
// phases were run. At the first call that the panel refuses the run ends with this refusal, and the
// list stays as it was. The slots and the three blocks are free afterwards.
// Kept three blocks: the panel takes them so.
pub fn run<L: Ordered>(
    script: Script<L>,
    slots: &mut [Option<Slip<L>>],
    heard: &mut [Option<Slip<L>>],
    picks: &mut [Option<Slip<L>>],
    work: &mut [Option<Slip<L>>],
    told: &mut [Option<L>],
) -> Result<u8, Refusal>
    ensures { Ran L.order slots.old (history L.order slots.old (sizes (length heard.old) (length picks.old) (length work.old)) script.entry.head script.entry.count (lists_of script.entry)) script.entry.head.boards (phases_due script.entry.head) told.old told.new result }
{
    let head = script.head;
    let n = usize::from(head.boards);
    if told.len() < n {
        return Err(Refusal::MemoryTooShort);
    }
    let mut panel = Panel::new(slots);
    open_panel(&mut panel, head, script.proposals)?;
    let plane = ScriptBackplane::new(
        head.boards,
        head.bad_boards(),
        script.records,
        script.count,
        script.slips,
    );
    let mut trees = Tree::new(plane, head.faults_borne());
    let phases = head.phases_due();
    run_phases(&mut panel, &mut trees, phases, heard, picks, work)?;
    tell_verdicts(&panel, &mut told[..n]);
    Ok(phases)
}
