// A backplane that obeys records: which receivers lose what a board sends in a round, and which get a forged item.
ghost use Rattle.std.specs.Prelude.{◌≡◌, take};
ghost use Rattle.std.specs.Cow.{cow_slice_items};
ghost use Rattle.exchanges.specs.Plane.{Carried};
ghost use Rattle.script.specs.Obeys.{Obeys};
ghost use Rattle.script.specs.ScriptAnswers.{obeyed, script};
ghost use Rattle.script.specs.ScriptPlane.{script_plane};
ghost use Rattle.script.specs.Scripts.{script_keeps};

use crate::lists::IntoList;
use crate::model::Record;
use crate::rules::{Rule, rank};
use crate::script_rules::ScriptRules;
use exchanges::backplane::Backplane;
use exchanges::maps::has;
use labels::refusal::Refusal;
use std::borrow::CowSlice;

// A backplane that obeys the records of a script. Its two lists are lent or its own.
#[derive(Drop)]
pub struct ScriptBackplane<'a, I> {
    boards: u8,
    bad: u8,
    rules: ScriptRules<'a>,
    slips: CowSlice<'a, I>,
}

// What the receiver hears under the sender's rule.
// Kept parameters: a rule, the slips, the bad boards and a carry meet only here.
fn obey<I: Copy>(
    rule: Option<Rule>,
    slips: &CowSlice<'_, I>,
    bad: u8,
    from: usize,
    to: usize,
    sent: Option<I>,
) -> Option<I>
    ensures { result ≡ obeyed rule (cow_slice_items slips.now) bad from to sent }
{
    let Some(c) = rule else {
        return sent;
    };
    if has(c.lost, to) {
        return None;
    }
    if has(bad, from) && has(c.forged, to) {
        return slips
            .as_slice()
            .get(c.start..)?
            .get(rank(c.forged, to))
            .copied();
    }
    sent
}

impl<'a, I: Copy> ScriptBackplane<'a, I> {
    // So many boards, the map of the bad ones, the records of which the first so many count, and the forged items of all these in order; at round 0.
    // Kept a count beside the records: how many of them count is the caller's to say.
    pub fn new<R: IntoList<'a, Record>, S: IntoList<'a, I>>(
        boards: u8,
        bad: u8,
        records: R,
        count: usize,
        slips: S,
    ) -> Self
        ensures means { script_plane result ≡ script boards bad (take count (R.held records)) (S.held slips) 0 }
        ensures obeys { Obeys boards bad (take count (R.held records)) (S.held slips) (script_plane result) }
    {
        ScriptBackplane {
            boards,
            bad,
            rules: ScriptRules::new(records.into_list(), count),
            slips: slips.into_list(),
        }
    }
}

impl<'a, I: Copy> Backplane<I> for ScriptBackplane<'a, I> {
    ghost plane = { script_plane };

    ghost keeps = { λ b. script_keeps b.boards b.bad (cow_slice_items b.rules.records) (cow_slice_items b.slips) b.rules.round };

    fn boards(&self) -> u8 {
        self.boards
    }

    fn round(&self) -> u16 {
        self.rules.round
    }

    fn turn(&mut self) -> Result<(), Refusal> {
        let next = self.rules.round.checked_add(1);
        self.rules.turn_to(next.ok_or(Refusal::RoundLimit)?);
        Ok(())
    }

    fn carry(&mut self, from: usize, to: usize, sent: Option<I>) -> Option<I>
        ensures { Carried (script_plane self.old) (script_plane self.new) from to sent result }
    {
        let n = usize::from(self.boards);
        if from >= n || to >= n {
            return None;
        }
        obey(self.rules.rule(from), &self.slips, self.bad, from, to, sent)
    }
}
