// The records of a script at one round.
ghost use Rattle.std.specs.Prelude.{◌≡◌, ℕ, ◌<◌, take, None, slice_index_or};
ghost use Rattle.std.specs.Cow.{cow_slice_items};
ghost use Rattle.script.specs.ScriptAnswers.{first_rule};

use crate::model::Record;
use crate::rules::{Rule, look_up};
use std::borrow::CowSlice;

// The first of the records, so many or as many as there are.
fn first_of(records: CowSlice<'_, Record>, count: usize) -> CowSlice<'_, Record>
    ensures { cow_slice_items result ≡ take count (cow_slice_items records.entry) }
{
    let count = count.min(records.len());
    match records {
        CowSlice::Borrowed(lent) => CowSlice::Borrowed(&lent[..count]),
        CowSlice::Owned(mut own) => {
            own.truncate(count);
            CowSlice::Owned(own)
        }
    }
}

// The table has the rules of the senders 0 to 7 in the present round.
// Kept a fixed table: a sender is one of a few, and the boards have no heap for a map.
#[derive(Drop)]
pub(crate) struct ScriptRules<'a> {
    pub(crate) records: CowSlice<'a, Record>,
    pub(crate) round: u16,
    table: [Option<Rule>; 8],
    ghost found: { (s : ℕ) → s < 8 → slice_index_or table s None ≡ first_rule (cow_slice_items records) 0 round s },
}

impl<'a> ScriptRules<'a> {
    // The first of the records, so many or as many as there are, at round 0.
    pub(crate) fn new(records: CowSlice<'a, Record>, count: usize) -> Self
        ensures kept { cow_slice_items result.records ≡ take count (cow_slice_items records.entry) }
        ensures at { result.round ≡ 0 }
    {
        let records = first_of(records, count);
        let table = look_up(records.as_slice(), 0, 0);
        ScriptRules {
            records,
            round: 0,
            table,
        }
    }

    // To another round.
    pub(crate) fn turn_to(&mut self, round: u16)
        ensures kept { self.new.records ≡ self.old.records }
        ensures at { self.new.round ≡ round }
    {
        let table = look_up(self.records.as_slice(), round, 0);
        self.round = round;
        self.table = table;
    }

    // The rule of the sender in the present round. A sender past the table is looked up anew.
    pub(crate) fn rule(&self, sender: usize) -> Option<Rule>
        ensures { result ≡ first_rule (cow_slice_items self.now.records) 0 self.now.round sender }
    {
        if let Some(rule) = self.table.get(sender) {
            return *rule;
        }
        let table = look_up(self.records.as_slice(), self.round, sender);
        table[0]
    }
}
