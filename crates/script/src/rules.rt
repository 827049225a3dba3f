// What the records of one round say of each sender.
ghost use Rattle.std.specs.Prelude.{◌≡◌, ℕ, ◌+◌, ◌%◌, ◌^◌, ◌<◌, [], ◌∷◌, length, is_some, if◌then◌else◌, None, count_ones, slice_index_or};
ghost use Rattle.script.specs.ScriptAnswers.{first_rule};

use crate::model::Record;
use crate::tally::map_count;

// The maps of the first record for a round and sender, and the place of its first forged item.
#[derive(Clone, Copy)]
pub(crate) struct Rule {
    pub(crate) lost: u8,
    pub(crate) forged: u8,
    pub(crate) start: usize,
}

// How many bits below the board's stand in the map.
pub(crate) fn rank(map: u8, board: usize) -> usize
    ensures { result ≡ count_ones (map % 2 ^ board) }
{
    if board >= 8 {
        return map_count(map);
    }
    map_count(map % (1 << board))
}

// Enters the record, whose forged items begin at start, if it is for the round and for a sender of the table that has no rule yet.
// Place s of the table stands for the sender first + s.
fn enter(table: &mut [Option<Rule>], c: Record, start: usize, round: u16, first: usize)
    ensures { (s : ℕ) → s < length table.old → slice_index_or table.new s None ≡ (if is_some (slice_index_or table.old s None) then slice_index_or table.old s None else first_rule (c ∷ []) start round (first + s)) }
{
    let sender = usize::from(c.sender);
    if c.round != round || sender < first {
        return;
    }
    // Kept by index: with `get_mut` and `get_or_insert` the proof did not close.
    let s = sender - first;
    if s < table.len() && table[s].is_none() {
        table[s] = Some(Rule {
            lost: c.lost,
            forged: c.forged,
            start,
        });
    }
}

// The rules of the eight senders from the first on, in one pass over the records.
// Kept a fixed table: a sender is one of a few, and the boards have no heap for a map.
pub(crate) fn look_up(records: &[Record], round: u16, first: usize) -> [Option<Rule>; 8]
    ensures { (s : ℕ) → s < 8 → slice_index_or result s None ≡ first_rule records.now 0 round (first + s) }
{
    let mut table: [Option<Rule>; 8] = [None; 8];
    let mut start: usize = 0;
    for c in records {
        enter(&mut table, *c, start, round, first);
        start += map_count(c.forged);
    }
    table
}
