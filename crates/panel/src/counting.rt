// The counts of one board over what it heard, and the choice that they lead to.
ghost use Rattle.std.specs.Prelude.{◌≡◌, ◌+◌, ◌-◌, ◌*◌, ◌<◌, Bool, length, take, drop, nat_le, true};
ghost use Rattle.exchanges.specs.Boards.{count};
ghost use Rattle.labels.specs.declared.slip.Slip.{Slip};
ghost use Rattle.panel.specs.Slots.{Slot, has_label, is_slip};
ghost use Rattle.panel.specs.Phase.{supports, unphased, ahead, wins_often, later, best, only, times, most_often, stands, standing, choice_of, heard_enough, best_heard};
ghost use Rattle.panel.specs.Votes.{row_of, rows, Tells, Counts, Beats};

use crate::heard::Heard;
use labels::order::Ordered;
use labels::slip::Slip;

// How many of the slips in a row pass a test; silence never does.
fn votes<L: Ordered, F: Fn(Slip<L>) -> bool>(row: &[Option<Slip<L>>], test: F) -> usize
    requires { F.IsAlwaysCallable test }
    ensures { (T : Slot L → Bool) → Counts (F.post test) T → result ≡ count (λ q. T (row_of row.now q)) (length row.now) }
{
    row.iter()
        .filter(|slot| slot.is_some_and(|s| test(s)))
        .count()
}

// How many slips in a row have this label and this number.
fn times_heard<L: Ordered>(row: &[Option<Slip<L>>], label: L, phase: u8) -> usize
    ensures { result ≡ count (λ q. is_slip L.order label phase (row_of row.now q)) (length row.now) }
{
    votes(
        row,
        |s|
            ensures { result ≡ is_slip L.order label phase (Some s) }
        { label.is_equal(s.label) && s.phase == phase },
    )
}

// How many slips in a row have this label.
// Kept beside `times_heard`: the two tests differ, and all else is `votes`.
fn times_said<L: Ordered>(row: &[Option<Slip<L>>], label: L) -> usize
    ensures { result ≡ times L.order (length row.now) (row_of row.now) label }
{
    votes(
        row,
        |s|
            ensures { result ≡ has_label L.order label (Some s) }
        { label.is_equal(s.label) },
    )
}

// Whether a slip has the greater number, or the same number and the smaller label.
// Kept in words: as a comparison of pairs, one part would have to be turned round.
fn is_later<L: Ordered>(a: Slip<L>, b: Slip<L>) -> bool
    ensures { result ≡ later L.order a b }
{
    b.phase < a.phase || (b.phase == a.phase && a.label.is_below(b.label))
}

// The best in a row of the slips that pass a test, by which of two beats the other.
fn best<L: Ordered, F: Fn(Slip<L>) -> bool, G: Fn(Slip<L>, Slip<L>) -> bool>(
    row: &[Option<Slip<L>>],
    test: F,
    beats: G,
) -> Option<Slip<L>>
    requires tests { F.IsAlwaysCallable test }
    requires compares { G.IsAlwaysCallable beats }
    ensures { (P : Slip L → Bool) (R : Slip L → Slip L → Bool) → Tells (F.post test) P → Beats (G.post beats) R → result ≡ best R (λ q. only P (row_of row.now q)) (length row.now) }
{
    // Kept a loop: as a `reduce` over what passes, the two tests would go through two closures more.
    let mut top: Option<Slip<L>> = None;
    for slot in row {
        let slot = slot.filter(|s| test(*s));
        top = slot.filter(|s| top.is_none_or(|t| beats(*s, t))).or(top);
    }
    top
}

// Whether a label was heard more often than another, or equally often and wins the tie.
fn is_oftener<L: Ordered>(row: &[Option<Slip<L>>], a: Slip<L>, b: Slip<L>) -> bool
    ensures { result ≡ ahead (wins_often L.order) (λ s. times L.order (length row.now) (row_of row.now) s.label) a b }
{
    let x = times_said(row, a.label);
    let y = times_said(row, b.label);
    y < x || (y == x && a.label.is_below(b.label))
}

// A claim of the label heard most often.
fn most_common<L: Ordered>(row: &[Option<Slip<L>>]) -> Option<Slip<L>>
    ensures { result ≡ most_often L.order (length row.now) (row_of row.now) }
{
    best(row, |_| true, |a, b| is_oftener(row, a, b))
}

impl<'a, L: Ordered> Heard<'a, L> {
    // The row of a block; where the memory is short, silence ends it.
    fn row(&self, c: usize) -> &[Option<Slip<L>>]
        requires { c < 256 }
        ensures { result.now ≡ take self.now.size.boards (drop (c * (self.now.size.boards * self.now.size.boards) + self.now.p * self.now.size.boards) self.now.blocks.now) }
    {
        let n = self.size.n();
        let start = (c * (n * n) + self.p * n).min(self.blocks.len());
        let end = (start + n).min(self.blocks.len());
        &self.blocks[start..end]
    }

    // The slip of this number that was heard often enough, with the smallest label.
    pub(crate) fn often(&self, many: usize, phase: u8) -> Option<Slip<L>>
        ensures { result ≡ best_heard L.order self.now.size.boards many phase (rows self.now 0) }
    {
        let row = self.row(0);
        let enough = |s: Slip<L>|
            ensures { result ≡ heard_enough L.order (length row.entry.now) many phase (row_of row.entry.now) s }
        { s.phase == phase && many <= times_heard(row, s.label, phase) };
        best(row, enough, is_later)
    }

    // Whether enough claims have the slip's label or a smaller number.
    fn is_backed(&self, s: Slip<L>) -> bool
        ensures { result ≡ nat_le (self.now.size.boards - self.now.size.faults) (count (λ q. supports L.order s.label s.phase (rows self.now 0 q)) self.now.size.boards) }
    {
        let claims = self.row(0);
        let backers = votes(
            claims,
            |r|
                ensures { result ≡ supports L.order s.label s.phase (Some r) }
            { s.label.is_equal(r.label) || r.phase < s.phase },
        );
        self.size.n() - self.size.t() <= backers
    }

    // Whether enough picks of the slip's phase are the slip.
    fn is_picked(&self, s: Slip<L>) -> bool
        ensures { result ≡ nat_le (self.now.size.faults + 1) (count (λ q. is_slip L.order s.label s.phase (rows self.now s.phase q)) self.now.size.boards) }
    {
        let picks = self.row(usize::from(s.phase));
        self.size.t() + 1 <= times_heard(picks, s.label, s.phase)
    }

    // Whether a claim stands, by the claims and by the picks of its phase.
    fn stands_up(&self, s: Slip<L>) -> bool
        ensures { result ≡ stands L.order self.now.size.boards self.now.size.faults (rows self.now 0) (rows self.now) s }
    {
        0 < s.phase && self.is_backed(s) && self.is_picked(s)
    }

    // The standing claim of the greatest number, with the smallest label there.
    fn best_standing(&self) -> Option<Slip<L>>
        ensures { result ≡ standing L.order self.now.size.boards self.now.size.faults (rows self.now 0) (rows self.now) }
    {
        let claims = self.row(0);
        best(claims, |s| self.stands_up(s), is_later)
    }

    // The label that the board chooses.
    pub(crate) fn choose(&self) -> Option<L>
        ensures { result ≡ choice_of L.order self.now.size.boards self.now.size.faults (rows self.now 0) (rows self.now) }
    {
        if let Some(s) = self.best_standing() {
            return Some(s.label);
        }
        let claims = self.row(0);
        let open = votes(
            claims,
            |s|
                ensures { result ≡ unphased (Some s) }
            { s.phase == 0 },
        );
        if open < self.size.n() - self.size.t() {
            return None;
        }
        most_common(claims).map(|s| s.label)
    }
}
