// What exchanges over a backplane share: when they are refused, and the plain exchange.
ghost use Rattle.std.specs.Prelude.{◌≡◌, ◌+◌, ◌*◌, ◌<◌, ◌≤◌, length, MatchResult};
ghost use Rattle.labels.specs.Refusals.{row};
ghost use Rattle.exchanges.specs.Asked.{due, short};
ghost use Rattle.exchanges.specs.Plain.{plain_run, to_each, from_each};
ghost use Rattle.exchanges.specs.Ran.{heard_at, Ran};

use crate::backplane::Backplane;
use crate::fitting::Size;
use labels::refusal::Refusal;

// Whether what is sent or heard has too few places.
pub(crate) fn too_short<I>(boards: u8, sent: &[Option<I>], heard: &[Option<I>]) -> bool
    ensures { result ≡ short boards sent.now heard.now }
{
    let n = usize::from(boards);
    sent.len() < n || heard.len() < n * n
}

// The counts, where an exchange of so many rounds may begin at this round, and else the refusal that is due.
pub(crate) fn may_begin(
    boards: u8,
    faults: u8,
    too_short: bool,
    round: u16,
    rounds: u16,
) -> Result<Size, Refusal>
    ensures { let d = due boards faults too_short round rounds in MatchResult result (λ z. (d ≡ None) × (z.boards ≡ boards) × (z.faults ≡ faults)) (λ e. d ≡ Some (row e)) }
{
    let size = Size::new(boards, faults).ok_or(Refusal::BadCounts)?;
    if too_short {
        return Err(Refusal::MemoryTooShort);
    }
    if rounds > u16::MAX - round {
        return Err(Refusal::RoundLimit);
    }
    Ok(size)
}

// Where the boards have what p heard from q.
fn place(size: Size, p: usize, q: usize) -> usize
    requires receiver { p < size.boards }
    requires sender { q < size.boards }
    ensures value { result ≡ p * size.boards + q }
    ensures within { result < size.boards * size.boards }
{
    p * size.n() + q
}

// Board s sends its item to each board.
fn send_to_each<I: Copy, B: Backplane<I>>(
    b: &mut B,
    size: Size,
    s: usize,
    item: Option<I>,
    heard: &mut [Option<I>],
)
    requires known { s < size.boards }
    requires room { size.boards * size.boards ≤ length heard.old }
    ensures { heard_at (B.plane b.new) heard.new ≡ to_each size.boards item s (heard_at (B.plane b.old) heard.old) size.boards }
{
    // Kept by place: what is heard from one sender is a column, and after `iter_mut` with steps a proof knows no element.
    for d in 0..size.n() {
        heard[place(size, d, s)] = b.carry(s, d, item);
    }
}

// Each board sends what it has to all.
fn send_all<I: Copy, B: Backplane<I>>(
    b: &mut B,
    size: Size,
    sent: &[Option<I>],
    heard: &mut [Option<I>],
)
    requires given { size.boards ≤ length sent.now }
    requires room { size.boards * size.boards ≤ length heard.old }
    ensures { heard_at (B.plane b.new) heard.new ≡ from_each size.boards sent.now (heard_at (B.plane b.old) heard.old) size.boards }
{
    for (s, item) in sent[..size.n()].iter().enumerate() {
        send_to_each(b, size, s, *item, heard);
    }
}

// A plain exchange over the backplane: a turn, and a carry for each pair, by sender and then receiver.
pub(crate) fn plain_over<I: Copy, B: Backplane<I>>(
    b: &mut B,
    faults: u8,
    sent: &[Option<I>],
    heard: &mut [Option<I>],
) -> Result<(), Refusal>
    ensures { Ran B.plane plain_run b.old b.new sent.now (due (B.plane b.old).boards faults (short (B.plane b.old).boards sent.now heard.old) (B.plane b.old).round 1) heard.old heard.new result }
{
    let boards = b.boards();
    let short = too_short(boards, sent, heard);
    let size = may_begin(boards, faults, short, b.round(), 1)?;
    b.turn()?;
    send_all(b, size, sent, heard);
    Ok(())
}
