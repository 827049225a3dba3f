// A layer over any backplane: silence on a cut line, and else what the backplane below carries.
ghost use Rattle.std.specs.Prelude.{◌≡◌};
ghost use Rattle.exchanges.specs.Plane.{Carried};
ghost use Rattle.exchanges.specs.CutLines.{cut, cut_lines_plane};
ghost use Rattle.exchanges.specs.Cuts.{cut_keeps};

use crate::backplane::Backplane;
use crate::maps::has;
use labels::refusal::Refusal;

// Whether the line is cut, by the map of receivers of each sender.
fn is_cut(rows: &[u8; 7], from: usize, to: usize) -> bool
    ensures { result ≡ cut rows.now from to }
{
    rows.get(from).is_some_and(|row| has(*row, to))
}

#[derive(Drop)]
pub struct CutLines<B> {
    rows: [u8; 7],
    below: B,
}

impl<B> CutLines<B> {
    // For each of seven senders the map of the receivers that are cut off from it, over a backplane.
    pub fn new(rows: [u8; 7], below: B) -> Self
        ensures lines { result.rows ≡ rows }
        ensures under { result.below ≡ below }
    {
        CutLines { rows, below }
    }
}

impl<I: Copy, B: Backplane<I>> Backplane<I> for CutLines<B> {
    ghost plane = { cut_lines_plane B.plane };

    ghost keeps = { λ b. cut_keeps b.rows (B.plane b.below) (B.keeps b.below) };

    fn boards(&self) -> u8 {
        self.below.boards()
    }

    fn round(&self) -> u16 {
        self.below.round()
    }

    fn turn(&mut self) -> Result<(), Refusal> {
        self.below.turn()
    }

    fn carry(&mut self, from: usize, to: usize, sent: Option<I>) -> Option<I>
        ensures { Carried (cut_lines_plane B.plane self.old) (cut_lines_plane B.plane self.new) from to sent result }
    {
        if is_cut(&self.rows, from, to) {
            return None;
        }
        self.below.carry(from, to, sent)
    }
}
