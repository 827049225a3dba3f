// A backplane whose bad boards give odd receivers one fixed item; all else passes as sent.
ghost use Rattle.std.specs.Prelude.{◌≡◌};
ghost use Rattle.exchanges.specs.Plane.{Carried};
ghost use Rattle.exchanges.specs.TwoFaced.{two_faced, two_faced_plane};
ghost use Rattle.std.proofs.Common.{rules};

use crate::backplane::Backplane;
use crate::maps::has;
use labels::refusal::Refusal;

#[derive(Drop)]
pub struct TwoFaced<I> {
    boards: u8,
    bad: u8,
    fixed: I,
    round: u16,
}

impl<I: Copy> TwoFaced<I> {
    // So many boards, the map of the bad ones, and what these give odd receivers; at round 0.
    pub fn new(boards: u8, bad: u8, fixed: I) -> Self
        ensures { two_faced_plane result ≡ two_faced boards bad fixed 0 }
    {
        TwoFaced {
            boards,
            bad,
            fixed,
            round: 0,
        }
    }
}

impl<I: Copy> Backplane<I> for TwoFaced<I> {
    ghost plane = { two_faced_plane };

    ghost keeps = { Prim.search rules };

    fn boards(&self) -> u8 {
        self.boards
    }

    fn round(&self) -> u16 {
        self.round
    }

    fn turn(&mut self) -> Result<(), Refusal> {
        self.round = self.round.checked_add(1).ok_or(Refusal::RoundLimit)?;
        Ok(())
    }

    fn carry(&mut self, from: usize, to: usize, sent: Option<I>) -> Option<I>
        ensures { Carried (two_faced_plane self.old) (two_faced_plane self.new) from to sent result }
    {
        let n = usize::from(self.boards);
        if from >= n || to >= n {
            return None;
        }
        if to % 2 == 1 && has(self.bad, from) {
            return Some(self.fixed);
        }
        sent
    }
}
