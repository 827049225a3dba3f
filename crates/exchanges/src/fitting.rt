// How many boards there may be, and how many of them may be bad.
ghost use Rattle.std.specs.Prelude.{◌≡◌, ◌*◌, ◌<◌, ◌≤◌, false, MatchOption};
ghost use Rattle.exchanges.specs.Boards.{fits, most_boards};

// the most boards that there may be
pub const MOST_BOARDS: u8 = 7;

// Whether so many boards serve where so many of them may be bad.
pub fn fits_counts(boards: u8, faults: u8) -> bool
    ensures { result ≡ fits boards faults }
{
    0 < boards && boards <= MOST_BOARDS && 3 * u16::from(faults) < u16::from(boards)
}

// How many boards there are, and how many of them may be bad, where these fit.
#[derive(Clone, Copy, PartialEq, Eq, Debug)]
pub struct Size {
    pub boards: u8,
    pub faults: u8,
    ghost few: { boards ≤ most_boards },
    ghost fewer: { 3 * faults < boards },
}

impl Size {
    // None where the counts do not fit.
    pub fn new(boards: u8, faults: u8) -> Option<Size>
        ensures { MatchOption result (fits boards faults ≡ false) (λ z. (z.boards ≡ boards) × (z.faults ≡ faults)) }
    {
        if !fits_counts(boards, faults) {
            return None;
        }
        Some(Size { boards, faults })
    }

    // The number of boards, to count with.
    pub fn n(self) -> usize
        ensures { result ≡ self.boards }
    {
        usize::from(self.boards)
    }

    // The number of boards that may be bad, to count with.
    pub fn t(self) -> usize
        ensures { result ≡ self.faults }
    {
        usize::from(self.faults)
    }
}
