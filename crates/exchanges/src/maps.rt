// Maps of boards: bit p stands for board p.
ghost use Rattle.std.specs.Prelude.{◌≡◌};
ghost use Rattle.exchanges.specs.Boards.{bit};

// Whether the map has the board.
pub fn has(map: u8, board: usize) -> bool
    ensures { result ≡ bit map board }
{
    if board >= 8 {
        return false;
    }
    (map >> board) & 1 == 1
}
