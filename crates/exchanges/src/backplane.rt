// A backplane joins boards, and carries items from one to another in rounds.
ghost use Rattle.std.specs.Prelude.{◌≡◌};
ghost use Rattle.exchanges.specs.Plane.{Plane, Keeps, Turned, Carried};

use labels::refusal::Refusal;

pub trait Backplane<I> {
    // what the backplane means
    ghost plane: { Self → Plane I };

    fn boards(&self) -> u8
        ensures { result ≡ (plane self.now).boards };

    fn round(&self) -> u16
        ensures { result ≡ (plane self.now).round };

    // One round on, or a refusal at the last round.
    fn turn(&mut self) -> Result<(), Refusal>
        ensures { Turned plane self.old self.new result };

    // What the receiver hears where the sender sends this item, or silence.
    fn carry(&mut self, from: usize, to: usize, sent: Option<I>) -> Option<I>
        ensures { Carried (plane self.old) (plane self.new) from to sent result };

    ghost keeps: { (b : Self) → Keeps (plane b) };
}
