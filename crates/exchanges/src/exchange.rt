// An exchange gives each board what every board sent: plainly in one round, or firmly in several.
ghost use Rattle.std.specs.Prelude.{◌≡◌};
ghost use Rattle.exchanges.specs.Exchange.{Exchange, Keeps};
ghost use Rattle.exchanges.specs.Asked.{PlainAsked, FirmAsked};

use labels::refusal::Refusal;

pub trait Exchange<I> {
    // what the exchange means
    ghost meaning: { Self → Exchange I };

    fn boards(&self) -> u8
        ensures { result ≡ (meaning self.now).boards };

    // how many boards may be bad
    fn faults(&self) -> u8
        ensures { result ≡ (meaning self.now).faults };

    fn round(&self) -> u16
        ensures { result ≡ (meaning self.now).round };

    // how many rounds a firm exchange takes
    fn firm_rounds(&self) -> u16
        ensures { result ≡ (meaning self.now).firm_rounds };

    // how many slots a firm exchange works in
    fn workspace(&self) -> usize
        ensures { result ≡ (meaning self.now).workspace };

    // Each board sends its slot of `sent`; place p * n + q of `heard` gets what p heard from q.
    fn plain(&mut self, sent: &[Option<I>], heard: &mut [Option<I>]) -> Result<(), Refusal>
        ensures { PlainAsked meaning self.old self.new sent.now heard.old heard.new result };

    // The same, firmly; the workspace is free afterwards.
    fn firm(
        &mut self,
        sent: &[Option<I>],
        heard: &mut [Option<I>],
        work: &mut [Option<I>],
    ) -> Result<(), Refusal>
        ensures { FirmAsked meaning self.old self.new sent.now heard.old heard.new work.old work.new result };

    ghost keeps: { (x : Self) → Keeps (meaning x) };
}
