// A trigger stamp: the time at which the exposure was triggered.
ghost use Rattle.std.specs.Prelude.{◌≡◌, ◌^◌, ◌<◌, ◌≤◌, MatchResult};
ghost use Rattle.labels.specs.Refusals.{row};

use crate::refusal::Refusal;

// Seconds, and ticks of a hundred-millionth of a second.
#[derive(Clone, Copy, PartialEq, Eq, PartialOrd, Ord, Debug)]
pub struct TriggerStamp {
    seconds: u32,
    ticks: u32,
    ghost fits: { seconds < 2 ^ 32 },
    ghost below: { ticks < 100000000 },
}

impl TriggerStamp {
    // A second has 100,000,000 ticks, so no stamp has as many.
    pub fn new(seconds: u32, ticks: u32) -> Result<Self, Refusal>
        ensures { MatchResult result (λ s. (s.seconds ≡ seconds) × (s.ticks ≡ ticks)) (λ e. (row e ≡ 16) × (100000000 ≤ ticks)) }
    {
        if ticks >= 100_000_000 {
            return Err(Refusal::NoLabel);
        }
        Ok(TriggerStamp { seconds, ticks })
    }

    pub fn seconds(self) -> u32
        ensures { result ≡ self.seconds }
    {
        self.seconds
    }

    pub fn ticks(self) -> u32
        ensures { result ≡ self.ticks }
    {
        self.ticks
    }
}
