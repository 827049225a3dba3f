// A frame number: the exposure's place in the run, 32 bits without a sign.
ghost use Rattle.std.specs.Prelude.{◌≡◌, ◌^◌, ◌<◌};

#[derive(Clone, Copy, PartialEq, Eq, PartialOrd, Ord, Debug)]
pub struct FrameNumber {
    number: u32,
    ghost fits: { number < 2 ^ 32 },
}

impl FrameNumber {
    pub fn new(number: u32) -> Self
        ensures { result.number ≡ number }
    {
        FrameNumber { number }
    }

    pub fn number(self) -> u32
        ensures { result ≡ self.number }
    {
        self.number
    }
}
