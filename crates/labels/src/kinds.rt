// The two kinds of labels: frame numbers and trigger stamps.
ghost use Rattle.std.specs.Prelude.{◌≡◌, ◌+◌, ◌≤◌, ◌++◌, length, Some, refl};
ghost use Rattle.labels.specs.Bytes.{four_bytes, laid};
ghost use Rattle.labels.specs.Kinds.{frame_order, stamp_order, frame_coding, stamp_coding, frame_text, stamp_text, number_at};
ghost use Rattle.labels.specs.Orders.{frame_total, stamp_total};
ghost use Rattle.labels.specs.Codings.{frame_own, stamp_own};

use crate::frame_number::FrameNumber;
use crate::kind::Kind;
use crate::label::Label;
use crate::order::Ordered;
use crate::trigger_stamp::TriggerStamp;
use std::cmp::Ordering;
use std::fmt;

// The number in the four bytes from a place on.
// Kept four reads: a part of the slice as an array would want an answer for a length that cannot be.
fn number_at(b: &[u8], at: usize) -> u32
    requires { at + 4 ≤ length b.now }
    ensures { result ≡ number_at b.now at }
{
    u32::from_be_bytes([b[at], b[at + 1], b[at + 2], b[at + 3]])
}

// Lays the four bytes of a number over memory from a place on.
fn put_number(out: &mut [u8], at: usize, number: u32)
    requires { at + 4 ≤ length out.old }
    ensures { out.new ≡ laid (four_bytes number) at out.old }
{
    out[at..at + 4].copy_from_slice(&number.to_be_bytes());
}

impl Ordered for FrameNumber {
    ghost order = { frame_order };

    ghost total = { frame_total };

    // Kept a method: `Ordered` asks for no `Ord`; the comparison is the derived one.
    fn compare(self, other: FrameNumber) -> Ordering {
        self.cmp(&other)
    }
}

impl Label for FrameNumber {
    const KIND: u8 = Kind::Frames as u8;

    const WIDTH: usize = 4;

    ghost coding = { frame_coding };

    ghost KIND = { 1 };

    ghost WIDTH = { 4 };

    ghost own = { frame_own };

    ghost numbered = { refl };

    ghost wide = { refl };

    fn from_bytes(bytes: &[u8]) -> Option<FrameNumber> {
        if bytes.len() != 4 {
            return None;
        }
        Some(FrameNumber::new(number_at(bytes, 0)))
    }

    fn to_bytes(self, out: &mut [u8]) -> bool {
        if out.len() != 4 {
            return false;
        }
        put_number(out, 0, self.number());
        true
    }
}

impl Ordered for TriggerStamp {
    ghost order = { stamp_order };

    ghost total = { stamp_total };

    // By seconds, and then by ticks, as the fields stand.
    // Kept as for frame numbers.
    fn compare(self, other: TriggerStamp) -> Ordering {
        self.cmp(&other)
    }
}

impl Label for TriggerStamp {
    const KIND: u8 = Kind::Stamps as u8;

    const WIDTH: usize = 8;

    ghost coding = { stamp_coding };

    ghost KIND = { 2 };

    ghost WIDTH = { 8 };

    ghost own = { stamp_own };

    ghost numbered = { refl };

    ghost wide = { refl };

    fn from_bytes(bytes: &[u8]) -> Option<TriggerStamp> {
        if bytes.len() != 8 {
            return None;
        }
        TriggerStamp::new(number_at(bytes, 0), number_at(bytes, 4)).ok()
    }

    fn to_bytes(self, out: &mut [u8]) -> bool {
        if out.len() != 8 {
            return false;
        }
        put_number(out, 0, self.seconds());
        put_number(out, 4, self.ticks());
        true
    }
}

impl fmt::Display for FrameNumber {
    ghost output = { λ f. Some (frame_text f) };

    fn fmt<W: fmt::Write>(&self, f: &mut fmt::Formatter<W>) -> fmt::Result {
        let number = self.number();
        write!(f, "{number}")
    }
}

impl fmt::Display for TriggerStamp {
    ghost output = { λ s. Some (stamp_text s) };

    // Seconds, a point and eight digits.
    fn fmt<W: fmt::Write>(&self, f: &mut fmt::Formatter<W>) -> fmt::Result {
        let seconds = self.seconds();
        let ticks = self.ticks();
        write!(f, "{seconds}.{ticks:08}")
    }
}
