// What a kind of label is.
ghost use Rattle.std.specs.Prelude.{◌≡◌, ℕ};
ghost use Rattle.labels.specs.Coding.{Coding, Own, Overwrites};

use crate::order::Ordered;

// A kind of label: ordered, and with bytes of its own.
pub trait Label: Ordered {
    // the number of the kind
    // Kept a number: a further kind has its own, and need not be one of the two here.
    const KIND: u8;

    // how many bytes a label has
    const WIDTH: usize;

    ghost KIND: { ℕ };

    ghost WIDTH: { ℕ };

    // how labels stand in bytes
    ghost coding: { Coding Self };

    // The label that has these bytes, if one has.
    fn from_bytes(bytes: &[u8]) -> Option<Self>
        ensures { result ≡ coding.read bytes.now };

    // Writes the label's bytes over as many; false, with nothing written, at another length.
    // Kept a yes or no: there is one reason to refuse, and nothing to answer.
    fn to_bytes(self, out: &mut [u8]) -> bool
        ensures { Overwrites (coding.write self) out.old out.new result };

    ghost own: { Own coding };

    ghost numbered: { KIND ≡ coding.kind };

    ghost wide: { WIDTH ≡ coding.width };
}
