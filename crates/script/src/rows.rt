// Rows of like fields, labels or slips: a pass that only checks, one that fills a list, and one that
// puts a list into a buffer.
ghost use Rattle.std.specs.Prelude.{◌≡◌, ℕ, List, length};
ghost use Rattle.labels.specs.Coding.{read_at};
ghost use Rattle.labels.specs.Faults.{answered};
ghost use Rattle.script.specs.Entries.{slip, slip_bytes};
ghost use Rattle.script.specs.Fields.{many, joined};
ghost use Rattle.script.specs.Passes.{placed, Filled, Puts};
ghost use Rattle.script.specs.Readers.{Read};

use crate::fields::{put_label, put_slip, read_slip};
use labels::fault::Fault;
use labels::label::Label;
use labels::reading::read_label;
use labels::slip::Slip;

// What stands in a row, one after another.
pub(crate) trait Row<X> {
    // what is read at a place, and what is written
    ghost reader: { List ℕ → ℕ → Read X };

    ghost bytes: { X → List ℕ };

    fn read_one(b: &[u8], p: usize) -> Result<(X, usize), Fault>
        ensures { answered result ≡ reader b.now p };

    fn put_one(x: X, out: &mut [u8], at: usize) -> Result<usize, Fault>
        ensures { Puts (bytes x) out.old at (answered result) out.new };
}

pub(crate) struct Labels;

pub(crate) struct Slips;

impl<L: Label> Row<L> for Labels {
    ghost reader = { read_at L.coding };

    ghost bytes = { L.coding.write };

    fn read_one(b: &[u8], p: usize) -> Result<(L, usize), Fault> {
        read_label(b, p)
    }

    fn put_one(x: L, out: &mut [u8], at: usize) -> Result<usize, Fault> {
        put_label(x, out, at)
    }
}

impl<L: Label> Row<Slip<L>> for Slips {
    ghost reader = { slip L.coding };

    ghost bytes = { slip_bytes L.coding };

    fn read_one(b: &[u8], p: usize) -> Result<(Slip<L>, usize), Fault> {
        read_slip(b, p)
    }

    fn put_one(x: Slip<L>, out: &mut [u8], at: usize) -> Result<usize, Fault> {
        put_slip(x, out, at)
    }
}

// The place after so many values.
pub(crate) fn skip_row<X: Copy, R: Row<X>>(n: usize, b: &[u8], start: usize) -> Result<usize, Fault>
    ensures { answered result ≡ placed (many n R.reader b.now start) }
{
    let mut p = start;
    for _i in 0..n {
        let (_x, q) = R::read_one(b, p)?;
        p = q;
    }
    Ok(p)
}

// Values into a list, one for each place of it.
// Kept beside `skip_row`: that pass has a number of values, and no list to fill.
pub(crate) fn fill_row<X: Copy, R: Row<X>>(
    b: &[u8],
    start: usize,
    list: &mut [X],
) -> Result<usize, Fault>
    ensures { Filled (many (length list.old) R.reader b.now start) (answered result) list.new }
{
    let mut p = start;
    for slot in list.iter_mut() {
        let (x, q) = R::read_one(b, p)?;
        *slot = x;
        p = q;
    }
    Ok(p)
}

// The values of a list into a buffer.
pub(crate) fn put_row<X: Copy, R: Row<X>>(
    list: &[X],
    out: &mut [u8],
    at: usize,
) -> Result<usize, Fault>
    ensures { Puts (joined R.bytes list.now) out.old at (answered result) out.new }
{
    let mut p = at;
    for x in list {
        p = R::put_one(*x, out, p)?;
    }
    Ok(p)
}
