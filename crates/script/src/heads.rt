// The reader of the header.
ghost use Rattle.std.specs.Prelude.{◌≡◌, ℕ, ◌<◌, Bool};
ghost use Rattle.labels.specs.Faults.{answered};
ghost use Rattle.script.specs.Header.{field, fields, header};

use crate::fields::read_byte;
use crate::model::{Header, PHASES_DEFAULT, faults_default};
use crate::records::is_within;
use exchanges::fitting::MOST_BOARDS;
use exchanges::maps::has;
use labels::fault::{Fault, Reader};
use labels::refusal::Refusal;

// A field, if it stands: its value must fit, and not be the default.
fn read_field<F: Fn(u8) -> bool>(
    stands: bool,
    default: u8,
    fits: F,
    b: &[u8],
    p: usize,
) -> Result<(Option<u8>, usize), Fault>
    requires { F.IsAlwaysCallable fits }
    ensures { (ok : ℕ → Bool) → ((v : ℕ) (r : Bool) → v < 256 → F.post fits v r → r ≡ ok v) → answered result ≡ field stands ok default b.now p }
{
    if !stands {
        return Ok((None, p));
    }
    let (value, q) = read_byte(Reader::Script, b, p)?;
    if !fits(value) {
        return Err(Reader::Script.fault_at(p, Refusal::FieldOutOfRange));
    }
    if value == default {
        return Err(Reader::Script.fault_at(p, Refusal::DefaultStands));
    }
    Ok((Some(value), q))
}

fn read_fields(n: u8, map: u8, b: &[u8], p: usize) -> Result<(Header, usize), Fault>
    ensures { answered result ≡ fields n map b.now p }
{
    let (faults, q) = read_field(
        has(map, 0),
        faults_default(n),
        |t| u16::from(t) * 3 < u16::from(n),
        b,
        p,
    )?;
    let (bad, r) = read_field(has(map, 1), 0, |bad| is_within(bad, n), b, q)?;
    let (phases, s) = read_field(has(map, 2), PHASES_DEFAULT, |k| k > 0 && k <= 8, b, r)?;
    Ok((
        Header {
            boards: n,
            faults,
            bad,
            phases,
        },
        s,
    ))
}

pub(crate) fn read_header(kind: u8, b: &[u8], p: usize) -> Result<(Header, usize), Fault>
    ensures { answered result ≡ header kind b.now p }
{
    // Kept four tests: with one reader of a byte that passes a test, this function's proof did not close.
    let (edition, p1) = read_byte(Reader::Script, b, p)?;
    if edition != 1 {
        return Err(Reader::Script.fault_at(p, Refusal::FieldOutOfRange));
    }
    let (n, p2) = read_byte(Reader::Script, b, p1)?;
    if n == 0 || n > MOST_BOARDS {
        return Err(Reader::Script.fault_at(p1, Refusal::FieldOutOfRange));
    }
    let (k, p3) = read_byte(Reader::Script, b, p2)?;
    if k != kind {
        return Err(Reader::Script.fault_at(p2, Refusal::FieldOutOfRange));
    }
    let (map, p4) = read_byte(Reader::Script, b, p3)?;
    if map > 7 {
        return Err(Reader::Script.fault_at(p3, Refusal::FieldOutOfRange));
    }
    read_fields(n, map, b, p4)
}
