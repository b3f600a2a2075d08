// Reading a number as it is printed.
ghost use Rattle.std.specs.Prelude.{◌≡◌, ℤ, pos, IfOk, Some};
ghost use Rattle.fractions.specs.Rational.{ℚ, numerator, denominator};
ghost use Rattle.fractions.specs.Whole.{whole_ℚ};
ghost use Rattle.frac128.specs.Narrow.{IsNarrow, IsNarrowWhole};
ghost use Rattle.frac128.specs.Printed.{IsPrintedAsNumeral, printed};
ghost use Rattle.certificate_lines.specs.Cutting.{ReadAs};
ghost use Rattle.certificate_lines.specs.Line.{whole_text};

use crate::cutting::cut;
use frac128::Frac;
use memory::Memory;
use std::str;

// The number that a numeral is, as it is printed or not.
fn read_numeral(text: &[u8]) -> Option<Frac>
    ensures { (x : ℚ) → IsNarrow x → IsPrintedAsNumeral x → text.now ≡ printed x → result ≡ Some x }
{
    match str::from_utf8(text) {
        Ok(numeral) => match Frac::read(numeral) {
            Ok(number) => Some(number),
            Err(_) => None,
        },
        Err(_) => None,
    }
}

// The quotient of two numerals.
fn read_quotient(above: &[u8], below: &[u8]) -> Option<Frac>
    ensures { (x : ℚ) → IsNarrow x → above.now ≡ printed (whole_ℚ (numerator x))
        → below.now ≡ printed (whole_ℚ (pos (denominator x))) → result ≡ Some x }
{
    let Some(n) = read_numeral(above) else {
        return None;
    };
    let Some(d) = read_numeral(below) else {
        return None;
    };
    if d.is_zero() {
        return None;
    }
    match n.div(d) {
        Ok(number) => Some(number),
        Err(_) => None,
    }
}

// The number that a text is, with or without '/', as it is printed or not.
fn likely_number(text: &[u8]) -> Option<Frac>
    ensures { (x : ℚ) → IsNarrow x → text.now ≡ printed x → result ≡ Some x }
{
    let (above, rest) = cut(text, b'/');
    match rest {
        [] => read_numeral(above),
        [_, below @ ..] => read_quotient(above, below),
    }
}

/// The number that is printed so. It is printed again into `room` for that.
pub(crate) fn read_number(text: &[u8], room: &mut String) -> Result<Option<Frac>, Memory>
    ensures { IfOk result (λ o. ReadAs IsNarrow printed o text.now) }
{
    let Some(number) = likely_number(text) else {
        return Ok(None);
    };
    room.clear();
    let _num = number.num();
    number.write(room)?;
    let same = room.as_bytes() == text;
    if same { Ok(Some(number)) } else { Ok(None) }
}

/// The whole number that is printed so.
pub(crate) fn read_whole(text: &[u8], room: &mut String) -> Result<Option<i128>, Memory>
    ensures { IfOk result (λ o. ReadAs IsNarrowWhole whole_text o text.now) }
{
    let Some(number) = read_number(text, room)? else {
        return Ok(None);
    };
    if !number.is_whole() {
        return Ok(None);
    }
    Ok(Some(number.num()))
}
