// The parts of a numeral, read from the left.

ghost use Rattle.std.specs.Prelude.{◌≡◌, ◌≤◌, length, IfSome, MatchOption};
ghost use Rattle.std.specs.Str.Parse.{AllDigits, digits_value};
ghost use Rattle.frac128.specs.Signed.{signed};
ghost use Rattle.frac128.specs.NumeralReading.{digits_len, front_digits, past_digits, front_minus, past_sign, front_fraction, past_fraction, front_mark, exponent_minus, exponent_digits, past_exponent, whole_exponent, ends, reading};

/// A numeral as it stands in a text; an exponent that is not there has no digits.
#[derive(Clone, Copy)]
pub struct Spelled<'a> {
    pub negative: bool,
    pub before: &'a [u8],
    pub behind: &'a [u8],
    pub exponent_negative: bool,
    pub exponent: &'a [u8],
    pub percent: bool,
}

fn digits_len(bytes: &[u8]) -> usize
    ensures count { result ≡ digits_len bytes.now }
    ensures within { result ≤ length bytes.now }
{
    bytes.iter().take_while(|b| b.is_ascii_digit()).count()
}

/// The digits in front, and what follows them.
fn split_digits(bytes: &[u8]) -> (&[u8], &[u8])
    ensures digits { result.0.now ≡ front_digits bytes.now }
    ensures rest { result.1.now ≡ past_digits bytes.now }
{
    let len = digits_len(bytes);
    (&bytes[..len], &bytes[len..])
}

/// Whether a minus stands in front, and what follows the sign.
fn split_sign(bytes: &[u8]) -> (bool, &[u8])
    ensures minus { result.0 ≡ front_minus bytes.now }
    ensures rest { result.1.now ≡ past_sign bytes.now }
{
    match bytes {
        [b'-', rest @ ..] => (true, rest),
        [b'+', rest @ ..] => (false, rest),
        _ => (false, bytes),
    }
}

/// The digits behind a point in front, and what follows them.
fn split_fraction(bytes: &[u8]) -> (&[u8], &[u8])
    ensures digits { result.0.now ≡ front_fraction bytes.now }
    ensures rest { result.1.now ≡ past_fraction bytes.now }
{
    match bytes {
        [b'.', rest @ ..] => split_digits(rest),
        _ => (&bytes[..0], bytes),
    }
}

/// The sign and the digits of an exponent in front, and what follows them.
fn split_exponent(bytes: &[u8]) -> (bool, &[u8], &[u8])
    ensures minus { result.0 ≡ exponent_minus bytes.now }
    ensures digits { result.1.now ≡ exponent_digits bytes.now }
    ensures rest { result.2.now ≡ past_exponent bytes.now }
{
    match bytes {
        [b'e' | b'E', rest @ ..] => {
            let (negative, rest) = split_sign(rest);
            let (digits, rest) = split_digits(rest);
            (negative, digits, rest)
        }
        _ => (false, &bytes[..0], bytes),
    }
}

fn has_mark(bytes: &[u8]) -> bool
    ensures { result ≡ front_mark bytes.now }
{
    match bytes {
        [b'e' | b'E', ..] => true,
        _ => false,
    }
}

fn ends(bytes: &[u8]) -> bool
    ensures { result ≡ ends bytes.now }
{
    match bytes {
        [] => true,
        [b'%'] => true,
        _ => false,
    }
}

/// The parts of the numeral that a text spells.
pub fn split(text: &[u8]) -> Option<Spelled<'_>>
    ensures digits { IfSome result (λ n. AllDigits 10 n.before.now
        × AllDigits 10 n.behind.now × AllDigits 10 n.exponent.now) }
    ensures parts { MatchOption result (reading text.now ≡ None)
        (λ n. reading text.now ≡ Some (record {
          negative = n.negative;
          before = n.before.now;
          behind = n.behind.now;
          exponent = signed n.exponent_negative (digits_value 10 n.exponent.now);
          percent = n.percent;
        })) }
{
    let (negative, rest) = split_sign(text);
    let (before, rest) = split_digits(rest);
    let (behind, rest) = split_fraction(rest);
    let marked = has_mark(rest);
    let (exponent_negative, exponent, rest) = split_exponent(rest);
    if before.is_empty() && behind.is_empty() {
        return None;
    }
    if marked && exponent.is_empty() {
        return None;
    }
    if !ends(rest) {
        return None;
    }
    Some(Spelled {
        negative,
        before,
        behind,
        exponent_negative,
        exponent,
        percent: !rest.is_empty(),
    })
}
