// The whole number of a numeral's digits without the zeros at both ends, and its exponent.

ghost use Rattle.std.specs.Prelude.{◌≡◌, ◌+◌, ◌*◌, ◌^◌, ◌<◌, ◌≤◌, ◌++◌, length, min, unsigned_abs, IfSome, MatchOption};
ghost use Rattle.std.specs.Char.{IsAsciiDigit};
ghost use Rattle.std.specs.Str.Parse.{AllDigits, digits_value};
ghost use Rattle.frac128.specs.Signed.{signed};
ghost use Rattle.frac128.specs.Numeral.{significant};
ghost use Rattle.frac128.specs.Trimmed.{nothing, with_digit, with_digits};

/// A whole number and how many zeros follow it.
#[derive(Clone, Copy)]
pub struct Trimmed {
    pub number: u128,
    pub zeros: usize,
}

const LIMIT: u128 = 1 << 127;

/// Beyond every exponent at which a number but 0 is narrow, and beyond every length of a text.
pub const EXPONENT_CAP: u128 = 1 << 70;

/// `n` times 10 to the power `zeros`, where that is narrow.
pub fn with_zeros(n: u128, zeros: usize) -> Option<u128>
    ensures { MatchOption result (2 ^ 127 ≤ n * 10 ^ zeros)
        (λ r. (r ≡ n * 10 ^ zeros) × (r < 2 ^ 127)) }
{
    if n == 0 {
        return Some(0);
    }
    if zeros > 38 {
        return None;
    }
    let power = 10u128.pow(zeros as u32);
    match n.checked_mul(power) {
        Some(r) if r < LIMIT => Some(r),
        _ => None,
    }
}

fn with_digit(so_far: Trimmed, digit: u8) -> Option<Trimmed>
    requires digit { IsAsciiDigit digit }
    requires room { so_far.zeros + 1 < 2 ^ 64 }
    requires narrow { so_far.number < 2 ^ 127 }
    ensures { MatchOption result (2 ^ 127 ≤ (with_digit so_far digit).number)
        (λ r. (r ≡ with_digit so_far digit) × (r.number < 2 ^ 127)) }
{
    if digit == b'0' {
        let zeros = if so_far.number == 0 {
            0
        } else {
            so_far.zeros + 1
        };
        return Some(Trimmed {
            number: so_far.number,
            zeros,
        });
    }
    let number = with_zeros(so_far.number, so_far.zeros + 1)? + (digit - b'0') as u128;
    if number < LIMIT {
        Some(Trimmed { number, zeros: 0 })
    } else {
        None
    }
}

fn with_digits(start: Trimmed, digits: &[u8]) -> Option<Trimmed>
    requires digits { AllDigits 10 digits.now }
    requires room { start.zeros + length digits.now < 2 ^ 64 }
    requires narrow { start.number < 2 ^ 127 }
    ensures value { MatchOption result (2 ^ 127 ≤ (with_digits start digits.now).number)
        (λ r. (r ≡ with_digits start digits.now) × (r.number < 2 ^ 127)) }
    ensures zeros { IfSome result (λ r. r.zeros ≤ start.zeros + length digits.now) }
{
    let mut so_far = start;
    for digit in digits {
        so_far = with_digit(so_far, *digit)?;
    }
    Some(so_far)
}

/// The whole number of the digits on both sides of the point without the zeros at both ends, where it is narrow,
/// and how many zeros stand at the end.
pub fn significand(before: &[u8], behind: &[u8]) -> Option<Trimmed>
    requires before { AllDigits 10 before.now }
    requires behind { AllDigits 10 behind.now }
    ensures { let ds = before.now
        ++ behind.now in MatchOption result (2 ^ 127 ≤ digits_value 10 (significant ds)) (λ t.
        (t.number ≡ digits_value 10 (significant ds)) × (t.number < 2 ^ 127)
        × (digits_value 10 ds ≡ t.number * 10 ^ t.zeros) × (t.zeros ≤ length ds)) }
{
    let nothing = Trimmed {
        number: 0,
        zeros: 0,
    };
    with_digits(with_digits(nothing, before)?, behind)
}

/// The whole number of the digits, or the cap where it is above it.
fn number_up_to_cap(digits: &[u8]) -> u128
    requires { AllDigits 10 digits.now }
    ensures { result ≡ min (digits_value 10 digits.now) EXPONENT_CAP }
{
    let mut so_far: u128 = 0;
    for digit in digits {
        so_far = (so_far * 10 + (*digit - b'0') as u128).min(EXPONENT_CAP);
    }
    so_far
}

/// The exponent, or the cap with its sign where it is beyond it.
pub fn exponent(negative: bool, digits: &[u8]) -> i128
    requires { AllDigits 10 digits.now }
    ensures value { result ≡ signed negative (min (digits_value 10 digits.now) EXPONENT_CAP) }
    ensures small { unsigned_abs result ≤ EXPONENT_CAP }
{
    let size = number_up_to_cap(digits) as i128;
    if negative { -size } else { size }
}
