// The number that a numeral stands for.

ghost use Rattle.std.specs.Prelude.{◌≡◌, ◌≢◌, pos, neg_ℤ, ◌+ℤ◌, ◌-ℤ◌, ◌^◌, ◌<◌, ◌≤◌, ◌↔◌, IfOk, MatchOption, if◌then◌else◌, unsigned_abs};
ghost use Rattle.std.specs.Str.Parse.{AllDigits, digits_value};
ghost use Rattle.frac128.specs.Signed.{signed};
ghost use Rattle.frac128.specs.Narrow.{IsNarrow};
ghost use Rattle.frac128.specs.Numeral.{Numeral, Spells, IsNarrowNumeral, SpellsOne, value};
ghost use Rattle.frac128.specs.Scaled.{IsScaled};
ghost use Rattle.fractions.specs.Rational.{◌/ℚ◌};
ghost use Rattle.fractions.specs.Whole.{whole_ℚ};

use crate::integers::with_sign;
use crate::number::Frac;
use crate::numeral::{Spelled, split};
use crate::numeral_fault::NumeralFault;
use crate::significand::{EXPONENT_CAP, exponent, significand, with_zeros};

/// `n / d`, where it is narrow.
fn quotient(n: i128, d: i128) -> Option<Frac>
    requires { d ≢ pos 0 }
    ensures { MatchOption result (¬ (IsNarrow (whole_ℚ n /ℚ whole_ℚ d)))
        (λ f. (f ≡ whole_ℚ n /ℚ whole_ℚ d) × IsNarrow f) }
{
    let number = Frac::new(n, d)?;
    let _narrow = number.num();
    Some(number)
}

/// `number` times 10 to the power `zeros`, with a sign.
fn times_power(negative: bool, number: u128, zeros: usize) -> Option<Frac>
    ensures { IsScaled result negative number (pos zeros) }
{
    let size = with_zeros(number, zeros)?;
    quotient(with_sign(negative, size), 1)
}

/// `number` over 10 to the power `places`, with a sign.
fn over_power(negative: bool, number: u128, places: usize) -> Option<Frac>
    requires number { number < 2 ^ 127 }
    requires places { places ≤ 38 }
    ensures { IsScaled result negative number (neg_ℤ (pos places)) }
{
    let power = 10u128.pow(places as u32);
    quotient(with_sign(negative, number), with_sign(false, power))
}

/// The same where the power does not fit.
fn divided_twice(negative: bool, number: u128, places: usize) -> Option<Frac>
    requires number { number < 2 ^ 127 }
    requires places { (38 ≤ places) × (places ≤ 76) }
    ensures { IsScaled result negative number (neg_ℤ (pos places)) }
{
    let first = over_power(negative, number, 38)?;
    let second = over_power(false, 1, places - 38)?;
    match first.mul(second) {
        Ok(product) => Some(product),
        Err(_) => None,
    }
}

/// `number` times 10 to the power `exponent`, with a sign. Beyond the powers 38 and -76 none but 0 is narrow.
fn with_exponent(negative: bool, number: u128, exponent: i128) -> Option<Frac>
    requires { number < 2 ^ 127 }
    ensures { IsScaled result negative number exponent }
{
    if number == 0 {
        return quotient(0, 1);
    }
    if exponent > 38 {
        return None;
    }
    if exponent < -76 {
        return None;
    }
    if exponent >= 0 {
        return times_power(negative, number, exponent as usize);
    }
    if exponent >= -38 {
        return over_power(negative, number, (-exponent) as usize);
    }
    divided_twice(negative, number, (-exponent) as usize)
}

/// The power of ten that a number without its zeros is multiplied by.
fn total_exponent(marked: i128, zeros: usize, behind: usize, percent: bool) -> i128
    requires { unsigned_abs marked ≤ EXPONENT_CAP }
    ensures { result ≡ pos zeros +ℤ ((marked -ℤ pos behind) -ℤ pos (if percent then 2 else 0)) }
{
    if percent {
        return zeros as i128 + (marked - behind as i128 - 2);
    }
    zeros as i128 + (marked - behind as i128)
}

/// The value of a numeral in its parts, where it is narrow.
fn number_of(spelled: Spelled<'_>) -> Option<Frac>
    requires before { AllDigits 10 spelled.before.now }
    requires behind { AllDigits 10 spelled.behind.now }
    requires exponent { AllDigits 10 spelled.exponent.now }
    ensures { let n : Numeral = record {
      negative = spelled.entry.negative;
      before = spelled.entry.before.now;
      behind = spelled.entry.behind.now;
      exponent = signed spelled.entry.exponent_negative
          (digits_value 10 spelled.entry.exponent.now);
      percent = spelled.entry.percent;
    } in MatchOption result (¬ (IsNarrowNumeral n)) (λ f. IsNarrowNumeral n × (f ≡ value n)) }
{
    let trimmed = significand(spelled.before, spelled.behind)?;
    let marked = exponent(spelled.exponent_negative, spelled.exponent);
    let total = total_exponent(marked, trimmed.zeros, spelled.behind.len(), spelled.percent);
    with_exponent(spelled.negative, trimmed.number, total)
}

impl Frac {
    /// The value of a numeral: an optional sign; digits with or without a point among them or at an end;
    /// an optional exponent behind `e` or `E`; and an optional `%`, which divides by 100. There are no blanks in it.
    pub fn read(text: &str) -> Result<Frac, NumeralFault>
        ensures ok { IfOk result (λ f. (n : Numeral)
            × (Spells text.now n × IsNarrowNumeral n × (f ≡ value n))) }
        ensures read { (n : Numeral) → Spells text.now n
            → IsNarrowNumeral n → result ≡ Ok (value n) }
        ensures not_numeral { (result ≡ Err NumeralFault.NotNumeral)
            ↔ ((n : Numeral) → ¬ (Spells text.now n)) }
        ensures too_wide { (result ≡ Err NumeralFault.TooWide)
            ↔ ((n : Numeral) × (Spells text.now n × ¬ (IsNarrowNumeral n))) }
    {
        match split(text.as_bytes()) {
            None => Err(NumeralFault::NotNumeral),
            Some(spelled) => match number_of(spelled) {
                Some(number) => Ok(number),
                None => Err(NumeralFault::TooWide),
            },
        }
    }
}

/// No text spells two numerals.
pub fn no_text_spells_two()
    ensures { SpellsOne }
{}
