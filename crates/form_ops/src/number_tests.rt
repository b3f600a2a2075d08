// Tests of numbers.
ghost use Rattle.std.specs.Prelude.{◌≡◌};
ghost use Rattle.fractions.specs.Rational.{eq_ℚ, inv_ℚ, le_ℚ};
ghost use Rattle.sheet_funcs.specs.Rounding.{is_place};
ghost use Rattle.sheet_model.specs.Tests.{is_exponent, is_zero};

use frac128::Frac;

/// Whether a number is 0.
pub(crate) fn is_zero(number: Frac) -> bool
    ensures { result ≡ is_zero number }
{
    number.is_zero()
}

/// Whether two numbers are one.
pub(crate) fn are_equal(x: Frac, y: Frac) -> bool
    ensures { result ≡ eq_ℚ x y }
{
    x.compare(y).is_eq()
}

/// Whether a number is at most another.
pub(crate) fn is_at_most(x: Frac, y: Frac) -> bool
    ensures { result ≡ le_ℚ x y }
{
    x.compare(y).is_le()
}

/// Whether a number is whole and from -1000 to 1000.
pub(crate) fn is_exponent(number: Frac) -> bool
    ensures { result ≡ is_exponent number }
{
    number.is_whole() && is_place(number.num())
}

/// Whether a whole number is from -1000 to 1000.
pub(crate) fn is_place(number: i128) -> bool
    ensures { result ≡ is_place number }
{
    -1000 <= number && number <= 1000
}

/// 1 divided by a number, 0 for 0.
pub fn inverse(number: Frac) -> Frac
    ensures { result ≡ inv_ℚ number }
{
    if number.is_zero() {
        return number;
    }
    number.inverse()
}
