// One operation at a time.
ghost use Rattle.std.specs.Prelude.{◌≡◌, ◌≢◌};
ghost use Rattle.affine_forms.specs.Single.{IsStep};
ghost use Rattle.calculations.specs.Calculation.{product, quotient, sum};
ghost use Rattle.fractions.specs.Rational.{zero_ℚ, eq_ℚ};

use frac128::{Frac, Wide};

/// The sum of two numbers.
pub(crate) fn add(x: Frac, y: Frac) -> Result<Frac, Wide>
    ensures { IsStep (sum x y) result }
{
    x.add(y)
}

/// The product of two numbers.
pub(crate) fn multiply(x: Frac, y: Frac) -> Result<Frac, Wide>
    ensures { IsStep (product x y) result }
{
    x.mul(y)
}

/// The quotient of two numbers.
pub(crate) fn divide(x: Frac, y: Frac) -> Result<Frac, Wide>
    requires { y ≢ zero_ℚ }
    ensures { IsStep (quotient x y) result }
{
    x.div(y)
}

/// Whether two numbers are equal.
pub(crate) fn equal(x: Frac, y: Frac) -> bool
    ensures { result ≡ eq_ℚ x y }
{
    x == y
}
