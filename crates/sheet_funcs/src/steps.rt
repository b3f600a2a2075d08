// One operation at a time.
ghost use Rattle.std.specs.Prelude.{◌≡◌, ◌≢◌, pos, negsuc, ◌≤ℤ◌, ◌<ℤ◌};
ghost use Rattle.std.specs.Result.{result_map_both};
ghost use Rattle.calculations.specs.Calculation.{power, product, quotient, sum};
ghost use Rattle.fractions.specs.Rational.{zero_ℚ};
ghost use Rattle.sheet_funcs.specs.Steps.{IsStep};
ghost use Rattle.sheet_model.specs.declared.stop.FuncStop.TheVariants as stops;

use frac128::{Frac, Wide};
use sheet_model::FuncStop;

/// The sum of two numbers.
pub(crate) fn add(x: Frac, y: Frac) -> Result<Frac, FuncStop>
    ensures { IsStep (sum x y) result }
{
    or_wide(x.add(y))
}

/// The product of two numbers.
pub(crate) fn multiply(x: Frac, y: Frac) -> Result<Frac, FuncStop>
    ensures { IsStep (product x y) result }
{
    or_wide(x.mul(y))
}

/// The quotient of two numbers.
pub(crate) fn divide(x: Frac, y: Frac) -> Result<Frac, FuncStop>
    requires { y ≢ zero_ℚ }
    ensures { IsStep (quotient x y) result }
{
    or_wide(x.div(y))
}

/// The power with a whole exponent.
pub(crate) fn raise(x: Frac, exponent: i32) -> Result<Frac, FuncStop>
    requires low { negsuc 999 ≤ℤ exponent }
    requires high { exponent ≤ℤ pos 1000 }
    requires other_than_zero { exponent <ℤ pos 0 → x ≢ zero_ℚ }
    ensures { IsStep (power x exponent) result }
{
    or_wide(x.power(exponent))
}

// An operation's result.
fn or_wide(outcome: Result<Frac, Wide>) -> Result<Frac, FuncStop>
    ensures { result ≡ result_map_both (λ number. number) (λ _. stops.Wide) outcome }
{
    match outcome {
        Ok(number) => Ok(number),
        Err(Wide) => Err(FuncStop::Wide),
    }
}
