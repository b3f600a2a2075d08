// Results of functions.
ghost use Rattle.std.specs.Prelude.{◌≡◌, IsOkUnless};
ghost use Rattle.calculations.specs.Calculation.{Calculation};
ghost use Rattle.fractions.specs.Rational.{ℚ};
ghost use Rattle.fractions.specs.Whole.{whole_ℚ};
ghost use Rattle.frac128.specs.Narrow.{IsNarrowWhole};
ghost use Rattle.sheet_funcs.specs.Arguments.{counted};
ghost use Rattle.sheet_model.specs.Answers.{Answers};
ghost use Rattle.sheet_model.specs.Grids.{IsFull};
ghost use Rattle.sheet_model.specs.declared.grid.Arg.TheVariants.{Area, One};
ghost use Rattle.sheet_model.specs.declared.stop.FuncStop.TheVariants as stops;
ghost use Rattle.sheet_model.specs.declared.value.Value.TheVariants.{Error, Logical, Number};

use cell_refs::ErrorKind;
use frac128::Frac;
use sheet_model::{Arg, FuncStop, Grid, Value};

/// An error as a result.
pub(crate) fn fault(kind: ErrorKind) -> Arg
    ensures { result ≡ One (Error kind) }
{
    Arg::One(Value::Error(kind))
}

/// A number as a result.
pub(crate) fn number(number: Frac) -> Arg
    ensures { result ≡ One (Number number) }
{
    Arg::One(Value::Number(number))
}

/// A logical as a result.
pub(crate) fn logical(holds: bool) -> Arg
    ensures { result ≡ One (Logical holds) }
{
    Arg::One(Value::Logical(holds))
}

/// A calculated number as a result.
pub(crate) fn number_answer(outcome: Result<Frac, FuncStop>) -> Result<Arg, FuncStop>
    ensures answer { (c : Calculation ℚ) → Answers c outcome → Answers (counted c) result }
    ensures stop { IsOkUnless outcome stops.Wide → IsOkUnless result stops.Wide }
{
    match outcome {
        Ok(found) => Ok(number(found)),
        Err(stop) => Err(stop),
    }
}

/// A grid as a result.
pub(crate) fn area(rows: u32, columns: u32, items: Vec<Value>) -> Arg
    requires { IsFull (record { rows = rows; columns = columns; items = items.items }) }
    ensures { result ≡ Area (record { rows = rows; columns = columns; items = items.items }) }
{
    match Grid::new(rows, columns, items) {
        Some(grid) => Arg::Area(grid),
        None => unreachable!(),
    }
}

/// The fraction that a whole number is.
pub(crate) fn whole(number: i128) -> Frac
    requires { IsNarrowWhole number }
    ensures { result ≡ whole_ℚ number }
{
    match Frac::new(number, 1) {
        Some(whole) => whole,
        None => unreachable!(),
    }
}
