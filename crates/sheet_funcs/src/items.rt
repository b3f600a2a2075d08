// What a function takes of its arguments.
ghost use Rattle.std.specs.Prelude.{◌≡◌, MatchResult};
ghost use Rattle.std.specs.Result.{result_map_both};
ghost use Rattle.sheet_funcs.specs.Arguments.{elements_of, first_error, grid_of, one_of, value_of};
ghost use Rattle.sheet_funcs.specs.Rounding.{number_of, place_of};
ghost use Rattle.sheet_model.specs.Conversions.{logical_in};
ghost use Rattle.sheet_model.specs.declared.value.Value.TheVariants.{Error};

use cell_refs::ErrorKind;
use frac128::Frac;
use sheet_model::{Arg, Value, to_logical, to_number};

/// The single value, or the one element of an area; the error stands for an area of another size.
pub fn value_of(arg: &Arg) -> Result<&Value, ErrorKind>
    ensures value { MatchResult result (λ value. value.now ≡ value_of arg.now)
        (λ kind. Error kind ≡ value_of arg.now) }
    ensures one { result_map_both (λ value. value.now) (λ kind. kind) result
        ≡ one_of (elements_of arg.now) }
{
    match elements_of(arg) {
        [value] => Ok(value),
        _ => Err(ErrorKind::Value),
    }
}

/// The one value as a number.
pub(crate) fn number_of(arg: &Arg) -> Result<Frac, ErrorKind>
    ensures { result ≡ number_of arg.now }
{
    match value_of(arg) {
        Ok(value) => to_number(value),
        Err(kind) => Err(kind),
    }
}

/// The one value as a place: a number rounded down.
pub fn place_of(arg: &Arg) -> Result<i128, ErrorKind>
    ensures { result ≡ place_of arg.now }
{
    match number_of(arg) {
        Ok(number) => Ok(number.floor()),
        Err(kind) => Err(kind),
    }
}

/// The one value as a logical.
pub fn logical_of(arg: &Arg) -> Result<bool, ErrorKind>
    ensures { result ≡ logical_in (value_of arg.now) }
{
    match value_of(arg) {
        Ok(value) => to_logical(value),
        Err(kind) => Err(kind),
    }
}

/// The single value, or the elements of the area, row by row.
pub(crate) fn elements_of(arg: &Arg) -> &[Value]
    ensures { result.now ≡ elements_of arg.now }
{
    match arg {
        Arg::One(value) => std::slice::from_ref(value),
        Arg::Area(grid) => grid.items(),
    }
}

/// How many rows the argument has; a single value has one.
pub(crate) fn rows_of(arg: &Arg) -> u32
    ensures { result ≡ (grid_of arg.now).rows }
{
    match arg {
        Arg::One(_) => 1,
        Arg::Area(grid) => grid.rows(),
    }
}

/// How many columns the argument has; a single value has one.
pub(crate) fn columns_of(arg: &Arg) -> u32
    ensures { result ≡ (grid_of arg.now).columns }
{
    match arg {
        Arg::One(_) => 1,
        Arg::Area(grid) => grid.cols(),
    }
}

/// The first error among some values.
pub(crate) fn first_error(items: &[Value]) -> Option<ErrorKind>
    ensures { result ≡ first_error items.now }
{
    for item in items {
        if let Value::Error(kind) = item {
            return Some(*kind);
        }
    }
    None
}
