// Arguments without their errors, and all of their elements.
ghost use Rattle.std.specs.Prelude.{◌≡◌};
ghost use Rattle.std.specs.Result.{result_map_both};
ghost use Rattle.sheet_funcs.specs.Arguments.{elements_of, grid_of, no_error, value_of};
ghost use Rattle.sheet_model.specs.Grids.{IsFull};

use crate::items::{elements_of, value_of};
use cell_refs::ErrorKind;
use sheet_model::{Arg, Value};

/// The one value of an argument, or the error that it is.
pub fn value_or_error(arg: &Arg) -> Result<&Value, ErrorKind>
    ensures { result_map_both (λ value. value.now) (λ kind. kind) result
        ≡ no_error (value_of arg.now) }
{
    match value_of(arg) {
        Ok(Value::Error(kind)) => Err(*kind),
        Ok(value) => Ok(value),
        Err(kind) => Err(kind),
    }
}

/// All elements of an argument, row by row, one in each place.
pub(crate) fn full_elements(arg: &Arg) -> &[Value]
    ensures items { result.now ≡ elements_of arg.now }
    ensures full { IsFull (grid_of arg.now) }
{
    match arg {
        Arg::One(_) => elements_of(arg),
        Arg::Area(grid) => grid.items(),
    }
}
