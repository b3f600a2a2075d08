// What a formula leaves in its cell.
ghost use Rattle.std.specs.Prelude.{◌≡◌, IfOk};
ghost use Rattle.form_extraction.specs.Places.{filled, left_by};

use form_values::{Abs, AbsArg};
use frac128::Frac;
use memory::Memory;
use sheet_model::Value;
use std::alloc::Global;

/// Itself or the top left element of a grid, and 0 where that is empty.
pub(crate) fn left_by(alloc: Global, arg: &AbsArg) -> Result<Abs, Memory>
    ensures { IfOk result (λ left. left ≡ filled (left_by arg.now)) }
{
    match arg {
        AbsArg::One(value) => zero_if_empty(alloc, value),
        AbsArg::Area(grid) => match grid.items() {
            [value, ..] => zero_if_empty(alloc, value),
            [] => zero_if_empty(alloc, &Abs::Known(Value::Empty)),
        },
    }
}

// A form, and 0 where it is empty.
fn zero_if_empty(alloc: Global, value: &Abs) -> Result<Abs, Memory>
    ensures { IfOk result (λ left. left ≡ filled value.now) }
{
    match value {
        Abs::Known(Value::Empty) => Ok(Abs::Known(Value::Number(Frac::zero()))),
        _ => value.copy(alloc),
    }
}
