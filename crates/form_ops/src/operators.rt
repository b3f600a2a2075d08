// The operators.
ghost use Rattle.form_ops.specs.Truths.{IsTrueInfix, IsTrueMinus, IsTruePercent};
ghost use Rattle.form_table.specs.Operators.{infix_form, minus_form, percent_form};
ghost use Rattle.form_values.specs.Trials.{Answers};

use crate::lifting::{Side, on_each, on_grid, on_grids, side_of};
use crate::results::as_one;
use crate::singles::{infix_value, minus_value, percent_value};
use cell_refs::Op;
use form_values::{AbsArg, OpRefusal};
use std::alloc::Global;

/// An infix operator on two single values, or on each pair of elements of two grids of one size; a single value stands beside
/// each element of a grid. The first element that is refused, row by row, refuses the whole.
pub fn infix(alloc: Global, op: Op, a: &AbsArg, b: &AbsArg) -> Result<AbsArg, OpRefusal>
    ensures answer { Answers (infix_form op a.now b.now) result }
    ensures right { IsTrueInfix op a.now b.now result }
{
    lifted_infix(alloc, op, a, b)
}

// An infix operator on what it takes of two arguments.
fn lifted_infix(alloc: Global, op: Op, a: &AbsArg, b: &AbsArg) -> Result<AbsArg, OpRefusal>
    ensures { Answers (infix_form op a.now b.now) result }
{
    match (side_of(a), side_of(b)) {
        (Side::One(first), Side::One(second)) => as_one(infix_value(alloc, op, first, second)),
        (Side::One(first), Side::Area(grid)) => {
            on_grid(alloc, grid, |second| infix_value(alloc, op, first, second))
        }
        (Side::Area(grid), Side::One(second)) => {
            on_grid(alloc, grid, |first| infix_value(alloc, op, first, second))
        }
        (Side::Area(first), Side::Area(second)) => on_grids(alloc, op, first, second),
    }
}

/// The value, or each element, with its sign turned.
pub fn minus(alloc: Global, a: &AbsArg) -> Result<AbsArg, OpRefusal>
    ensures answer { Answers (minus_form a.now) result }
    ensures right { IsTrueMinus a.now result }
{
    on_each(alloc, a, |value| minus_value(alloc, value))
}

/// The value, or each element, divided by 100.
pub fn percent(alloc: Global, a: &AbsArg) -> Result<AbsArg, OpRefusal>
    ensures answer { Answers (percent_form a.now) result }
    ensures right { IsTruePercent a.now result }
{
    on_each(alloc, a, |value| percent_value(alloc, value))
}
