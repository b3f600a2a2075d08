// Operators on known values.
ghost use Rattle.form_values.specs.Trials.{Answers, made};
ghost use Rattle.form_values.specs.declared.abs.Abs.TheVariants.{Known};
ghost use Rattle.sheet_model.specs.Operators.{infix_value, minus_value, percent_value};

use crate::results::as_known;
use cell_refs::Op;
use form_values::{Abs, OpRefusal};
use sheet_model::{Arg, Value};
use std::alloc::Global;

/// An infix operator on two known values.
pub(crate) fn known_infix(alloc: Global, op: Op, a: &Value, b: &Value) -> Result<Abs, OpRefusal>
    ensures { Answers (made Known (infix_value op a.now b.now)) result }
{
    let first = Arg::One(a.copy(alloc)?);
    let second = Arg::One(b.copy(alloc)?);
    as_known(sheet_model::infix(alloc, op, &first, &second))
}

/// A known value with its sign turned.
pub(crate) fn known_minus(alloc: Global, a: &Value) -> Result<Abs, OpRefusal>
    ensures { Answers (made Known (minus_value a.now)) result }
{
    let only = Arg::One(a.copy(alloc)?);
    as_known(sheet_model::minus(alloc, &only))
}

/// A known value divided by 100.
pub(crate) fn known_percent(alloc: Global, a: &Value) -> Result<Abs, OpRefusal>
    ensures { Answers (made Known (percent_value a.now)) result }
{
    let only = Arg::One(a.copy(alloc)?);
    as_known(sheet_model::percent(alloc, &only))
}
