// Comparisons.
ghost use Rattle.std.specs.Prelude.{◌≡◌, if◌then◌else◌, option_map};
ghost use Rattle.form_ops.specs.Operands.{form_in};
ghost use Rattle.form_table.specs.Operators.{comparable, compared, compared_row, compared_sides, is_logical, relation_of};
ghost use Rattle.form_values.specs.Trials.{Answers, given, undecided};
ghost use Rattle.form_values.specs.declared.abs.Abs.TheVariants.{Known};
ghost use Rattle.sheet_model.specs.Operators.{asks_for};
ghost use Rattle.sheet_model.specs.declared.value.Value.TheVariants.{Logical};

use crate::operand::{Number, comparable};
use crate::results::{as_test, fault, logical};
use cell_refs::Op;
use form_values::{Abs, OpRefusal, Rel};
use sheet_model::{Value, asks_for};
use std::alloc::Global;
use std::cmp::Ordering;

/// Whether a comparison of two values holds; the first that is an error is the result.
pub(crate) fn comparison(alloc: Global, op: Op, a: &Abs, b: &Abs) -> Result<Abs, OpRefusal>
    ensures { Answers (compared op a.now b.now) result }
{
    if let Abs::Known(Value::Error(kind)) = a {
        return Ok(fault(*kind));
    }
    if let Abs::Known(Value::Error(kind)) = b {
        return Ok(fault(*kind));
    }
    compared_row(alloc, op, a, b)
}

// Whether a comparison of two values that are no errors holds.
fn compared_row(alloc: Global, op: Op, a: &Abs, b: &Abs) -> Result<Abs, OpRefusal>
    ensures { Answers (compared_row op a.now b.now) result }
{
    match (a, b) {
        (Abs::Test(_, _), _) => open_beside(op, Ordering::Greater, 0, b),
        (_, Abs::Test(_, _)) => open_beside(op, Ordering::Less, 1, a),
        _ => compared_sides(alloc, op, a, b),
    }
}

// An open logical beside another value: among logicals it decides, and it is above all else.
fn open_beside(op: Op, order: Ordering, argument: usize, other: &Abs) -> Result<Abs, OpRefusal>
    ensures { Answers (if is_logical other.now then undecided argument
        else given (Known (Logical (asks_for op order)))) result }
{
    if is_logical(other) {
        return Err(OpRefusal::Undecided(argument));
    }
    Ok(logical(asks_for(op, order)))
}

// Two sides compared as numbers: one that is no number is above one that is.
fn compared_sides(alloc: Global, op: Op, a: &Abs, b: &Abs) -> Result<Abs, OpRefusal>
    ensures { Answers (compared_sides op (comparable a.now) (comparable b.now)) result }
{
    match (comparable(a), comparable(b)) {
        (Some(first), Some(second)) => {
            let first = first.form(alloc);
            let second = second.form(alloc);
            as_test(relation_of(op), first.get().sub(second.get()))
        }
        (Some(_), None) => Ok(logical(asks_for(op, Ordering::Less))),
        (None, _) => Ok(logical(asks_for(op, Ordering::Greater))),
    }
}

// Whether a value is a logical.
fn is_logical(value: &Abs) -> bool
    ensures { result ≡ is_logical value.now }
{
    matches!(value, Abs::Known(Value::Logical(_)) | Abs::Test(_, _))
}

// The relation to 0 of the difference of two sides.
fn relation_of(op: Op) -> Rel
    ensures { result ≡ relation_of op }
{
    match op {
        Op::Lt => Rel::Lt,
        Op::Le => Rel::Le,
        Op::Ne => Rel::Ne,
        Op::Ge => Rel::Ge,
        Op::Gt => Rel::Gt,
        Op::Eq | Op::Add | Op::Sub | Op::Mul | Op::Div | Op::Pow | Op::Cat => Rel::Eq,
    }
}
