// The operators on single values.
ghost use Rattle.form_table.specs.Operators.{infix_abs, infix_row, minus_abs, percent_abs};
ghost use Rattle.form_values.specs.Trials.{Answers};

use crate::comparing::comparison;
use crate::forms::{Change, on_form};
use crate::knowns::{known_infix, known_minus, known_percent};
use crate::operand::operand_of;
use crate::pairing::{Pairing, on_values};
use crate::texts::concatenation;
use cell_refs::Op;
use form_values::{Abs, OpRefusal};
use std::alloc::Global;

/// An infix operator on two values.
pub(crate) fn infix_value(alloc: Global, op: Op, a: &Abs, b: &Abs) -> Result<Abs, OpRefusal>
    ensures { Answers (infix_abs op a.now b.now) result }
{
    match (a, b) {
        (Abs::Known(first), Abs::Known(second)) => known_infix(alloc, op, first, second),
        _ => infix_row(alloc, op, a, b),
    }
}

// An infix operator on two values of which one is open.
fn infix_row(alloc: Global, op: Op, a: &Abs, b: &Abs) -> Result<Abs, OpRefusal>
    ensures { Answers (infix_row op a.now b.now) result }
{
    match op {
        Op::Add => on_values(alloc, Pairing::Sum, a, b),
        Op::Sub => on_values(alloc, Pairing::Difference, a, b),
        Op::Mul => on_values(alloc, Pairing::Product, a, b),
        Op::Div => on_values(alloc, Pairing::Quotient, a, b),
        Op::Pow => on_values(alloc, Pairing::Power, a, b),
        Op::Cat => concatenation(a, b),
        Op::Eq | Op::Ne | Op::Lt | Op::Le | Op::Gt | Op::Ge => comparison(alloc, op, a, b),
    }
}

/// The value with its sign turned.
pub(crate) fn minus_value(alloc: Global, a: &Abs) -> Result<Abs, OpRefusal>
    ensures { Answers (minus_abs a.now) result }
{
    match a {
        Abs::Known(value) => known_minus(alloc, value),
        Abs::Affine(_) | Abs::Test(_, _) => on_form(alloc, Change::Minus, &operand_of(a)),
    }
}

/// The value divided by 100.
pub(crate) fn percent_value(alloc: Global, a: &Abs) -> Result<Abs, OpRefusal>
    ensures { Answers (percent_abs a.now) result }
{
    match a {
        Abs::Known(value) => known_percent(alloc, value),
        Abs::Affine(_) | Abs::Test(_, _) => on_form(alloc, Change::Percent, &operand_of(a)),
    }
}
