// The operators on parts of formulas.
ghost use Rattle.std.specs.Prelude.{◌≡◌, IfOk};
ghost use Rattle.std.specs.Option.{option_and_then};
ghost use Rattle.calculations.specs.Calculation.{Calculation, narrow};
ghost use Rattle.evaluation.specs.Composed.{joined, turned};
ghost use Rattle.sheet_model.specs.Answers.{Answers};
ghost use Rattle.sheet_model.specs.Operators.{infix_of, minus_of, percent_of};
ghost use Rattle.sheet_model.specs.declared.grid.Arg.{Arg};

use crate::part::Part;
use cell_refs::Op;
use sheet_model::{Arg, FuncStop, Memory, infix, minus, percent};
use std::alloc::Global;

/// An answer on narrow numbers: none where a number isn't narrow.
pub(crate) fn narrow_answer(answer: Result<Arg, FuncStop>) -> Result<Option<Arg>, Memory>
    ensures { (c : Calculation Arg) → Answers c answer
        → IfOk result (λ outcome. outcome ≡ narrow c) }
{
    match answer {
        Ok(value) => Ok(Some(value)),
        Err(FuncStop::Wide) => Ok(None),
        Err(FuncStop::Memory) => Err(Memory),
    }
}

/// A part with a minus in front.
pub(crate) fn minus_part(alloc: Global, part: Part) -> Result<Part, Memory>
    ensures { IfOk result (λ whole. whole ≡ turned minus_of part) }
{
    let Part {
        looks,
        outcome,
        reference: _,
    } = part;
    let outcome = minus_outcome(alloc, outcome)?;
    Ok(Part {
        looks,
        outcome,
        reference: None,
    })
}

/// A part with a percent sign behind.
pub(crate) fn percent_part(alloc: Global, part: Part) -> Result<Part, Memory>
    ensures { IfOk result (λ whole. whole ≡ turned percent_of part) }
{
    let Part {
        looks,
        outcome,
        reference: _,
    } = part;
    let outcome = percent_outcome(alloc, outcome)?;
    Ok(Part {
        looks,
        outcome,
        reference: None,
    })
}

/// An operator between two parts.
pub(crate) fn infix_part(alloc: Global, op: Op, left: Part, right: Part) -> Result<Part, Memory>
    ensures { IfOk result (λ whole. whole ≡ joined op left right) }
{
    let Part {
        mut looks,
        outcome: first,
        reference: _,
    } = left;
    let Part {
        looks: others,
        outcome: second,
        reference: _,
    } = right;
    looks.extend(&others)?;
    let outcome = infix_outcome(alloc, op, first, second)?;
    Ok(Part {
        looks,
        outcome,
        reference: None,
    })
}

// The value of a part with a minus in front.
fn minus_outcome(alloc: Global, of: Option<Arg>) -> Result<Option<Arg>, Memory>
    ensures { IfOk result (λ outcome. outcome ≡ option_and_then (λ v. narrow (minus_of v)) of) }
{
    match of {
        Some(value) => narrow_answer(minus(alloc, &value)),
        None => Ok(None),
    }
}

// The value of a part with a percent sign behind.
fn percent_outcome(alloc: Global, of: Option<Arg>) -> Result<Option<Arg>, Memory>
    ensures { IfOk result (λ outcome. outcome ≡ option_and_then (λ v. narrow (percent_of v)) of) }
{
    match of {
        Some(value) => narrow_answer(percent(alloc, &value)),
        None => Ok(None),
    }
}

// The value of an operator between two parts.
fn infix_outcome(
    alloc: Global,
    op: Op,
    left: Option<Arg>,
    right: Option<Arg>,
) -> Result<Option<Arg>, Memory>
    ensures { IfOk result (λ outcome. outcome
        ≡ option_and_then (λ x. option_and_then (λ y. narrow (infix_of op x y)) right) left) }
{
    match (left, right) {
        (Some(first), Some(second)) => narrow_answer(infix(alloc, op, &first, &second)),
        (Some(_), None) | (None, _) => Ok(None),
    }
}
