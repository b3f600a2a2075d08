// IF of an open test.
ghost use Rattle.std.specs.Prelude.{◌≡◌, IfOk, option_map};
ghost use Rattle.affine_forms.specs.Answers.{AnswersInPlace};
ghost use Rattle.affine_forms.specs.Steps.{multiple_of};
ghost use Rattle.form_ops.specs.Operands.{form_in};
ghost use Rattle.form_ops.specs.Sides.{side_value};
ghost use Rattle.form_ops.specs.Truths.{IsTrueChoice};
ghost use Rattle.form_table.specs.Choosing.{branch_where, chosen_by, differ_by_multiple, if_open, if_test, number_branch, of_branches};
ghost use Rattle.form_values.specs.Trials.{Answers, made};

use crate::lifting::{Side, side_of};
use crate::operand::Number;
use crate::results::form_refusal;
use crate::sameness::same_side;
use affine_forms::Form;
use form_values::{Abs, AbsArg, OpRefusal, Rel};
use frac128::Wide;
use memory::Memory;
use sheet_model::Value;
use std::alloc::Global;

/// IF of the test whether a form is in a relation to 0, with the branch where it is and the branch where it isn't: equal branches are
/// the result. Of a test whether the form is 0, the second branch is, where the branches are numbers that differ by a multiple of
/// the form; and of a test whether it isn't 0, the first.
pub fn if_test(
    alloc: Global,
    form: &Form,
    relation: Rel,
    holding: &AbsArg,
    failing: &AbsArg,
) -> Result<AbsArg, OpRefusal>
    ensures answer { Answers (if_test form.now relation holding.now failing.now) result }
    ensures right { IsTrueChoice form.now relation holding.now failing.now result }
{
    if_open(alloc, form, relation, &side_of(holding), &side_of(failing))
}

// The same of what is taken of the branches.
fn if_open(
    alloc: Global,
    form: &Form,
    relation: Rel,
    holding: &Side,
    failing: &Side,
) -> Result<AbsArg, OpRefusal>
    ensures { Answers
        (if_open form.now relation (side_value holding.now) (side_value failing.now)) result }
{
    if same_side(holding, failing) {
        return Ok(copy_of(alloc, holding)?);
    }
    of_branches(alloc, form, relation, holding, failing)
}

// An argument again.
fn copy_of(alloc: Global, side: &Side) -> Result<AbsArg, Memory>
    ensures { IfOk result (λ copy. copy ≡ side_value side.now) }
{
    match side {
        Side::One(value) => Ok(AbsArg::One(value.copy(alloc)?)),
        Side::Area(grid) => Ok(AbsArg::Area(grid.copy(alloc)?)),
    }
}

// The number that a branch is.
fn number_branch<'a>(side: &Side<'a>) -> Option<Number<'a>>
    ensures { option_map form_in result ≡ number_branch (side_value side.now) }
{
    match side {
        Side::One(Abs::Known(Value::Number(number))) => { Some(Number::Known(*number)) }
        Side::One(Abs::Affine(open)) => Some(Number::Open(&open.form)),
        Side::One(Abs::Known(_) | Abs::Test(_, _)) | Side::Area(_) => None,
    }
}

// What is chosen of branches that differ.
fn of_branches(
    alloc: Global,
    form: &Form,
    relation: Rel,
    holding: &Side,
    failing: &Side,
) -> Result<AbsArg, OpRefusal>
    ensures { Answers
        (of_branches form.now relation (side_value holding.now) (side_value failing.now)
        (number_branch (side_value holding.now)) (number_branch (side_value failing.now))) result }
{
    match (number_branch(holding), number_branch(failing)) {
        (Some(first), Some(second)) => chosen_by(
            alloc,
            form,
            relation,
            (holding, failing),
            (first.form(alloc).get(), second.form(alloc).get()),
        ),
        _ => Err(OpRefusal::Undecided(0)),
    }
}

// What is chosen of two branches that are numbers.
fn chosen_by(
    alloc: Global,
    form: &Form,
    relation: Rel,
    branches: (&Side, &Side),
    numbers: (&Form, &Form),
) -> Result<AbsArg, OpRefusal>
    ensures { Answers (chosen_by form.now relation (side_value branches.entry.0.now)
        (side_value branches.entry.1.now) numbers.entry.0.now numbers.entry.1.now) result }
{
    let (holding, failing) = branches;
    let (first, second) = numbers;
    match relation {
        Rel::Eq => branch_where(alloc, form, failing, first, second),
        Rel::Ne => branch_where(alloc, form, holding, first, second),
        Rel::Lt | Rel::Le | Rel::Ge | Rel::Gt => Err(OpRefusal::Break),
    }
}

// A branch, where two forms differ by a multiple of the form that is tested.
fn branch_where(
    alloc: Global,
    form: &Form,
    branch: &Side,
    first: &Form,
    second: &Form,
) -> Result<AbsArg, OpRefusal>
    ensures { Answers (branch_where form.now (side_value branch.now) first.now second.now) result }
{
    if differ_by_multiple(form, first, second)? {
        return Ok(copy_of(alloc, branch)?);
    }
    Err(OpRefusal::Break)
}

// Whether two forms differ by a multiple of the form that is tested.
fn differ_by_multiple(form: &Form, first: &Form, second: &Form) -> Result<bool, OpRefusal>
    ensures { Answers (made (λ b. b) (differ_by_multiple form.now first.now second.now)) result }
{
    let difference = match first.sub(second) {
        Ok(difference) => difference,
        Err(stop) => return Err(form_refusal(stop)),
    };
    match is_multiple(&difference, form) {
        Ok(holds) => Ok(holds),
        Err(Wide) => Err(OpRefusal::Wide),
    }
}

// Whether a form is a multiple of another, which none is of a form without terms.
fn is_multiple(form: &Form, of: &Form) -> Result<bool, Wide>
    ensures { AnswersInPlace (multiple_of form.now of.now) result }
{
    match of.terms() {
        [] => Ok(false),
        _ => form.multiple_of(of),
    }
}
