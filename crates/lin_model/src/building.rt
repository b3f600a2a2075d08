// The linear model of a statement.
ghost use Rattle.std.specs.Prelude.{◌≡◌, IfOk, length};
ghost use Rattle.std.specs.List.{AllByRecursion};
ghost use Rattle.std.specs.Option.{option_map};
ghost use Rattle.std.specs.Result.{result_map_both};
ghost use Rattle.affine_forms.specs.Forms.{IsForm};
ghost use Rattle.linear_models.specs.Agreement.{AgreesWith, Fits, IsStated};
ghost use Rattle.linear_models.specs.Conditions.{goal_or_greatest, objective_where, statement_of};
ghost use Rattle.linear_models.specs.Model.{IsValid};
ghost use Rattle.linear_models.specs.Linear.{form_or_zero, objective_left, rows_left};
ghost use Rattle.lin_model.specs.Built.{IsBuilt};
ghost use Rattle.lin_model.specs.Inner.{AreBuilt, AreForms};
ghost use Rattle.optimality.specs.Kinds.{goal_of};

use crate::conditions::Conditions;
use crate::groups::copy_groups;
use crate::model::{FormRow, LinModel};
use crate::rows::{push_reaching, rows_left};
use crate::stop::BuildStop;
use crate::tightest::{bounds, marks};
use affine_forms::{Form, FormStop};
use frac128::Frac;
use memory::Memory;
use optimality::Goal;
use std::alloc::Global;

// The objective of the model: 0 where a value is to be reached, and where there is no objective.
fn objective_left(alloc: Global, goal: Option<Goal>, objective: &Form) -> Result<Form, Memory>
    ensures left { IfOk result (λ f. f ≡ objective_left (goal_or_greatest (option_map goal_of goal))
        (form_or_zero (objective_where (option_map goal_of goal) objective.now))) }
    ensures form { IsForm objective.now }
{
    let _terms = objective.terms();
    match goal {
        None => Ok(Form::constant(alloc, Frac::zero())),
        Some(Goal::Reach(_)) => Ok(Form::constant(alloc, Frac::zero())),
        Some(_) => objective.copy(),
    }
}

// The goal of the model: the greatest where there is no objective.
fn goal_left(goal: Option<Goal>) -> Goal
    ensures { goal_of result ≡ goal_or_greatest (option_map goal_of goal) }
{
    match goal {
        None => Goal::Max,
        Some(goal) => goal,
    }
}

// All rows: those that the sides leave, and last the one of a value that is to be reached.
fn all_rows(
    alloc: Global,
    of: &Conditions,
    objective: &Form,
    sides: &[(Form, Form)],
) -> Result<Vec<FormRow>, BuildStop>
    requires one_each { length sides.now ≡ length of.now.rows }
    requires stated { IsStated (statement_of of.now objective.now sides.now) }
    ensures built { AreBuilt (rows_left (statement_of of.now objective.now sides.now))
        (result_map_both (λ rows. rows.items) (λ stop. stop) result) }
    ensures forms { IfOk result (λ _. AllByRecursion AreForms sides.now) }
{
    let mut rows = rows_left(alloc, of.rows(), sides)?;
    match push_reaching(alloc, goal_left(of.goal()), objective, &mut rows) {
        Ok(()) => Ok(rows),
        Err(FormStop::Wide) => Err(BuildStop::WideRow(sides.len() as u16 + 1)),
        Err(FormStop::Memory) => Err(BuildStop::Memory),
    }
}

// The goal, the objective, the rows, the marks, the bounds and the groups, as one model.
fn put_together(
    alloc: Global,
    of: &Conditions,
    objective: &Form,
    sides: &[(Form, Form)],
) -> Result<LinModel, BuildStop>
    requires one_each { length sides.now ≡ length of.now.rows }
    requires stated { IsStated (statement_of of.now objective.now sides.now) }
    ensures built { IsBuilt (statement_of of.now objective.now sides.now) result }
    ensures valid { IfOk result (λ m. IsValid m) }
{
    let rows = all_rows(alloc, of, objective, sides)?;
    let whole = marks(alloc, of, sides)?;
    let bounds = bounds(alloc, of, sides)?;
    let left = objective_left(alloc, of.goal(), objective)?;
    let groups = copy_groups(alloc, of.groups())?;
    Ok(LinModel::new(goal_left(of.goal()), left, rows, whole, bounds, groups))
}

/// The linear model of a statement with its objective and the two sides of each row as forms. A row whose left side is
/// a decision and whose right side is a number is a bound of that decision. The decisions of a group of N are to be
/// whole, different, at least 1 and at most N. Without a goal the objective is not read.
pub fn linear(
    alloc: Global,
    of: &Conditions,
    objective: &Form,
    sides: &[(Form, Form)],
) -> Result<LinModel, BuildStop>
    requires fits { Fits of.now objective.now sides.now }
    ensures built { IsBuilt (statement_of of.now objective.now sides.now) result }
    ensures agrees { IfOk result (λ m. AgreesWith (statement_of of.now objective.now sides.now) m) }
    ensures valid { IfOk result (λ m. IsValid m) }
{
    put_together(alloc, of, objective, sides)
}
