// The rows of a linear model.
ghost use Rattle.std.specs.Prelude.{◌≡◌, ◌≤◌, ◌∷◌, [], IfOk, length, map};
ghost use Rattle.std.specs.List.{AllByRecursion};
ghost use Rattle.std.specs.Result.{result_map_both};
ghost use Rattle.calculations.specs.Calculation.{turned_into};
ghost use Rattle.affine_forms.specs.Steps.{subtracted};
ghost use Rattle.linear_models.specs.Conditions.{constraint_of, constraints};
ghost use Rattle.linear_models.specs.Linear.{reaching, row_left};
ghost use Rattle.lin_model.specs.Inner.{AreBuilt, AreForms, Pushed};
ghost use Rattle.optimality.specs.Kinds.{goal_of, relation_of};

use crate::conditions::Condition;
use crate::model::FormRow;
use crate::stop::BuildStop;
use crate::tightest::decision_of;
use affine_forms::{Form, FormStop};
use optimality::{Goal, Relation};
use std::alloc::Global;

// Adds the row of a difference in a relation to 0.
fn push_difference(
    left: &Form,
    relation: Relation,
    right: &Form,
    rows: &mut Vec<FormRow>,
) -> Result<(), FormStop>
    ensures { Pushed (turned_into (λ f. (f, relation_of relation) ∷ [])
        (subtracted left.now right.now)) rows.old.items rows.new.items result }
{
    match left.sub(right) {
        Ok(difference) => {
            rows.push(FormRow::new(difference, relation))?;
            Ok(())
        }
        Err(FormStop::Wide) => Err(FormStop::Wide),
        Err(FormStop::Memory) => Err(FormStop::Memory),
    }
}

// Adds the row that two sides leave, none where they are a bound.
fn push_left(row: &Condition, sides: &(Form, Form), rows: &mut Vec<FormRow>) -> Result<(), FormStop>
    ensures pushed { Pushed
        (row_left (constraint_of row.now sides.now)) rows.old.items rows.new.items result }
    ensures forms { AreForms sides.now }
{
    let left = &sides.0;
    let right = &sides.1;
    let _left_terms = left.terms();
    let _right_terms = right.terms();
    match decision_of(row, right) {
        Some(_) => Ok(()),
        None => push_difference(left, row.relation(), right, rows),
    }
}

/// The rows that all sides leave.
pub(crate) fn rows_left(
    alloc: Global,
    of: &[Condition],
    sides: &[(Form, Form)],
) -> Result<Vec<FormRow>, BuildStop>
    requires one_each { length sides.now ≡ length of.now }
    requires few { length of.now ≤ 256 }
    ensures built { AreBuilt (map row_left (constraints of.now sides.now))
        (result_map_both (λ rows. rows.items) (λ stop. stop) result) }
    ensures forms { IfOk result (λ _. AllByRecursion AreForms sides.now) }
{
    let mut rows = Vec::new(alloc);
    for (place, condition) in of.iter().enumerate() {
        match push_left(condition, &sides[place], &mut rows) {
            Ok(()) => {}
            Err(FormStop::Wide) => return Err(BuildStop::WideRow(place as u16 + 1)),
            Err(FormStop::Memory) => return Err(BuildStop::Memory),
        }
    }
    Ok(rows)
}

/// Adds the row of a value that is to be reached: the objective minus the value is 0.
pub(crate) fn push_reaching(
    alloc: Global,
    goal: Goal,
    objective: &Form,
    rows: &mut Vec<FormRow>,
) -> Result<(), FormStop>
    ensures { Pushed (reaching (goal_of goal) objective.now) rows.old.items rows.new.items result }
{
    match goal {
        Goal::Max => Ok(()),
        Goal::Min => Ok(()),
        Goal::Reach(value) => push_difference(
            objective,
            Relation::Equal,
            &Form::constant(alloc, value),
            rows,
        ),
    }
}
