// What is printed of a sheet's linear model.
ghost use Rattle.std.specs.Prelude.{◌≡◌, ◌++◌, ℕ, IfOk, OnOk, is_some, length, map, option_map};
ghost use Rattle.form_extraction.specs.Places.{numbered_in};
ghost use Rattle.optimality.specs.Kinds.{goal_of};
ghost use Rattle.linear_models.specs.Bounds.{bounded_by};
ghost use Rattle.linear_models.specs.Conditions.{constraints};
ghost use Rattle.sheet_linear_model.specs.Answers.{prepared_of};
ghost use Rattle.sheet_linear_model.specs.Inner.{number_where};
ghost use Rattle.sheet_linear_model.specs.Lines.{lines_of, numbers_of, row_numbers};
ghost use Rattle.sheet_linear_model.specs.Prepared.{IsPrepared};
ghost use Rattle.form_needs.specs.FromSheetProblems.{condition_of};
ghost use Rattle.solver_names.specs.Answers.{row_of};
ghost use Rattle.workbook.specs.State.{State};

use crate::prepared::Prepared;
use affine_forms::Form;
use lin_model::Goal;
use memory::Memory;
use model_lines::ModelLines;
use solver_names::{RowOf, Statement};
use std::alloc::Global;
use workbook::Adj;

// Whether a row bounds a decision: its left side is that decision, and its right side a number.
fn is_bound(decisions: &Adj, row: &RowOf, right: &Form) -> bool
    ensures { result
        ≡ is_some (bounded_by (numbered_in decisions.now row.now.left) right.now.terms) }
{
    match decisions.find(row.left) {
        Some(_) => right.terms().is_empty(),
        None => false,
    }
}

// Adds the number of a row that isn't a bound.
fn push_number(
    numbers: &mut Vec<u16>,
    decisions: &Adj,
    row: &RowOf,
    right: &Form,
) -> Result<(), Memory>
    ensures { OnOk result (numbers.new.items ≡ numbers.old.items ++ number_where
        (is_some (bounded_by (numbered_in decisions.now row.now.left) right.now.terms)) row.now.k) }
{
    if !is_bound(decisions, row, right) {
        numbers.push(row.k)?;
    }
    Ok(())
}

// The numbers of those of some rows that aren't bounds of a decision.
fn numbers_among(
    alloc: Global,
    decisions: &Adj,
    rows: &[RowOf],
    sides: &[(Form, Form)],
) -> Result<Vec<u16>, Memory>
    requires { length sides.now ≡ length rows.now }
    ensures { IfOk result (λ numbers. numbers.items ≡ row_numbers (map row_of rows.now)
        (constraints (map (condition_of decisions.now) (map row_of rows.now)) sides.now)) }
{
    let mut numbers = Vec::new(alloc);
    for (place, row) in rows.iter().enumerate() {
        push_number(&mut numbers, decisions, row, &sides[place].1)?;
    }
    Ok(numbers)
}

/// The numbers of the rows of the names that are rows of the model, in their order: of all that aren't bounds of a decision.
pub fn row_numbers(alloc: Global, of: &Prepared) -> Result<Vec<u16>, Memory>
    requires { (book : State) × (sheet : ℕ) × IsPrepared book sheet (prepared_of of.now) }
    ensures { IfOk result (λ numbers. numbers.items ≡ numbers_of (prepared_of of.now)) }
{
    numbers_among(alloc, &of.statement.adj, &of.statement.rows, &of.sides)
}

// What is wanted of the objective, where there is one.
fn goal_wanted(of: &Statement) -> Option<Goal>
    ensures { option_map goal_of result ≡ option_map (λ _. goal_of of.now.goal) of.now.objective }
{
    match of.objective {
        Some(_) => Some(of.goal),
        None => None,
    }
}

/// The model of a sheet as it is printed.
pub fn model_lines(alloc: Global, of: Prepared) -> Result<ModelLines, Memory>
    requires { (book : State) × (sheet : ℕ) × IsPrepared book sheet (prepared_of of) }
    ensures { IfOk result (λ lines. lines ≡ lines_of (prepared_of of)) }
{
    let numbers = row_numbers(alloc, &of)?;
    let goal = goal_wanted(&of.statement);
    let Prepared {
        statement,
        objective,
        sides: _,
        model,
    } = of;
    let Statement { adj, different, .. } = statement;
    Ok(ModelLines::new(adj, goal, objective, numbers, model, different))
}
