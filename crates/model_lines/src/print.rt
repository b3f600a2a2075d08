// The lines of a model.
ghost use Rattle.std.specs.Prelude.{◌≡◌, ◌++◌, [], ◌∷◌, All, OnOk, decimal, length, map, option_map, string_bytes, zip};
ghost use Rattle.std.specs.List.{AllByRecursion};
ghost use Rattle.affine_forms.specs.Assigned.{ReachTo};
ghost use Rattle.optimality.specs.Kinds.{goal_of, relation_of};
ghost use Rattle.model_lines.specs.Ended.{RowReaches, ended};
ghost use Rattle.model_lines.specs.Groups.{AreGroups, groups_of};
ghost use Rattle.model_lines.specs.Lines.{aim_line, bound_text, cell_line, cell_lines, form_text, goal_text, mark_text, model_text, relation_text, row_line, sum_text};
ghost use Rattle.cell_refs.specs.Listed.{IsListed};

use crate::decisions::{print_decision, print_listed};
use crate::groups::print_groups;
use affine_forms::Form;
use cell_refs::{Cell, SheetNames};
use frac128::Frac;
use itoa::Buffer;
use lin_model::{FormRow, Goal, LinModel, Relation};
use memory::Memory;

/// Appends the lines of a model over these cells, with line ends between them.
pub(crate) fn print_lines(
    goal: Option<Goal>,
    objective: &Form,
    numbers: &[u16],
    model: &LinModel,
    groups: &[Vec<u16>],
    cells: &[Cell],
    sheets: &SheetNames,
    to: &mut String,
) -> Result<(), Memory>
    requires listed { All (IsListed sheets.now) cells.now }
    requires marks { length cells.now ≡ length model.now.whole }
    requires reach { ReachTo objective.now.terms (length cells.now) }
    requires groups { AreGroups (length cells.now) (groups_of groups.now) }
    ensures { OnOk result (string_bytes to.new
        ≡ string_bytes to.old ++ model_text sheets.now (record {
          decisions = cells.now;
          aim = option_map (λ g. (goal_of g, objective.now)) goal;
          rows = zip numbers.now model.now.rows;
          whole = model.now.whole;
          bounds = model.now.bounds;
          groups = groups_of groups.now;
        })) }
{
    let whole = model.whole();
    let rows = model.rows();
    let bounds = model.bounds();
    print_aim(goal, objective, cells, sheets, to)?;
    print_rows(numbers, rows, cells, sheets, to)?;
    print_cells(cells, whole, bounds.least(), bounds.greatest(), sheets, to)?;
    print_groups(groups, cells, sheets, to)?;
    to.push_str("end")?;
    Ok(())
}

// ---- forms

// Appends terms and a constant.
fn print_sum(
    terms: &[(u16, Frac)],
    base: Frac,
    cells: &[Cell],
    sheets: &SheetNames,
    to: &mut String,
) -> Result<(), Memory>
    requires listed { All (IsListed sheets.now) cells.now }
    requires reach { ReachTo terms.now (length cells.now) }
    ensures { OnOk result (string_bytes to.new
        ≡ string_bytes to.old ++ sum_text sheets.now cells.now terms.now base) }
{
    match terms {
        [] => base.write(to),
        [first, rest @ ..] => {
            first.1.write(to)?;
            to.push_str("*")?;
            print_decision(first.0, cells, sheets, to)?;
            to.push_str(" + ")?;
            print_sum(rest, base, cells, sheets, to)
        }
    }
}

// Appends a form.
fn print_form(
    form: &Form,
    cells: &[Cell],
    sheets: &SheetNames,
    to: &mut String,
) -> Result<(), Memory>
    requires listed { All (IsListed sheets.now) cells.now }
    requires reach { ReachTo form.now.terms (length cells.now) }
    ensures { OnOk result (string_bytes to.new
        ≡ string_bytes to.old ++ form_text sheets.now cells.now form.now) }
{
    print_sum(form.terms(), form.base(), cells, sheets, to)
}

// ---- the objective

// Appends what is wanted.
fn print_goal(goal: Goal, to: &mut String) -> Result<(), Memory>
    ensures { OnOk result (string_bytes to.new ≡ string_bytes to.old ++ goal_text (goal_of goal)) }
{
    match goal {
        Goal::Max => to.push_str("max ")?,
        Goal::Min => to.push_str("min ")?,
        Goal::Reach(value) => {
            to.push_str("reach ")?;
            value.write(to)?;
            to.push_str(" ")?;
        }
    }
    Ok(())
}

// Appends the line of the objective, with its end.
fn print_aim(
    goal: Option<Goal>,
    objective: &Form,
    cells: &[Cell],
    sheets: &SheetNames,
    to: &mut String,
) -> Result<(), Memory>
    requires listed { All (IsListed sheets.now) cells.now }
    requires reach { ReachTo objective.now.terms (length cells.now) }
    ensures { OnOk result (string_bytes to.new ≡ string_bytes to.old ++ ended
        (aim_line sheets.now cells.now (option_map (λ g. (goal_of g, objective.now)) goal) ∷ [])) }
{
    match goal {
        None => to.push_str("none")?,
        Some(goal) => {
            print_goal(goal, to)?;
            print_form(objective, cells, sheets, to)?;
        }
    }
    to.push_str("\n")?;
    Ok(())
}

// ---- rows

// Appends a relation to 0.
fn print_relation(relation: Relation, to: &mut String) -> Result<(), Memory>
    ensures { OnOk result (string_bytes to.new
        ≡ string_bytes to.old ++ relation_text (relation_of relation)) }
{
    to.push_str(match relation {
        Relation::AtMost => " <= 0",
        Relation::Equal => " = 0",
        Relation::AtLeast => " >= 0",
    })?;
    Ok(())
}

// Appends the digits of a number.
fn print_number(number: u16, to: &mut String) -> Result<(), Memory>
    ensures { OnOk result (string_bytes to.new ≡ string_bytes to.old ++ decimal number) }
{
    let mut digits = Buffer::new();
    to.push_str(digits.format(number))?;
    Ok(())
}

// Appends the line of a row, without its end.
fn print_row(
    number: u16,
    row: &FormRow,
    cells: &[Cell],
    sheets: &SheetNames,
    to: &mut String,
) -> Result<(), Memory>
    requires listed { All (IsListed sheets.now) cells.now }
    requires reach { ReachTo row.now.0.terms (length cells.now) }
    ensures { OnOk result (string_bytes to.new
        ≡ string_bytes to.old ++ row_line sheets.now cells.now (number, row.now)) }
{
    to.push_str("row ")?;
    print_number(number, to)?;
    to.push_str(" ")?;
    print_form(row.form(), cells, sheets, to)?;
    print_relation(row.relation(), to)
}

// Appends the line of each row that has a number, with its end.
fn print_rows(
    numbers: &[u16],
    rows: &[FormRow],
    cells: &[Cell],
    sheets: &SheetNames,
    to: &mut String,
) -> Result<(), Memory>
    requires listed { All (IsListed sheets.now) cells.now }
    requires reach { AllByRecursion (RowReaches (length cells.now)) rows.now }
    ensures { OnOk result (string_bytes to.new ≡ string_bytes to.old
        ++ ended (map (row_line sheets.now cells.now) (zip numbers.now rows.now))) }
{
    let [number, numbers @ ..] = numbers else {
        return Ok(());
    };
    let [row, rows @ ..] = rows else {
        return Ok(());
    };
    print_row(*number, row, cells, sheets, to)?;
    to.push_str("\n")?;
    print_rows(numbers, rows, cells, sheets, to)
}

// ---- cells

// Appends whether a decision is to be whole.
fn print_mark(whole: bool, to: &mut String) -> Result<(), Memory>
    ensures { OnOk result (string_bytes to.new ≡ string_bytes to.old ++ mark_text whole) }
{
    to.push_str(if whole { " integer " } else { " continuous " })?;
    Ok(())
}

// Appends a bound, or a stroke where there is none.
fn print_bound(bound: Option<Frac>, to: &mut String) -> Result<(), Memory>
    ensures { OnOk result (string_bytes to.new ≡ string_bytes to.old ++ bound_text bound) }
{
    match bound {
        Some(number) => number.write(to),
        None => {
            to.push_str("-")?;
            Ok(())
        }
    }
}

// Appends the line of a cell, without its end.
fn print_decided(
    cell: &Cell,
    whole: bool,
    low: Option<Frac>,
    high: Option<Frac>,
    sheets: &SheetNames,
    to: &mut String,
) -> Result<(), Memory>
    requires { IsListed sheets.now cell.now }
    ensures { OnOk result (string_bytes to.new
        ≡ string_bytes to.old ++ cell_line sheets.now cell.now whole low high) }
{
    to.push_str("cell ")?;
    print_listed(cell, sheets, to)?;
    print_mark(whole, to)?;
    print_bound(low, to)?;
    to.push_str(" ")?;
    print_bound(high, to)
}

// Appends the line of each cell, with its end.
fn print_cells(
    cells: &[Cell],
    marks: &[bool],
    lows: &[Option<Frac>],
    highs: &[Option<Frac>],
    sheets: &SheetNames,
    to: &mut String,
) -> Result<(), Memory>
    requires { AllByRecursion (IsListed sheets.now) cells.now }
    ensures { OnOk result (string_bytes to.new ≡ string_bytes to.old
        ++ ended (cell_lines sheets.now cells.now marks.now lows.now highs.now)) }
{
    let [cell, cells @ ..] = cells else {
        return Ok(());
    };
    let [whole, marks @ ..] = marks else {
        return Ok(());
    };
    let [low, lows @ ..] = lows else {
        return Ok(());
    };
    let [high, highs @ ..] = highs else {
        return Ok(());
    };
    print_decided(cell, *whole, *low, *high, sheets, to)?;
    to.push_str("\n")?;
    print_cells(cells, marks, lows, highs, sheets, to)
}
