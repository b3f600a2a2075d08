// The statement of a sheet's names.
ghost use Rattle.std.specs.Prelude.{◌≡◌, ◌≤◌, ◌<◌, ◌==◌, ◌||◌, [], IfOk, None, length};
ghost use Rattle.cell_refs.specs.declared.adj.TheConstants.{DECISIONS};
ghost use Rattle.fractions.specs.Rational.{zero_ℚ};
ghost use Rattle.cell_refs.specs.declared.cell.Cell.{Cell};
ghost use Rattle.optimality.specs.Kinds as kinds;
ghost use Rattle.solver_names.specs.Answers.{Answers, statement_of};
ghost use Rattle.solver_names.specs.Constraints.{is_among};
ghost use Rattle.solver_names.specs.Faults.{faults, first, most_decisions};
ghost use Rattle.solver_names.specs.Read.{read_of};
ghost use Rattle.solver_names.specs.Stated as told;
ghost use Rattle.solver_names.specs.Stated.{goal_in, numbers_from, said_objective};
ghost use Rattle.solver_names.specs.Texts.{or_else};

use crate::cells::Cells;
use crate::constraints::{Code, Constraint};
use crate::fault::NamesFault;
use crate::faults::{first_fault, named_fault};
use crate::groups::all_groups;
use crate::names::{Names, names_of};
use crate::rows::rows_of;
use crate::said::Said;
use crate::statements::Statement;
use cell_refs::{Cell, SheetId};
use frac128::Frac;
use memory::Memory;
use optimality::{Goal, Relation};
use std::alloc::Global;
use workbook::Workbook;

// What is wanted of the objective: the greatest value where nothing else is said.
fn goal_of(names: &Names) -> Goal
    ensures { kinds.goal_of result ≡ goal_in (read_of names.now) }
{
    if names.objective.is_absent() {
        return Goal::Max;
    }
    match names.goal {
        Said::Says(3) => Goal::Reach(value_of(names)),
        Said::Says(2) => Goal::Min,
        _ => Goal::Max,
    }
}

// The value to be reached: 0 where nothing else is said.
fn value_of(names: &Names) -> Frac
    ensures { result ≡ or_else names.now.value zero_ℚ }
{
    match names.value {
        Said::Says(value) => value,
        _ => Frac::zero(),
    }
}

// Whether the code of a constraint is this one.
fn is_code(code: Code, said: &Said<Code>) -> bool
    ensures { result ≡ told.is_code code said.now }
{
    match (code, said) {
        (Code::Related(Relation::AtLeast), Said::Says(Code::Related(Relation::AtLeast))) => true,
        (Code::Whole, Said::Says(Code::Whole)) => true,
        (Code::Binary, Said::Says(Code::Binary)) => true,
        (Code::Different, Said::Says(Code::Different)) => true,
        _ => false,
    }
}

// With the cells on the left of a constraint, where it is of this code.
fn with_left(cells: Cells, code: Code, constraint: &Constraint) -> Result<Cells, Memory>
    ensures { IfOk result (λ more. (c : Cell) → is_among more c
        ≡ (is_among cells c || told.is_marked_by code c constraint.now)) }
{
    let Said::Says(left) = &constraint.left else {
        return Ok(cells);
    };
    if !is_code(code, &constraint.code) {
        return Ok(cells);
    }
    let more = cells.with_area(*left)?;
    Ok(more)
}

// The cells on the left of the constraints of this code.
fn left_cells(alloc: Global, code: Code, constraints: &[Constraint]) -> Result<Cells, Memory>
    ensures { IfOk result (λ cells. (c : Cell) → is_among cells c
        ≡ told.is_marked code constraints.now c) }
{
    let mut cells = Cells::new(alloc);
    for constraint in constraints {
        cells = with_left(cells, code, constraint)?;
    }
    Ok(cells)
}

// The numbers of the cells that are among some others.
fn numbers_among(alloc: Global, others: &Cells, cells: &[Cell]) -> Result<Vec<u16>, Memory>
    requires { length cells.now ≤ DECISIONS }
    ensures { IfOk result (λ v. v.items ≡ numbers_from 0 (is_among others.now) cells.now) }
{
    let mut numbers = Vec::new(alloc);
    for (number, cell) in cells.iter().enumerate() {
        if others.has(*cell) {
            numbers.push(number as u16)?;
        }
    }
    Ok(numbers)
}

// The numbers of the cells that stand on the left of a constraint of this code.
fn numbers_of_code(
    alloc: Global,
    code: Code,
    constraints: &[Constraint],
    cells: &[Cell],
) -> Result<Vec<u16>, Memory>
    requires { length cells.now ≤ DECISIONS }
    ensures { IfOk result (λ v. v.items ≡ told.marked code constraints.now cells.now) }
{
    let left = left_cells(alloc, code, constraints)?;
    numbers_among(alloc, &left, cells)
}

// The cells to be decided; none where none are said.
fn decisions_of(alloc: Global, said: Said<Cells>) -> Cells
    ensures { result ≡ or_else said [] }
{
    match said {
        Said::Says(cells) => cells,
        _ => Cells::new(alloc),
    }
}

// The cell of the objective.
fn objective_of(said: &Said<Cell>) -> Option<Cell>
    ensures { result ≡ said_objective said.now }
{
    match said {
        Said::Says(cell) => Some(*cell),
        _ => None,
    }
}

// Whether decided values may not be negative: so where nothing else is said.
fn is_not_negative(said: &Said<u16>) -> bool
    ensures { result ≡ (or_else said.now 1 == 1) }
{
    match said {
        Said::Says(number) => *number == 1,
        _ => true,
    }
}

// The statement of names without a fault.
fn statement_by(alloc: Global, sheet: SheetId, names: Names) -> Result<Statement, Memory>
    requires { first (faults (read_of names)) ≡ None }
    ensures stated { IfOk result (λ s. statement_of s ≡ told.stated sheet.0 (read_of names)) }
    ensures sheet { IfOk result (λ s. s.sheet ≡ sheet) }
    ensures few { IfOk result (λ s. length s.adj ≤ most_decisions) }
{
    let goal = goal_of(&names);
    let objective = objective_of(&names.objective);
    let not_negative = is_not_negative(&names.negative);
    let constraints = names.constraints;
    let adj = decisions_of(alloc, names.decisions).into_adj(alloc)?;
    let rows = rows_of(alloc, &constraints)?;
    let whole = numbers_of_code(alloc, Code::Whole, &constraints, adj.cells())?;
    let binary = numbers_of_code(alloc, Code::Binary, &constraints, adj.cells())?;
    let at_least = Code::Related(Relation::AtLeast);
    let explicit = numbers_of_code(alloc, at_least, &constraints, adj.cells())?;
    let different = all_groups(alloc, &adj, &constraints)?;
    Ok(Statement {
        sheet,
        adj,
        objective,
        goal,
        rows,
        whole,
        binary,
        explicit,
        different,
        not_negative,
    })
}

/// What the names of a sheet state, or the first fault in them. The names are those of Excel's Solver (docs/FORMATS.md).
pub fn statement(alloc: Global, book: &Workbook, sheet: SheetId) -> Result<Statement, NamesFault>
    requires { sheet.0 < length book.now.sheets }
    ensures answer { Answers book.now sheet.0 result }
    ensures sheet { IfOk result (λ s. s.sheet ≡ sheet) }
    ensures few { IfOk result (λ s. length s.adj ≤ most_decisions) }
{
    let names = names_of(alloc, book, sheet)?;
    if let Some(fault) = first_fault(&names) {
        return Err(named_fault(alloc, book, sheet, fault)?);
    }
    Ok(statement_by(alloc, sheet, names)?)
}
