// What the names of a sheet say, one by one.
ghost use Rattle.std.specs.Prelude.{◌≡◌, ◌≤◌, ◌<◌, IfOk, length};
ghost use Rattle.solver_names.specs.Read.{read_in, read_of};
ghost use Rattle.solver_names.specs.Constraints as said;
ghost use Rattle.solver_names.specs.Texts.{cell_in, cells_in, named, number_in, or_else, said_by, whole_in};
ghost use Rattle.solver_names.specs.declared.limits.TheConstants.{MOST_CONSTRAINTS};
ghost use Rattle.solver_names.specs.declared.name.Name.TheVariants as name;

use crate::cells::Cells;
use crate::constraints::{Constraint, constraints};
use crate::limits::MOST_CONSTRAINTS;
use crate::name::Name;
use crate::said::Said;
use crate::texts::{cell_in, cells_in, number_in, whole_in};
use cell_refs::{Cell, SheetId};
use frac128::Frac;
use memory::Memory;
use std::alloc::Global;
use workbook::Workbook;

/// All that the names of a sheet say.
#[derive(Drop)]
pub(crate) struct Names {
    pub(crate) decisions: Said<Cells>,
    pub(crate) objective: Said<Cell>,
    pub(crate) goal: Said<u16>,
    pub(crate) value: Said<Frac>,
    pub(crate) negative: Said<u16>,
    pub(crate) count: Said<u16>,
    pub(crate) constraints: Vec<Constraint>,
}

// The cells to be decided.
fn decisions_said(alloc: Global, book: &Workbook, sheet: SheetId) -> Result<Said<Cells>, Memory>
    requires listed { sheet.0 < length book.now.sheets }
    ensures { IfOk result (λ said. said
        ≡ said_by (cells_in book.now sheet.0) (named book.now sheet.0 name.Decisions)) }
{
    match Name::Decisions.find(alloc, book, sheet)? {
        Some(text) => Ok(Said::by_form(cells_in(alloc, book, sheet, text)?)),
        None => Ok(Said::Absent),
    }
}

// The cell of the objective.
fn objective_said(alloc: Global, book: &Workbook, sheet: SheetId) -> Result<Said<Cell>, Memory>
    requires listed { sheet.0 < length book.now.sheets }
    ensures { IfOk result (λ said. said
        ≡ said_by (cell_in book.now sheet.0) (named book.now sheet.0 name.Objective)) }
{
    match Name::Objective.find(alloc, book, sheet)? {
        Some(text) => Ok(Said::by_form(cell_in(alloc, book, sheet, text)?)),
        None => Ok(Said::Absent),
    }
}

// A whole number from one on to another.
fn whole_said(
    alloc: Global,
    book: &Workbook,
    sheet: SheetId,
    name: Name,
    least: u16,
    greatest: u16,
) -> Result<Said<u16>, Memory>
    ensures said { IfOk result (λ said. said
        ≡ said_by (whole_in least greatest) (named book.now sheet.0 name)) }
    ensures within { IfOk result (λ said. or_else said 0 ≤ greatest) }
{
    match name.find(alloc, book, sheet)? {
        Some(text) => Ok(Said::by_form(whole_in(least, greatest, text))),
        None => Ok(Said::Absent),
    }
}

// The value to be reached.
fn value_said(alloc: Global, book: &Workbook, sheet: SheetId) -> Result<Said<Frac>, Memory>
    ensures { IfOk result (λ said. said ≡ said_by number_in (named book.now sheet.0 name.Value)) }
{
    match Name::Value.find(alloc, book, sheet)? {
        Some(text) => Ok(Said::by_form(number_in(text))),
        None => Ok(Said::Absent),
    }
}

/// Reads the names of a sheet.
pub(crate) fn names_of(alloc: Global, book: &Workbook, sheet: SheetId) -> Result<Names, Memory>
    requires listed { sheet.0 < length book.now.sheets }
    ensures read { IfOk result (λ names. read_of names ≡ read_in book.now sheet.0) }
    ensures few { IfOk result (λ names. length names.constraints.items ≤ MOST_CONSTRAINTS) }
{
    let decisions = decisions_said(alloc, book, sheet)?;
    let objective = objective_said(alloc, book, sheet)?;
    let goal = whole_said(alloc, book, sheet, Name::Goal, 1, 3)?;
    let value = value_said(alloc, book, sheet)?;
    let negative = whole_said(alloc, book, sheet, Name::Negative, 1, 2)?;
    let count = whole_said(alloc, book, sheet, Name::Count, 0, MOST_CONSTRAINTS)?;
    let constraints = all_constraints(alloc, book, sheet, &count)?;
    Ok(Names {
        decisions,
        objective,
        goal,
        value,
        negative,
        count,
        constraints,
    })
}

// As many constraints as are said.
fn all_constraints(
    alloc: Global,
    book: &Workbook,
    sheet: SheetId,
    count: &Said<u16>,
) -> Result<Vec<Constraint>, Memory>
    requires listed { sheet.0 < length book.now.sheets }
    requires few { or_else count.now 0 ≤ MOST_CONSTRAINTS }
    ensures { IfOk result (λ v. v.items ≡ said.constraints book.now sheet.0 (or_else count.now 0)) }
{
    match count {
        Said::Says(many) => constraints(alloc, book, sheet, *many),
        _ => Ok(Vec::new(alloc)),
    }
}
