// The constraints of a sheet's names.
ghost use Rattle.std.specs.Prelude.{◌≡◌, ◌≤◌, ◌<◌, IfOk, length, string_bytes};
ghost use Rattle.cell_refs.specs.declared.limits.TheConstants.{TEXT_BYTES};
ghost use Rattle.solver_names.specs.Constraints as said;
ghost use Rattle.solver_names.specs.Constraints.{code_in, code_of, code_said, left_said, right_said};
ghost use Rattle.solver_names.specs.Texts.{as_formula, side_in};
ghost use Rattle.solver_names.specs.declared.limits.TheConstants.{MOST_CONSTRAINTS};

use crate::name::Name;
use crate::said::Said;
use crate::texts::{reference_in, whole_in};
use cell_refs::{Area, SheetId};
use formula_ast::Expr;
use memory::Memory;
use optimality::Relation;
use std::alloc::Global;
use workbook::Workbook;

/// What a constraint asks of its left side.
#[derive(Clone, Copy, PartialEq, Eq)]
pub(crate) enum Code {
    Related(Relation),
    Whole,
    Binary,
    Different,
}

/// The right side of a constraint: an area, or an expression.
#[derive(Drop)]
pub(crate) enum Side {
    Area(Area),
    Tree(Expr),
}

/// A constraint, by its number from 1 on, and what its names say.
#[derive(Drop)]
pub(crate) struct Constraint {
    pub(crate) k: u16,
    pub(crate) left: Said<Area>,
    pub(crate) code: Said<Code>,
    pub(crate) right: Said<Side>,
}

// The code of a number.
fn code_of(number: u16) -> Option<Code>
    ensures { result ≡ code_of number }
{
    match number {
        1 => Some(Code::Related(Relation::AtMost)),
        2 => Some(Code::Related(Relation::Equal)),
        3 => Some(Code::Related(Relation::AtLeast)),
        4 => Some(Code::Whole),
        5 => Some(Code::Binary),
        6 => Some(Code::Different),
        _ => None,
    }
}

// The code that a text is.
fn code_in(text: &str) -> Option<Code>
    ensures { result ≡ code_in text.now }
{
    match whole_in(1, 6, text) {
        Some(number) => code_of(number),
        None => None,
    }
}

// The text with an equals sign before it, where it has none.
fn as_formula(alloc: Global, text: &str) -> Result<String, Memory>
    ensures { IfOk result (λ s. string_bytes s ≡ as_formula text.now) }
{
    if text.starts_with('=') {
        return Ok(String::from_str(alloc, text)?);
    }
    let mut formula = String::from_str(alloc, "=")?;
    formula.push_str(text)?;
    Ok(formula)
}

// One reference, or else an expression that would be allowed in a cell.
fn side_in(
    alloc: Global,
    book: &Workbook,
    sheet: SheetId,
    text: &str,
) -> Result<Option<Side>, Memory>
    requires length { length text.now ≤ TEXT_BYTES }
    requires listed { sheet.0 < length book.now.sheets }
    ensures { IfOk result (λ side. side ≡ side_in book.now sheet.0 text.now) }
{
    if let Some(area) = reference_in(alloc, book, sheet, text)? {
        return Ok(Some(Side::Area(area)));
    }
    let formula = as_formula(alloc, text)?;
    match book.formula(alloc, sheet, formula.as_str())? {
        Some(tree) => Ok(Some(Side::Tree(tree))),
        None => Ok(None),
    }
}

// What the left side's name says.
fn left_said(alloc: Global, book: &Workbook, sheet: SheetId, k: u16) -> Result<Said<Area>, Memory>
    requires listed { sheet.0 < length book.now.sheets }
    ensures { IfOk result (λ said. said ≡ left_said book.now sheet.0 k) }
{
    match Name::Left(k).find(alloc, book, sheet)? {
        Some(text) => Ok(Said::by_form(reference_in(alloc, book, sheet, text)?)),
        None => Ok(Said::Absent),
    }
}

// What the code's name says.
fn code_said(alloc: Global, book: &Workbook, sheet: SheetId, k: u16) -> Result<Said<Code>, Memory>
    ensures { IfOk result (λ said. said ≡ code_said book.now sheet.0 k) }
{
    match Name::Code(k).find(alloc, book, sheet)? {
        Some(text) => Ok(Said::by_form(code_in(text))),
        None => Ok(Said::Absent),
    }
}

// What the right side's name says, which is read for relations alone.
fn right_said(
    alloc: Global,
    book: &Workbook,
    sheet: SheetId,
    k: u16,
    code: &Said<Code>,
) -> Result<Said<Side>, Memory>
    requires listed { sheet.0 < length book.now.sheets }
    ensures { IfOk result (λ said. said ≡ right_said book.now sheet.0 k code.now) }
{
    let Said::Says(Code::Related(_)) = code else {
        return Ok(Said::Absent);
    };
    match Name::Right(k).find(alloc, book, sheet)? {
        Some(text) => Ok(Said::by_form(side_in(alloc, book, sheet, text)?)),
        None => Ok(Said::Absent),
    }
}

// Constraint k.
fn read_constraint(
    alloc: Global,
    book: &Workbook,
    sheet: SheetId,
    k: u16,
) -> Result<Constraint, Memory>
    requires listed { sheet.0 < length book.now.sheets }
    ensures { IfOk result (λ c. c ≡ said.constraint book.now sheet.0 k) }
{
    let left = left_said(alloc, book, sheet, k)?;
    let code = code_said(alloc, book, sheet, k)?;
    let right = right_said(alloc, book, sheet, k, &code)?;
    Ok(Constraint {
        k,
        left,
        code,
        right,
    })
}

/// So many constraints, from the first on.
pub(crate) fn constraints(
    alloc: Global,
    book: &Workbook,
    sheet: SheetId,
    count: u16,
) -> Result<Vec<Constraint>, Memory>
    requires listed { sheet.0 < length book.now.sheets }
    requires few { count ≤ MOST_CONSTRAINTS }
    ensures { IfOk result (λ v. v.items ≡ said.constraints book.now sheet.0 count) }
{
    let mut all = Vec::new(alloc);
    for k in 1..count + 1 {
        all.push(read_constraint(alloc, book, sheet, k)?)?;
    }
    Ok(all)
}
