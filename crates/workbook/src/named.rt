// What names in formulas stand for.
ghost use Rattle.std.specs.Prelude.{◌≡◌, ◌≤◌, ◌<◌, All, IfOk, IfSome, length, option_map};
ghost use Rattle.cell_refs.specs.declared.limits.TheConstants.{TEXT_BYTES};
ghost use Rattle.cell_refs.specs.Areas.{IsOnSheet};
ghost use Rattle.formula_ast.specs.Sound.{IsForward};
ghost use Rattle.workbook.specs.Kinds.{Amount, Cells, meant, meant_by, put_at};
ghost use Rattle.workbook.specs.Known.{names_in};
ghost use Rattle.workbook.specs.State.{text_of};
ghost use Rattle.workbook.specs.Scoped.{IsMeantOnSheet, IsShort, meant_of, text_for};

use crate::change::Change;
use crate::names::{Key, Names};
use crate::words::{behind_equals, number};
use cell_refs::{Area, SheetId, SheetNames, Span};
use formula_ast::{Expr, Node};
use formula_parser::parse_reference;
use frac128::Frac;
use memory::Memory;
use std::alloc::Global;

/// What a name stands for.
#[derive(Clone, Copy)]
pub(crate) enum Meant {
    Amount(Frac),
    Cells(Area),
}

/// The sheet of a formula, and what is known of the workbook: its sheets, and its names, or those after an edit of one of them.
#[derive(Clone, Copy)]
pub(crate) struct Scope<'a> {
    pub(crate) home: SheetId,
    pub(crate) sheets: &'a SheetNames,
    pub(crate) names: &'a Names,
    pub(crate) change: Option<&'a Change>,
}

// What a text stands for on a sheet.
fn meaning_of(
    alloc: Global,
    sheets: &SheetNames,
    home: SheetId,
    text: &str,
) -> Result<Option<Meant>, Memory>
    requires length { length text.now ≤ TEXT_BYTES }
    requires listed { home.0 < length sheets.now }
    ensures meant { IfOk result (λ m. option_map meant_of m ≡ meant_by sheets.now home.0 text.now) }
    ensures on_sheet { IfOk result (λ m. IfSome m IsMeantOnSheet) }
{
    let rest = behind_equals(text);
    if let Some(value) = number(rest) {
        return Ok(Some(Meant::Amount(value)));
    }
    match parse_reference(alloc, rest, home, sheets)? {
        Some(area) => Ok(Some(Meant::Cells(area))),
        None => Ok(None),
    }
}

// The text of a name, for the formula's sheet or else for the whole workbook.
fn text_for<'a>(alloc: Global, scope: &Scope<'a>, name: &str) -> Result<Option<&'a str>, Memory>
    ensures { IfOk result (λ t. option_map (λ t. t.now) t
        ≡ text_for (names_in scope.now) scope.now.home.0 name.now) }
{
    if let Some(text) = text_of(alloc, scope, Some(scope.home), name)? {
        return Ok(Some(text));
    }
    text_of(alloc, scope, None, name)
}

// The text of a name of a sheet, or of the whole workbook.
fn text_of<'a>(
    alloc: Global,
    scope: &Scope<'a>,
    sheet: Option<SheetId>,
    name: &str,
) -> Result<Option<&'a str>, Memory>
    ensures { IfOk result (λ t. option_map (λ t. t.now) t
        ≡ text_of (names_in scope.now) (option_map (λ s. s.0) sheet) name.now) }
{
    let Some(change) = scope.change else {
        return text_in(alloc, scope.names, sheet, name);
    };
    if change.is_of(sheet, name) {
        return Ok(change.text());
    }
    text_in(alloc, scope.names, sheet, name)
}

// The text of a name among some names, with no edit of them.
fn text_in<'a>(
    alloc: Global,
    names: &'a Names,
    sheet: Option<SheetId>,
    name: &str,
) -> Result<Option<&'a str>, Memory>
    ensures { IfOk result (λ t. option_map (λ t. t.now) t
        ≡ text_of names.now (option_map (λ s. s.0) sheet) name.now) }
{
    let key = Key::new(alloc, sheet, name)?;
    Ok(names.text(&key))
}

/// What a name stands for in a formula.
pub(crate) fn stands_for(alloc: Global, scope: &Scope, name: &str) -> Result<Option<Meant>, Memory>
    requires listed { scope.now.home.0 < length scope.now.sheets.now }
    requires short { All IsShort (names_in scope.now) }
    ensures meant { IfOk result (λ m. option_map meant_of m
        ≡ meant scope.now.sheets.now (names_in scope.now) scope.now.home.0 name.now) }
    ensures on_sheet { IfOk result (λ m. IfSome m IsMeantOnSheet) }
{
    match text_for(alloc, scope, name)? {
        Some(text) => meaning_of(alloc, scope.sheets, scope.home, text),
        None => Ok(None),
    }
}

/// What a name stands for, in the place of the name.
pub(crate) fn in_place(
    alloc: Global,
    scope: &Scope,
    span: Span,
    name: &str,
) -> Result<Option<Expr>, Memory>
    requires listed { scope.now.home.0 < length scope.now.sheets.now }
    requires short { All IsShort (names_in scope.now) }
    requires forward { IsForward span }
    ensures { IfOk result (λ found. found ≡ option_map (put_at span)
        (meant scope.now.sheets.now (names_in scope.now) scope.now.home.0 name.now)) }
{
    let found = stands_for(alloc, scope, name)?;
    let Some(meant) = found else {
        return Ok(None);
    };
    Ok(Some(put(alloc, span, meant)?))
}

// What a name stands for, in its place.
fn put(alloc: Global, span: Span, meant: Meant) -> Result<Expr, Memory>
    requires forward { IsForward span }
    requires on_sheet { IsMeantOnSheet meant }
    ensures { IfOk result (λ e. e ≡ put_at span (meant_of meant)) }
{
    match meant {
        Meant::Amount(value) => Ok(amount(span, value)),
        Meant::Cells(area) => cells(alloc, span, area),
    }
}

// A number in the place of a name.
fn amount(span: Span, value: Frac) -> Expr
    requires forward { IsForward span }
    ensures { result ≡ put_at span (Amount value) }
{
    Expr {
        span,
        node: Node::Number(value),
    }
}

// An area in the place of a name.
fn cells(alloc: Global, span: Span, area: Area) -> Result<Expr, Memory>
    requires forward { IsForward span }
    requires on_sheet { IsOnSheet area }
    ensures { IfOk result (λ e. e ≡ put_at span (Cells area)) }
{
    let areas = Vec::from_slice(alloc, &[area])?;
    Ok(Expr {
        span,
        node: Node::Reference(areas),
    })
}
