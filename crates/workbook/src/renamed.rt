// Cells that say something else once a name stands for something else.
ghost use Rattle.std.specs.Prelude.{◌≡◌, ◌≢◌, ◌<◌, ◌&&◌, All, IfOk, IfSome, MatchBool, MatchOption, OnOk, ◌++◌, false, length, map, option_map, true};
ghost use Rattle.std.specs.Map.{keys_of};
ghost use Rattle.workbook.specs.Held.{AllAreHeld, IsHeld, held_at};
ghost use Rattle.workbook.specs.Kinds.{Amount, Cells, meant};
ghost use Rattle.workbook.specs.Known.{names_with};
ghost use Rattle.workbook.specs.Renamed.{AreResaid, OthersStay, Resaid, ResaidAt, is_malformed, of_cell};
ghost use Rattle.workbook.specs.Scoped.{IsMeantOnSheet, IsShort, meant_of};
ghost use Rattle.workbook.specs.Users.{AllAreCovered};

use crate::change::Change;
use crate::held::{Held, Said};
use crate::named::{Meant, Scope, stands_for};
use crate::names::Names;
use crate::naming::with_names;
use crate::say::said_of;
use crate::users::Users;
use crate::uses::uses;
use cell_refs::{Area, Cell, SheetId, SheetNames};
use frac128::Frac;
use memory::Memory;
use std::alloc::Global;
use std::cmp::Ordering;
use std::collections::BTreeMap;

/// The names before an edit of one of them, the edit, and that name.
#[derive(Clone, Copy)]
pub(crate) struct Edit<'a> {
    pub(crate) sheets: &'a SheetNames,
    pub(crate) before: &'a Names,
    pub(crate) change: &'a Change,
    pub(crate) name: &'a str,
}

/// What is said after the edit of the cells that say something else; no cell is looked at but those in whose formulas the name may
/// stand, and no other formula's tree is made anew.
pub(crate) fn sayings_after(
    alloc: Global,
    edit: &Edit,
    users: &Users,
    cells: &BTreeMap<Cell, Held>,
) -> Result<Vec<(Cell, Said)>, Memory>
    requires held { AllAreHeld edit.now.sheets.now edit.now.before.now cells.now.entries }
    requires covered { AllAreCovered users.now cells.now.entries }
    requires others { OthersStay edit.now.name.now edit.now.before.now (names_with edit.now) }
    requires short { All IsShort edit.now.before.now }
    requires short_after { All IsShort (names_with edit.now) }
    ensures { IfOk result (λ said. AreResaid edit.now.sheets.now edit.now.before.now
        (names_with edit.now) cells.now.entries said.items) }
{
    let mut said = Vec::new(alloc);
    let Some(known) = users.of(alloc, edit.name)? else {
        return Ok(said);
    };
    for cell in known.iter() {
        let other = resaid_at(alloc, edit, cells, *cell)?;
        add_other(&mut said, *cell, other)?;
    }
    Ok(said)
}

// Adds what is said of a cell, where it is something else.
fn add_other(said: &mut Vec<(Cell, Said)>, cell: Cell, other: Option<Said>) -> Result<(), Memory>
    ensures { OnOk result (said.new.items ≡ said.old.items ++ of_cell cell other) }
{
    let Some(other) = other else {
        return Ok(());
    };
    said.push((cell, other))?;
    Ok(())
}

/// The cells of which something else is said.
pub(crate) fn cells_of(alloc: Global, said: &[(Cell, Said)]) -> Result<Vec<Cell>, Memory>
    ensures { IfOk result (λ cells. cells.items ≡ keys_of said.now) }
{
    let mut cells = Vec::new(alloc);
    for (cell, _) in said {
        cells.push(*cell)?;
    }
    Ok(cells)
}

// What is said after the edit of a cell, where it has a text and says something else.
fn resaid_at(
    alloc: Global,
    edit: &Edit,
    cells: &BTreeMap<Cell, Held>,
    cell: Cell,
) -> Result<Option<Said>, Memory>
    requires held { AllAreHeld edit.now.sheets.now edit.now.before.now cells.now.entries }
    requires others { OthersStay edit.now.name.now edit.now.before.now (names_with edit.now) }
    requires short { All IsShort edit.now.before.now }
    requires short_after { All IsShort (names_with edit.now) }
    ensures { IfOk result (λ said. ResaidAt edit.now.sheets.now edit.now.before.now
        (names_with edit.now) cell (held_at cells.now.entries cell) said) }
{
    match cells.get(&cell) {
        Some(held) => saying_after(alloc, edit, cell, held),
        None => Ok(None),
    }
}

// What a text says after the edit, if that is something else.
fn saying_after(alloc: Global, edit: &Edit, cell: Cell, held: &Held) -> Result<Option<Said>, Memory>
    requires held { IsHeld edit.now.sheets.now edit.now.before.now cell held.now }
    requires others { OthersStay edit.now.name.now edit.now.before.now (names_with edit.now) }
    requires short { All IsShort edit.now.before.now }
    requires short_after { All IsShort (names_with edit.now) }
    ensures { IfOk result (λ said.
        Resaid edit.now.sheets.now edit.now.before.now (names_with edit.now) cell held.now said) }
{
    let Some(spelled) = &held.spelled else {
        return Ok(None);
    };
    if !uses(spelled, Some(edit.name)) {
        return Ok(None);
    }
    if is_meant_alike(alloc, edit, cell.sheet)? {
        return Ok(None);
    }
    let scope = Scope {
        home: cell.sheet,
        sheets: edit.sheets,
        names: edit.before,
        change: Some(edit.change),
    };
    let said = said_of(with_names(alloc, &scope, spelled)?);
    Ok(other_said(said, &held.said))
}

// What is said now, if the text isn't malformed now as it was before.
fn other_said(said: Said, was: &Said) -> Option<Said>
    ensures { MatchOption result ((is_malformed said ≡ true) × (is_malformed was.now ≡ true))
        (λ other. (other ≡ said) × ((is_malformed said && is_malformed was.now) ≡ false)) }
{
    if !said.is_malformed() {
        return Some(said);
    }
    if !was.is_malformed() {
        return Some(said);
    }
    None
}

// Whether the name stands for one thing before and after the edit, in formulas of a sheet.
fn is_meant_alike(alloc: Global, edit: &Edit, home: SheetId) -> Result<bool, Memory>
    requires listed { home.0 < length edit.now.sheets.now }
    requires short { All IsShort edit.now.before.now }
    requires short_after { All IsShort (names_with edit.now) }
    ensures { IfOk result (λ alike. MatchBool alike
        (meant edit.now.sheets.now edit.now.before.now home.0 edit.now.name.now
        ≡ meant edit.now.sheets.now (names_with edit.now) home.0 edit.now.name.now)
        (meant edit.now.sheets.now edit.now.before.now home.0 edit.now.name.now
        ≢ meant edit.now.sheets.now (names_with edit.now) home.0 edit.now.name.now)) }
{
    let sheets = edit.sheets;
    let scope = Scope {
        home,
        sheets,
        names: edit.before,
        change: None,
    };
    let before = stands_for(alloc, &scope, edit.name)?;
    let scope = Scope {
        home,
        sheets,
        names: edit.before,
        change: Some(edit.change),
    };
    let after = stands_for(alloc, &scope, edit.name)?;
    Ok(are_alike(before, after))
}

// Whether the same is meant, or nothing both times.
fn are_alike(one: Option<Meant>, other: Option<Meant>) -> bool
    ensures { MatchBool result (option_map meant_of one
        ≡ option_map meant_of other) (option_map meant_of one ≢ option_map meant_of other) }
{
    match (one, other) {
        (None, None) => true,
        (Some(one), Some(other)) => is_alike(one, other),
        _ => false,
    }
}

// Whether the same is meant.
fn is_alike(one: Meant, other: Meant) -> bool
    ensures { MatchBool result (meant_of one ≡ meant_of other) (meant_of one ≢ meant_of other) }
{
    match one {
        Meant::Amount(value) => is_amount(other, value),
        Meant::Cells(area) => is_cells(other, area),
    }
}

// Whether the number is meant.
fn is_amount(meant: Meant, value: Frac) -> bool
    ensures { MatchBool result (Amount value ≡ meant_of meant) (Amount value ≢ meant_of meant) }
{
    match meant {
        Meant::Amount(other) => is_one_amount(value, other),
        Meant::Cells(_) => false,
    }
}

// Whether the area is meant.
fn is_cells(meant: Meant, area: Area) -> bool
    ensures { MatchBool result (Cells area ≡ meant_of meant) (Cells area ≢ meant_of meant) }
{
    match meant {
        Meant::Amount(_) => false,
        Meant::Cells(other) => is_one_area(area, other),
    }
}

// Whether two numbers are one.
fn is_one_amount(one: Frac, other: Frac) -> bool
    ensures { MatchBool result (one ≡ other) (one ≢ other) }
{
    match one.compare(other) {
        Ordering::Less => false,
        Ordering::Equal => true,
        Ordering::Greater => false,
    }
}

// Whether two areas are one.
fn is_one_area(one: Area, other: Area) -> bool
    ensures { MatchBool result (one ≡ other) (one ≢ other) }
{
    if one.sheet().0 != other.sheet().0 {
        return false;
    }
    if one.top() != other.top() || one.left() != other.left() {
        return false;
    }
    if one.bottom() != other.bottom() || one.right() != other.right() {
        return false;
    }
    true
}
