// The strips of all columns.
ghost use Rattle.std.specs.Prelude.{◌≡◌, ◌≢◌, ◌+◌, ◌<◌, ◌≤◌, ◌&&◌, ◌||◌, OnOk, Some, length, not, slice_get, ℕ};
ghost use Rattle.std.specs.List.{list_any};
ghost use Rattle.std.specs.Ordering.{eq_by_cmp};
ghost use Rattle.cell_refs.specs.Areas.{Area};
ghost use Rattle.cell_refs.specs.Cells.{cell_cmp};
ghost use Rattle.column_strips.specs.declared.strip.Strip.{Strip};
ghost use Rattle.column_strips.specs.Columns.{AllRising, HasRoom, place_in, room_at, strips_at, strips_in};
ghost use Rattle.column_strips.specs.Strips.{has_strip, is_part, strip_cmp};

use crate::column::{add_strip, drop_strip};
use crate::strip::Strip;
use cell_refs::{Area, COLUMNS, Cell, SheetId};
use memory::Memory;
use std::alloc::Global;

/// The place of a column of a sheet.
pub(crate) fn place_of(sheet: SheetId, column: u16) -> usize
    ensures { result ≡ place_in sheet.0 column }
{
    sheet.0 as usize * COLUMNS as usize + column as usize
}

/// Makes room for the strips of a formula with some areas.
pub(crate) fn make_room(
    alloc: Global,
    columns: &mut Vec<Vec<Strip>>,
    areas: &[Area],
) -> Result<(), Memory>
    ensures same { (i : ℕ) → strips_at columns.new.items i ≡ strips_at columns.old.items i }
    ensures room { OnOk result ((k : ℕ) (area : Area) → slice_get areas.now k ≡ Some area
        → HasRoom (length areas.now) area columns.new.items) }
{
    for area in areas {
        make_room_in(alloc, columns, *area, areas.len())?;
    }
    Ok(())
}

// Makes room for some strips in each column of an area.
fn make_room_in(
    alloc: Global,
    columns: &mut Vec<Vec<Strip>>,
    area: Area,
    count: usize,
) -> Result<(), Memory>
    ensures same { (i : ℕ) → strips_at columns.new.items i ≡ strips_at columns.old.items i }
    ensures kept { (i : ℕ) → room_at columns.old.items i ≤ room_at columns.new.items i }
    ensures room { OnOk result (HasRoom count area columns.new.items) }
{
    let first = place_of(area.sheet(), area.left());
    let last = place_of(area.sheet(), area.right());
    add_columns(alloc, columns, last)?;
    for place in first..last + 1 {
        make_room_at(columns, place, count)?;
    }
    Ok(())
}

// Adds columns up to a place.
fn add_columns(alloc: Global, columns: &mut Vec<Vec<Strip>>, last: usize) -> Result<(), Memory>
    ensures same { (i : ℕ) → strips_at columns.new.items i ≡ strips_at columns.old.items i }
    ensures kept { (i : ℕ) → room_at columns.old.items i ≤ room_at columns.new.items i }
    ensures enough { OnOk result (last < length columns.new.items) }
{
    'column: while columns.len() <= last {
        columns.push(Vec::new(alloc))?;
    }
    Ok(())
}

// Makes room in the column at a place.
fn make_room_at(columns: &mut [Vec<Strip>], place: usize, count: usize) -> Result<(), Memory>
    requires { place < length columns.old }
    ensures same { (i : ℕ) → strips_at columns.new i ≡ strips_at columns.old i }
    ensures kept { (i : ℕ) → room_at columns.old i ≤ room_at columns.new i }
    ensures room { OnOk result (count ≤ room_at columns.new place) }
{
    let column = &mut columns[place];
    column.reserve(count)?;
    Ok(())
}

/// Adds the strips of a formula cell, for which there is room.
pub(crate) fn add_areas(columns: &mut [Vec<Strip>], cell: Cell, areas: &[Area])
    requires rising { AllRising columns.old }
    requires room { (k : ℕ) (area : Area) → slice_get areas.now k ≡ Some area
        → HasRoom (length areas.now) area columns.old }
    ensures rising { AllRising columns.new }
    ensures has { (sheet column : ℕ) (s : Strip) → has_strip (strips_in columns.new sheet column) s
        ≡ ((eq_by_cmp cell_cmp s.cell cell
        && list_any (λ area. is_part area sheet column s) areas.now)
        || has_strip (strips_in columns.old sheet column) s) }
{
    for area in areas {
        add_area(columns, cell, *area);
    }
}

// Adds the strips of one area.
fn add_area(columns: &mut [Vec<Strip>], cell: Cell, area: Area)
    requires rising { AllRising columns.old }
    requires room { HasRoom 1 area columns.old }
    ensures rising { AllRising columns.new }
    ensures room { (i : ℕ) → room_at columns.old i ≤ room_at columns.new i + 1 }
    ensures has { (sheet column : ℕ) (s : Strip) → has_strip (strips_in columns.new sheet column) s
        ≡ ((eq_by_cmp cell_cmp s.cell cell && is_part area sheet column s)
        || has_strip (strips_in columns.old sheet column) s) }
{
    let strip = Strip {
        cell,
        top: area.top(),
        bottom: area.bottom(),
    };
    let first = place_of(area.sheet(), area.left());
    let last = place_of(area.sheet(), area.right());
    for place in first..last + 1 {
        add_at(columns, place, strip);
    }
}

// Adds a strip to the column at a place.
fn add_at(columns: &mut [Vec<Strip>], place: usize, strip: Strip)
    requires rising { AllRising columns.old }
    requires room { 1 ≤ room_at columns.old place }
    ensures rising { AllRising columns.new }
    ensures has { (s : Strip) → has_strip (strips_at columns.new place) s
        ≡ (eq_by_cmp strip_cmp s strip || has_strip (strips_at columns.old place) s) }
    ensures room { room_at columns.old place ≤ room_at columns.new place + 1 }
    ensures others { (i : ℕ) → i ≢ place → slice_get columns.new i ≡ slice_get columns.old i }
{
    let column = &mut columns[place];
    add_strip(column, strip);
}

/// Takes the strips of a formula cell away.
pub(crate) fn drop_areas(columns: &mut [Vec<Strip>], cell: Cell, areas: &[Area])
    requires { AllRising columns.old }
    ensures rising { AllRising columns.new }
    ensures room { (i : ℕ) → room_at columns.old i ≤ room_at columns.new i }
    ensures has { (sheet column : ℕ) (s : Strip) → has_strip (strips_in columns.new sheet column) s
        ≡ (not (eq_by_cmp cell_cmp s.cell cell
        && list_any (λ area. is_part area sheet column s) areas.now)
        && has_strip (strips_in columns.old sheet column) s) }
{
    for area in areas {
        drop_area(columns, cell, *area);
    }
}

// Takes the strips of one area away.
fn drop_area(columns: &mut [Vec<Strip>], cell: Cell, area: Area)
    requires { AllRising columns.old }
    ensures rising { AllRising columns.new }
    ensures room { (i : ℕ) → room_at columns.old i ≤ room_at columns.new i }
    ensures has { (sheet column : ℕ) (s : Strip) → has_strip (strips_in columns.new sheet column) s
        ≡ (not (eq_by_cmp cell_cmp s.cell cell && is_part area sheet column s)
        && has_strip (strips_in columns.old sheet column) s) }
{
    let strip = Strip {
        cell,
        top: area.top(),
        bottom: area.bottom(),
    };
    let first = place_of(area.sheet(), area.left());
    let last = place_of(area.sheet(), area.right());
    for place in first..last + 1 {
        drop_at(columns, place, strip);
    }
}

// Takes a strip away from the column at a place, where there is one.
fn drop_at(columns: &mut [Vec<Strip>], place: usize, strip: Strip)
    requires { AllRising columns.old }
    ensures rising { AllRising columns.new }
    ensures has { (s : Strip) → has_strip (strips_at columns.new place) s
        ≡ (not (eq_by_cmp strip_cmp s strip) && has_strip (strips_at columns.old place) s) }
    ensures room { room_at columns.old place ≤ room_at columns.new place }
    ensures others { (i : ℕ) → i ≢ place → slice_get columns.new i ≡ slice_get columns.old i }
{
    if place >= columns.len() {
        return;
    }
    let column = &mut columns[place];
    drop_strip(column, strip);
}
