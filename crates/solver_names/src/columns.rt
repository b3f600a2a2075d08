// What a column has of areas that are in the order of their tops.
ghost use Rattle.std.specs.Prelude.{◌≡◌, ◌≤◌, ◌<◌, ◌+◌, ◌==◌, ℕ, false, get_or, length, true};
ghost use Rattle.std.specs.List.{list_any};
ghost use Rattle.cell_refs.specs.Areas as areas_are;
ghost use Rattle.cell_refs.specs.Areas.{bottom, right};
ghost use Rattle.cell_refs.specs.declared.limits.TheConstants.{ROWS};
ghost use Rattle.solver_names.specs.Counts as counts;
ghost use Rattle.solver_names.specs.Counts.{IsRising, cell_of, in_column, on_all_sheets, on_sheet};

use cell_refs::{Area, COLUMNS, Cell, SheetId};

// Whether an area has cells of a column.
fn has_column(area: Area, sheet: SheetId, col: u16) -> bool
    ensures { result ≡ counts.has_column area sheet.0 col }
{
    area.sheet() == sheet && area.left() <= col && col <= area.right()
}

// How many rows of a column the areas have.
fn rows_in(areas: &[Area], sheet: SheetId, col: u16) -> u16
    requires rising { IsRising areas.now }
    ensures rows { result ≡ in_column areas.now sheet.0 col }
    ensures within { result ≤ ROWS }
{
    let mut count = 0;
    let mut end: u16 = 0;
    for area in areas {
        if has_column(*area, sheet, col) {
            let start = end.max(area.top());
            end = end.max(area.bottom() + 1);
            count += end - start;
        }
    }
    count
}

// Whether an area lies on a sheet.
fn has_sheet(areas: &[Area], sheet: SheetId) -> bool
    ensures { result ≡ list_any (λ a. a.sheet.0 == sheet.0) areas.now }
{
    for area in areas {
        if area.sheet() == sheet {
            return true;
        }
    }
    false
}

// How many cells of a sheet the areas have together.
fn cells_on(areas: &[Area], sheet: SheetId) -> u32
    requires rising { IsRising areas.now }
    ensures cells { result ≡ on_sheet areas.now sheet.0 }
    ensures within { result ≤ 4194304 }
{
    let mut count = 0;
    if !has_sheet(areas, sheet) {
        return count;
    }
    for col in 0..COLUMNS {
        count += rows_in(areas, sheet, col) as u32;
    }
    count
}

/// How many cells the areas have together.
pub(crate) fn cells_in(areas: &[Area]) -> u32
    requires rising { IsRising areas.now }
    ensures { result ≡ on_all_sheets areas.now }
{
    let mut count = 0;
    for sheet in 0..256u16 {
        count += cells_on(areas, SheetId(sheet as u8));
    }
    count
}

/// Whether one of the areas has the cell.
pub(crate) fn is_covered(areas: &[Area], cell: Cell) -> bool
    ensures { result ≡ counts.is_covered areas.now cell }
{
    for area in areas {
        if area.has(cell) {
            return true;
        }
    }
    false
}

// The first row from one on at which the areas don't have the column.
fn free_row(areas: &[Area], sheet: SheetId, col: u16, first: u16) -> u16
    requires rising { IsRising areas.now }
    ensures from { first ≤ result }
    ensures had { (row : ℕ) → first ≤ row → row < result
        → counts.is_covered areas.now (cell_of sheet.0 col row) ≡ true }
    ensures lacks { counts.is_covered areas.now (cell_of sheet.0 col result) ≡ false }
{
    let mut row = first;
    for area in areas {
        if area.has(Cell { sheet, row, col }) {
            row = area.bottom() + 1;
        }
    }
    row
}

/// The first row of another area of which the areas don't have every cell, or the one behind its last.
pub(crate) fn least_free_row(areas: &[Area], other: Area) -> u16
    requires rising { IsRising areas.now }
    ensures from { other.top ≤ result }
    ensures to { result ≤ bottom other + 1 }
    ensures had { (row col : ℕ) → other.top ≤ row → row < result → other.left ≤ col → col ≤ right other
        → counts.is_covered areas.now (cell_of other.sheet.0 col row) ≡ true }
    ensures lacks { result ≤ bottom other → (col : ℕ) × (other.left ≤ col) × (col ≤ right other)
        × (counts.is_covered areas.now (cell_of other.sheet.0 col result) ≡ false) }
{
    let mut least = other.bottom() + 1;
    for col in other.left()..other.right() + 1 {
        let free = free_row(areas, other.sheet(), col, other.top());
        least = least.min(free);
    }
    least
}

/// Where an area with this top goes among them.
pub(crate) fn place_among(areas: &[Area], top: u16) -> usize
    requires rising { IsRising areas.now }
    ensures within { result ≤ length areas.now }
    ensures before { (k : ℕ) (d : areas_are.Area) → k < result → (get_or areas.now k d).top ≤ top }
    ensures behind { (k : ℕ) (d : areas_are.Area) → result ≤ k → k < length areas.now
        → top ≤ (get_or areas.now k d).top }
{
    for place in 0..areas.len() {
        if top < areas[place].top() {
            return place;
        }
    }
    areas.len()
}
