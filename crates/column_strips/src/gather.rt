// Cells of one column that are followed together.
ghost use Rattle.std.specs.Prelude.{◌≡◌, ◌+◌, ◌<◌, ◌≤◌, ◌⊎◌, Some, length, slice_get, true, vec_capacity, ℕ};
ghost use Rattle.cell_refs.specs.declared.cell.Cell.{Cell};
ghost use Rattle.cell_refs.specs.declared.limits.TheConstants.{ROWS, TEXTS};
ghost use Rattle.column_strips.specs.Affected.{has_cell};
ghost use Rattle.column_strips.specs.Marks.{HasSpace};
ghost use Rattle.column_strips.specs.Rows.{AreAhead, IsSought, in_column};

use crate::rows::add_row;
use cell_refs::{Cell, ROWS};

/// Adds the rows of those cells from a place of a list on up to another that stand in the column of a cell, and flags them.
pub(crate) fn gather(
    cells: &[Cell],
    first: usize,
    end: usize,
    to: Cell,
    rows: &mut Vec<u16>,
    done: &mut Vec<bool>,
)
    requires ahead { AreAhead rows.old.items }
    requires space { HasSpace rows.old done.old }
    requires end { (end ≤ length cells.now) × (end ≤ TEXTS + 1) }
    ensures ahead { AreAhead rows.new.items }
    ensures space { HasSpace rows.new done.new }
    ensures kept { (r : ℕ) → IsSought rows.old.items r → IsSought rows.new.items r }
    ensures sound { (r : ℕ) → IsSought rows.new.items r
        → IsSought rows.old.items r ⊎ (has_cell cells.now (in_column to r) ≡ true) }
    ensures few { (n : ℕ) → length done.old.items ≤ n → end ≤ n → length done.new.items ≤ n }
    ensures flagged { (p : ℕ) (d : Cell) → slice_get done.new.items p ≡ Some true
        → slice_get cells.now p ≡ Some d
        → (slice_get done.old.items p ≡ Some true)
        ⊎ ((d ≡ in_column to d.row) × IsSought rows.new.items d.row) }
{
    for place in first..end {
        if add_beside(rows, cells[place], to) {
            flag(done, place);
        }
    }
}

/// Adds the row of a cell, where it stands in the column of another.
pub(crate) fn add_beside(rows: &mut Vec<u16>, cell: Cell, to: Cell) -> bool
    requires ahead { AreAhead rows.old.items }
    requires room { ROWS ≤ vec_capacity rows.old }
    ensures ahead { AreAhead rows.new.items }
    ensures capacity { vec_capacity rows.old ≤ vec_capacity rows.new }
    ensures kept { (r : ℕ) → IsSought rows.old.items r → IsSought rows.new.items r }
    ensures others { (r : ℕ) → IsSought rows.new.items r
        → (cell ≡ in_column to r) ⊎ IsSought rows.old.items r }
    ensures added { result ≡ true → (cell ≡ in_column to cell.row) × IsSought rows.new.items cell.row }
{
    if cell.sheet.0 != to.sheet.0 {
        return false;
    }
    if cell.col != to.col {
        return false;
    }
    if cell.row >= ROWS {
        return false;
    }
    add_row(rows, cell.row);
    true
}

// Flags a place.
fn flag(done: &mut Vec<bool>, place: usize)
    requires { place < vec_capacity done.old }
    ensures capacity { vec_capacity done.old ≤ vec_capacity done.new }
    ensures few { (n : ℕ) → length done.old.items ≤ n → place < n → length done.new.items ≤ n }
    ensures flagged { (p : ℕ) → slice_get done.new.items p ≡ Some true
        → (p ≡ place) ⊎ (slice_get done.old.items p ≡ Some true) }
{
    'place: while done.len() <= place {
        done.push_reserved(false);
    }
    done[place] = true;
}

/// Whether a place has a flag.
pub(crate) fn has_flag(done: &[bool], place: usize) -> bool
    ensures { result ≡ true → slice_get done.now place ≡ Some true }
{
    if place >= done.len() {
        return false;
    }
    done[place]
}
