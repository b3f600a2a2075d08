// Places in rows and columns, from 0 and row by row.
ghost use Rattle.std.specs.Prelude.{◌≡◌, ◌<◌, ◌≤◌, ◌+◌, ◌-◌, ◌*◌, ◌++◌, ◌^◌, IfOk, OnOk, flat_map, length, map, option_to_list, slice_get};
ghost use Rattle.sheet_funcs.specs.Arguments.{below};
ghost use Rattle.sheet_funcs.specs.Picks.{from_to};
ghost use Rattle.sheet_funcs.specs.Within.{IsPartOf};

use cell_refs::Cell;
use memory::Memory;
use std::alloc::Global;

/// The places of a part of a grid of so many rows and columns.
pub(crate) fn part_places(
    alloc: Global,
    rows: u32,
    columns: u32,
    top: u32,
    left: u32,
    bottom: u32,
    right: u32,
) -> Result<Vec<usize>, Memory>
    requires { IsPartOf rows columns top left bottom right }
    ensures places { IfOk result (λ places. places.items ≡ flat_map
        (λ row. map (λ column. row * columns + column) (from_to left right)) (from_to top bottom)) }
    ensures count { IfOk result (λ places. length places.items
        ≡ (bottom + 1 - top) * (right + 1 - left)) }
{
    prove!(bottom < rows);
    let mut places = Vec::new(alloc);
    for row in top..bottom + 1 {
        push_row(columns, row, left, right, &mut places)?;
    }
    Ok(places)
}

// Puts behind other places those in a row, from one column to another.
fn push_row(
    columns: u32,
    row: u32,
    left: u32,
    right: u32,
    to: &mut Vec<usize>,
) -> Result<(), Memory>
    requires order { left ≤ right }
    requires right { right < columns }
    ensures { OnOk result (to.new.items
        ≡ to.old.items ++ map (λ column. row * columns + column) (from_to left right)) }
{
    prove!(right < columns);
    for column in left..right + 1 {
        to.push(row as usize * columns as usize + column as usize)?;
    }
    Ok(())
}

/// The places in the first column of a grid of so many rows and columns.
pub(crate) fn key_places(alloc: Global, rows: u32, columns: u32) -> Result<Vec<usize>, Memory>
    ensures places { IfOk result (λ places. places.items
        ≡ map (λ row. row * columns) (below rows)) }
    ensures count { IfOk result (λ places. length places.items ≡ rows) }
{
    let mut places = Vec::new(alloc);
    for row in 0..rows {
        places.push(row as usize * columns as usize)?;
    }
    Ok(places)
}

/// Puts behind other cells those in some places of a list of cells.
pub(crate) fn push_cells_at(
    cells: &[Cell],
    places: &[usize],
    to: &mut Vec<Cell>,
) -> Result<(), Memory>
    ensures { OnOk result (to.new.items ≡ to.old.items
        ++ flat_map (λ place. option_to_list (slice_get cells.now place)) places.now) }
{
    for place in places {
        push_cell_at(cells, *place, to)?;
    }
    Ok(())
}

// Puts behind other cells the one in a place, if there is one.
fn push_cell_at(cells: &[Cell], place: usize, to: &mut Vec<Cell>) -> Result<(), Memory>
    ensures { OnOk result (to.new.items
        ≡ to.old.items ++ option_to_list (slice_get cells.now place)) }
{
    match cell_in(cells, place) {
        Some(cell) => Ok(to.push(cell)?),
        None => Ok(()),
    }
}

// The cell in a place, if there is one.
fn cell_in(cells: &[Cell], place: usize) -> Option<Cell>
    ensures { result ≡ slice_get cells.now place }
{
    match cells.get(place) {
        Some(cell) => Some(*cell),
        None => None,
    }
}
