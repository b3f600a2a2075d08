// Paths by the cells whose bounds their steps set.
ghost use Rattle.std.specs.Prelude.{◌≡◌, IfOk, slice_index_or};
ghost use Rattle.sheet_solving.specs.Solving.{by_cells, no_cell};

use cell_refs::{Cell, SheetId};
use commands::PathStep;
use memory::Memory;
use std::alloc::Global;

// The cell to be decided of this number; where there is none, the first one of the first sheet.
fn cell_of(cells: &[Cell], decision: u16) -> Cell
    ensures { result ≡ slice_index_or cells.now decision no_cell }
{
    match cells.get(decision as usize) {
        Some(cell) => *cell,
        None => Cell {
            sheet: SheetId(0),
            row: 0,
            col: 0,
        },
    }
}

/// The steps of a path, each with its cell.
pub fn by_cells(
    alloc: Global,
    cells: &[Cell],
    path: &[(u16, bool, i128)],
) -> Result<Vec<PathStep>, Memory>
    ensures { IfOk result (λ steps. steps.items ≡ by_cells cells.now path.now) }
{
    let mut made = Vec::new(alloc);
    for (decision, upper, bound) in path {
        made.push(PathStep {
            cell: cell_of(cells, *decision),
            upper: *upper,
            bound: *bound,
        })?;
    }
    Ok(made)
}
