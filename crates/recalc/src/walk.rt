// Walks along the cells at which cells look.
ghost use Rattle.std.specs.Prelude.{◌≡◌, ◌++◌, IfOk, OnOk};
ghost use Rattle.recalc.specs.Walks.{IsAnswer, IsLesser};

use crate::rows::Row;
use cell_refs::Cell;
use sheet_model::Memory;
use std::alloc::Global;
use std::collections::BTreeMap;

/// The least wide cell at which a cell looks, itself or by others, if there is one.
pub(crate) fn least_wide(
    alloc: Global,
    rows: BTreeMap<Cell, Row>,
    from: Cell,
) -> Result<Option<Cell>, Memory>
    ensures { IfOk result (IsAnswer rows.entries from) }
{
    let mut waiting = rows;
    let mut stack = Vec::new(alloc);
    stack.push(from)?;
    let mut least = None;
    while let Some(cell) = stack.pop() {
        let Some(row) = waiting.remove(&cell) else {
            continue;
        };
        least = least_of(least, cell, row.is_wide);
        stack.extend_from_slice(&row.looks)?;
    }
    Ok(least)
}

// The lesser of two cells, where the second one counts only if it is wide.
fn least_of(least: Option<Cell>, cell: Cell, is_wide: bool) -> Option<Cell>
    ensures { IsLesser least cell is_wide result }
{
    match least {
        _ if !is_wide => least,
        Some(least) if least <= cell => Some(least),
        _ => Some(cell),
    }
}
