// Sets of cells.
ghost use Rattle.std.specs.Prelude.{◌≡◌, IfOk, OnErr, OnOk};
ghost use Rattle.std.specs.FinSet as set;
ghost use Rattle.std.specs.List.Sorted.{IsStrictlySortedBy};
ghost use Rattle.cell_refs.specs.Cells.{cell_cmp};

use cell_refs::Cell;
use sheet_model::Memory;
use std::alloc::Global;
use std::collections::BTreeSet;
use std::marker::Model;

/// A set of cells.
#[derive(Drop)]
pub struct CellSet {
    cells: BTreeSet<Cell>,
}

impl Model for CellSet {
    ghost use Rattle.std.specs.FinSet as set;
    ghost use Rattle.cell_refs.specs.Cells.{cell_cmp, coded_cell};

    ghost Value = { set.FinSet cell_cmp };

    ghost coded = { set.code coded_cell };

    ghost view = { λ s. set.from_list s.cells.keys };
}

impl CellSet {
    /// A set without cells.
    pub fn new(alloc: Global) -> CellSet
        ensures { result ≡ set.empty }
    {
        CellSet {
            cells: BTreeSet::new(alloc),
        }
    }

    /// Adds a cell, where the set hasn't got it.
    pub fn add(&mut self, cell: Cell) -> Result<(), Memory>
        ensures ok { OnOk result (self.new ≡ set.insert self.old cell) }
        ensures err { OnErr result (self.new ≡ self.old) }
    {
        let Ok(_) = self.cells.insert(cell) else {
            return Err(Memory);
        };
        Ok(())
    }

    /// Whether the set has a cell.
    pub fn has(&self, cell: Cell) -> bool
        ensures { result ≡ set.contains self.now cell }
    {
        self.cells.contains(&cell)
    }

    /// The cells of the set, each once, by sheet, row and column.
    pub fn cells(&self, alloc: Global) -> Result<Vec<Cell>, Memory>
        ensures all { IfOk result (λ cells. set.from_list cells.items ≡ self.now) }
        ensures sorted { IfOk result (λ cells. IsStrictlySortedBy cell_cmp cells.items) }
    {
        let cells = keys_of(&self.cells, alloc)?;
        Ok(cells)
    }
}

// The cells in a set of cells.
fn keys_of(cells: &BTreeSet<Cell>, alloc: Global) -> Result<Vec<Cell>, Memory>
    ensures keys { IfOk result (λ keys. keys.items ≡ cells.now.keys) }
    ensures sorted { IfOk result (λ keys. IsStrictlySortedBy cell_cmp keys.items) }
{
    Ok(cells.iter().copied().collect(alloc)?)
}
