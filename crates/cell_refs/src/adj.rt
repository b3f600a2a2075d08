// The cells to be decided.
ghost use Rattle.std.specs.Prelude.{◌≡◌, ◌≤◌, ◌<◌, ◌++◌, [], ◌∷◌, IfOk, None, OnErr, OnOk, Some, length, position, slice_get};
ghost use Rattle.std.specs.List.{IsDistinct};
ghost use Rattle.cell_refs.specs.Cells.{is_same_cell};
ghost use Rattle.cell_refs.specs.declared.adj.TheConstants.{DECISIONS};

use crate::Cell;
use indexmap::IndexSet;
use memory::Memory;
use std::alloc::Global;
use std::marker::Model;

/// How many cells to be decided a list of them holds at most; the names of a sheet may state fewer.
pub const DECISIONS: usize = 512;

/// The cells to be decided, in their order, each once.
#[derive(Drop)]
pub struct Adj {
    cells: IndexSet<Cell>,
}

impl Model for Adj {
    ghost use Rattle.std.specs.Prelude.{List, length, ◌≤◌};
    ghost use Rattle.std.specs.Coded.{coded_list};
    ghost use Rattle.cell_refs.specs.declared.cell.Cell.{Cell};
    ghost use Rattle.cell_refs.specs.Cells.{coded_cell};
    ghost use Rattle.cell_refs.specs.declared.adj.TheConstants.{DECISIONS};

    ghost Value = { List Cell };

    ghost coded = { coded_list coded_cell };

    ghost view = { λ a. a.cells.keys };

    ghost invariant = { λ a. length a.cells.keys ≤ DECISIONS };
}

impl Adj {
    /// No cells.
    pub fn new(alloc: Global) -> Adj
        ensures { result ≡ [] }
    {
        Adj {
            cells: IndexSet::new(alloc),
        }
    }

    /// Puts a cell behind the others. On want of memory nothing has changed.
    pub fn add(&mut self, cell: Cell) -> Result<(), Memory>
        requires new { position (is_same_cell cell) self.old ≡ None }
        requires room { length self.old < DECISIONS }
        ensures ok { OnOk result (self.new ≡ self.old ++ cell ∷ []) }
        ensures err { OnErr result (self.new ≡ self.old) }
    {
        self.cells.insert(cell)?;
        Ok(())
    }

    /// These cells, in the set's order.
    pub fn of_set(cells: IndexSet<Cell>) -> Adj
        requires { length cells.keys ≤ DECISIONS }
        ensures { result ≡ cells.keys }
    {
        Adj { cells }
    }

    /// The cells in their order.
    pub fn cells(&self) -> &[Cell]
        ensures { result.now ≡ self.now }
    {
        self.cells.as_slice()
    }

    /// How many there are.
    pub fn len(&self) -> usize
        ensures count { result ≡ length self.now }
        ensures few { result ≤ DECISIONS }
    {
        self.cells.len()
    }

    /// The cell at a place, from 0.
    pub fn at(&self, place: usize) -> Cell
        requires { place < length self.now }
        ensures { slice_get self.now place ≡ Some result }
    {
        self.cells.as_slice()[place]
    }

    /// No cell is there twice.
    pub fn cells_are_distinct(&self)
        ensures { IsDistinct is_same_cell self.now }
    {
        let _count = self.cells.len();
    }

    /// A copy.
    pub fn copy(&self) -> Result<Adj, Memory>
        ensures { IfOk result (λ copy. copy ≡ self.now) }
    {
        let cells = self.cells.clone()?;
        Ok(Adj { cells })
    }

    /// The number of a cell, from 0; `None` where it isn't to be decided.
    pub fn find(&self, cell: Cell) -> Option<u16>
        ensures { result ≡ position (is_same_cell cell) self.now }
    {
        match self.cells.get_index_of(&cell) {
            Some(place) => Some(place as u16),
            None => None,
        }
    }
}
