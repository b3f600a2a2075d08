// Cells in rows and columns.
ghost use Rattle.std.specs.Prelude.{[], ◌∷◌, ◌≡◌, ◌<◌, IfOk, length};
ghost use Rattle.cell_grids.specs.Full.{IsFullGrid};
ghost use Rattle.recalculation.specs.Evaluation.{grid_of_areas};
ghost use Rattle.recalculation.specs.Looks.{cell_in};

use crate::areas::{all_cells, push_cells};
use cell_refs::{Area, Cell};
use memory::Memory;
use std::alloc::Global;
use std::marker::Model;

/// The cells of a reference in rows and columns, row by row: at least one row, at least one column, and a cell in each place.
#[derive(Drop)]
pub struct Reference {
    pub(crate) rows: u32,
    pub(crate) cols: u32,
    pub(crate) cells: Vec<Cell>,
}

impl Model for Reference {
    ghost use Rattle.recalculation.specs.Evaluation.{CellGrid};
    ghost use Rattle.cell_grids.specs.Full.{IsFullGrid};

    ghost Value = { CellGrid };

    ghost view = { λ g. record { rows = g.rows; columns = g.cols; cells = g.cells.items } };

    ghost invariant = { λ g.
        IsFullGrid (record { rows = g.rows; columns = g.cols; cells = g.cells.items }) };
}

impl Reference {
    /// The cells of an area, or those of several, one behind the other in one column; out of memory where there are too many.
    pub fn of_areas(alloc: Global, areas: &[Area]) -> Result<Reference, Memory>
        requires { 0 < length areas.now }
        ensures { IfOk result (λ g. g ≡ grid_of_areas areas.now) }
    {
        if let [area] = areas {
            return Reference::of_area(alloc, area);
        }
        Reference::in_column(all_cells(alloc, areas)?)
    }

    /// How many rows it has.
    pub fn rows(&self) -> u32
        ensures count { result ≡ self.now.rows }
        ensures some { 0 < result }
    {
        self.rows
    }

    /// How many columns it has.
    pub fn cols(&self) -> u32
        ensures count { result ≡ self.now.columns }
        ensures some { 0 < result }
    {
        self.cols
    }

    /// All cells, row by row.
    pub fn cells(&self) -> &[Cell]
        ensures cells { result.now ≡ self.now.cells }
        ensures full { IsFullGrid self.now }
    {
        &self.cells
    }

    /// The cell in a row and a column, each from 0.
    pub fn cell_at(&self, row: u32, column: u32) -> Cell
        requires row { row < self.now.rows }
        requires column { column < self.now.columns }
        ensures { cell_in self.now row column ≡ result ∷ [] }
    {
        self.cells[row as usize * self.cols as usize + column as usize]
    }

    // The cells of an area in its rows and columns.
    fn of_area(alloc: Global, area: &Area) -> Result<Reference, Memory>
        ensures { IfOk result (λ g. g ≡ grid_of_areas (area.now ∷ [])) }
    {
        let mut cells = Vec::new(alloc);
        push_cells(area, &mut cells)?;
        Ok(Reference {
            rows: area.bottom() as u32 - area.top() as u32 + 1,
            cols: area.right() as u32 - area.left() as u32 + 1,
            cells,
        })
    }

    // Some cells in one column.
    fn in_column(cells: Vec<Cell>) -> Result<Reference, Memory>
        requires { 0 < length cells.items }
        ensures { IfOk result (λ g. g
            ≡ record { rows = length cells.items; columns = 1; cells = cells.items }) }
    {
        let Ok(rows) = u32::try_from(cells.len()) else {
            return Err(Memory);
        };
        Ok(Reference {
            rows,
            cols: 1,
            cells,
        })
    }
}
