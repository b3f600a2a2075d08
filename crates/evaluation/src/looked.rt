// What parts of formulas look at.
ghost use Rattle.std.specs.Prelude.{[], ◌∷◌, ◌≡◌, ◌++◌, IfOk, OnOk};
ghost use Rattle.evaluation.specs.Looked.{all_looked, cells_looked};
ghost use Rattle.recalculation.specs.Evaluation.{grid_of_areas};

use cell_grids::push_cells;
use cell_refs::{Area, Cell};
use sheet_model::Memory;
use std::alloc::Global;
use std::marker::Model;

/// A cell, or the cells of an area.
#[derive(Clone, Copy)]
pub(crate) enum Looked {
    Cell(Cell),
    Area(Area),
}

/// The cells at which a part of a formula looks, in their order. Those of an area are listed only where they are asked for.
#[derive(Drop)]
pub struct Looks {
    list: Vec<Looked>,
}

impl Model for Looks {
    ghost use Rattle.std.specs.Prelude.{List};
    ghost use Rattle.std.specs.Coded.{coded_list};
    ghost use Rattle.cell_refs.specs.declared.cell.Cell.{Cell};
    ghost use Rattle.cell_refs.specs.Cells.{coded_cell};
    ghost use Rattle.evaluation.specs.Looked.{all_looked};

    ghost Value = { List Cell };

    ghost coded = { coded_list coded_cell };

    ghost view = { λ l. all_looked l.list.items };
}

impl Looks {
    /// No cells.
    pub(crate) fn new(alloc: Global) -> Looks
        ensures { result ≡ [] }
    {
        Looks {
            list: Vec::new(alloc),
        }
    }

    /// The cells of a reference to some areas.
    pub(crate) fn of_areas(alloc: Global, areas: &[Area]) -> Result<Looks, Memory>
        ensures { IfOk result (λ looks. looks ≡ (grid_of_areas areas.now).cells) }
    {
        let mut list = Vec::with_capacity(alloc, areas.len())?;
        for area in areas {
            list.push(Looked::Area(*area))?;
        }
        Ok(Looks { list })
    }

    /// The cells one by one.
    pub fn cells(&self, alloc: Global) -> Result<Vec<Cell>, Memory>
        ensures { IfOk result (λ cells. cells.items ≡ self.now) }
    {
        listed(alloc, &self.list)
    }

    /// The same cells.
    pub(crate) fn copy(&self, alloc: Global) -> Result<Looks, Memory>
        ensures { IfOk result (λ copy. copy ≡ self.now) }
    {
        let list = Vec::from_slice(alloc, &self.list)?;
        Ok(Looks { list })
    }

    /// Puts a cell behind the others.
    pub(crate) fn push(&mut self, cell: Cell) -> Result<(), Memory>
        ensures { OnOk result (self.new ≡ self.old ++ cell ∷ []) }
    {
        self.list.push(Looked::Cell(cell))?;
        Ok(())
    }

    /// Puts those of another part behind the others.
    pub(crate) fn extend(&mut self, others: &Looks) -> Result<(), Memory>
        ensures { OnOk result (self.new ≡ self.old ++ others.now) }
    {
        self.list.extend_from_slice(&others.list)?;
        Ok(())
    }
}

// All these cells one by one.
fn listed(alloc: Global, list: &[Looked]) -> Result<Vec<Cell>, Memory>
    ensures { IfOk result (λ cells. cells.items ≡ all_looked list.now) }
{
    let mut cells = Vec::new(alloc);
    for looked in list {
        push_looked(looked, &mut cells)?;
    }
    Ok(cells)
}

// Puts a cell, or the cells of an area, behind others.
fn push_looked(looked: &Looked, to: &mut Vec<Cell>) -> Result<(), Memory>
    ensures { OnOk result (to.new.items ≡ to.old.items ++ cells_looked looked.now) }
{
    match looked {
        Looked::Cell(cell) => to.push(*cell)?,
        Looked::Area(area) => push_cells(area, to)?,
    }
    Ok(())
}
