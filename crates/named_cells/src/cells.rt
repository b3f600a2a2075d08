// Cells that areas name, each once.
ghost use Rattle.std.specs.Prelude.{◌≡◌, [], OnOk, IfOk, flat_map, fold};
ghost use Rattle.cell_refs.specs.Areas.{cells_of};
ghost use Rattle.solver_names.specs.Texts.{with_cell};

use cell_refs::{Area, Cell};
use indexmap::IndexSet;
use memory::Memory;
use std::alloc::Global;
use std::marker::Model;

/// The cells of areas in their order, each once. The areas are kept as they are named, and their cells are listed where they are
/// asked for.
#[derive(Drop)]
pub struct Cells {
    areas: Vec<Area>,
}

impl Model for Cells {
    ghost use Rattle.std.specs.Prelude.{List, [], flat_map, fold};
    ghost use Rattle.cell_refs.specs.Areas.{cells_of};
    ghost use Rattle.cell_refs.specs.declared.cell.Cell.{Cell};
    ghost use Rattle.solver_names.specs.Texts.{with_cell};

    ghost Value = { List Cell };

    ghost view = { λ a. fold with_cell [] (flat_map cells_of a.areas.items) };
}

// Puts a cell last, unless it is there.
fn put(cells: &mut IndexSet<Cell>, cell: Cell) -> Result<(), Memory>
    ensures { OnOk result (cells.new.keys ≡ with_cell cells.old.keys cell) }
{
    cells.insert(cell)?;
    Ok(())
}

// Puts the cells of an area last, but for those that are there.
fn put_all(cells: &mut IndexSet<Cell>, area: Area) -> Result<(), Memory>
    ensures { OnOk result (cells.new.keys ≡ fold with_cell cells.old.keys (cells_of area)) }
{
    for place in 0..area.len() {
        put(cells, area.at(place))?;
    }
    Ok(())
}

// The cells of areas, listed.
fn listed(alloc: Global, areas: &[Area]) -> Result<IndexSet<Cell>, Memory>
    ensures { IfOk result (λ cells. cells.keys
        ≡ fold with_cell [] (flat_map cells_of areas.now)) }
{
    let mut cells = IndexSet::new(alloc);
    for area in areas {
        put_all(&mut cells, *area)?;
    }
    Ok(cells)
}

impl Cells {
    pub(crate) fn new(alloc: Global) -> Cells
        ensures { result ≡ [] }
    {
        Cells {
            areas: Vec::new(alloc),
        }
    }

    /// With the cells of an area last, but for those that are there.
    pub(crate) fn with_area(self, area: Area) -> Result<Cells, Memory>
        ensures { IfOk result (λ cells. cells ≡ fold with_cell self (cells_of area)) }
    {
        let mut areas = self.areas;
        areas.push(area)?;
        Ok(Cells { areas })
    }

    /// The areas, as they are named.
    pub fn areas(&self) -> &[Area]
        ensures { self.now ≡ fold with_cell [] (flat_map cells_of result.now) }
    {
        &self.areas
    }

    /// The cells, listed.
    pub fn list(&self, alloc: Global) -> Result<IndexSet<Cell>, Memory>
        ensures { IfOk result (λ cells. cells.keys ≡ self.now) }
    {
        listed(alloc, &self.areas)
    }
}
