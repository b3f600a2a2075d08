// Cells that areas name, each once.
ghost use Rattle.std.specs.Prelude.{◌≡◌, ◌≤◌, ◌<◌, ◌+◌, ◌-◌, ◌*◌, [], OnOk, IfOk, flat_map, fold, length};
ghost use Rattle.cell_refs.specs.declared.adj.TheConstants.{DECISIONS};
ghost use Rattle.cell_refs.specs.Areas.{area_width, bottom, cells_of};
ghost use Rattle.solver_names.specs.Constraints.{is_among};
ghost use Rattle.solver_names.specs.Counts.{numbered_sheets};
ghost use Rattle.solver_names.specs.Faults as found;
ghost use Rattle.solver_names.specs.Texts.{with_cell};

use crate::columns::{cells_in, is_covered, least_free_row, place_among};
use cell_refs::{Area, Cell};
use indexmap::IndexSet;
use memory::Memory;
use std::alloc::Global;
use std::marker::Model;
use workbook::Adj;

/// The cells of areas in their order, each once. They aren't listed: the areas are kept as they are named, and again in the order of
/// their tops, by which their cells are counted.
#[derive(Drop)]
pub(crate) struct Cells {
    areas: Vec<Area>,
    by_top: Vec<Area>,
}

impl Model for Cells {
    ghost use Rattle.std.specs.Prelude.{List, [], flat_map, fold};
    ghost use Rattle.cell_refs.specs.Areas.{cells_of};
    ghost use Rattle.cell_refs.specs.declared.cell.Cell.{Cell};
    ghost use Rattle.solver_names.specs.Counts.{AreByTop};
    ghost use Rattle.solver_names.specs.Texts.{with_cell};

    ghost Value = { List Cell };

    ghost view = { λ a. fold with_cell [] (flat_map cells_of a.areas.items) };

    ghost invariant = { λ a. AreByTop a.areas.items a.by_top.items };
}

// Puts a cell last, unless it is there.
fn put(cells: &mut IndexSet<Cell>, cell: Cell) -> Result<(), Memory>
    ensures { OnOk result (cells.new.keys ≡ with_cell cells.old.keys cell) }
{
    cells.insert(cell)?;
    Ok(())
}

// Puts the cells of an area last, but for those that are there.
fn put_all(cells: &mut IndexSet<Cell>, area: Area) -> Result<(), Memory>
    ensures { OnOk result (cells.new.keys ≡ fold with_cell cells.old.keys (cells_of area)) }
{
    for place in 0..area.len() {
        put(cells, area.at(place))?;
    }
    Ok(())
}

// The cells of areas, listed.
fn listed(alloc: Global, areas: &[Area]) -> Result<IndexSet<Cell>, Memory>
    ensures { IfOk result (λ cells. cells.keys
        ≡ fold with_cell [] (flat_map cells_of areas.now)) }
{
    let mut cells = IndexSet::new(alloc);
    for area in areas {
        put_all(&mut cells, *area)?;
    }
    Ok(cells)
}

// The number of an area's sheet.
fn sheet_number(area: Area) -> u8
    ensures number { result ≡ area.sheet.0 }
    ensures few { area.sheet.0 < numbered_sheets }
{
    area.sheet().0
}

// The place of the first cell of an area in one of its rows, or behind its last.
fn first_place(area: Area, row: u16) -> u32
    requires from { area.top ≤ row }
    requires to { row ≤ bottom area + 1 }
    ensures { result ≡ (row - area.top) * area_width area }
{
    let rows = row - area.top();
    let columns = area.right() - area.left() + 1;
    rows as u32 * columns as u32
}

impl Cells {
    pub(crate) fn new(alloc: Global) -> Cells
        ensures { result ≡ [] }
    {
        Cells {
            areas: Vec::new(alloc),
            by_top: Vec::new(alloc),
        }
    }

    /// With the cells of an area last, but for those that are there.
    pub(crate) fn with_area(self, area: Area) -> Result<Cells, Memory>
        ensures { IfOk result (λ cells. cells ≡ fold with_cell self (cells_of area)) }
    {
        let mut areas = self.areas;
        let mut by_top = self.by_top;
        // (this call lends the proof that the number of the area's sheet is below 256)
        let _sheet = sheet_number(area);
        let place = place_among(&by_top, area.top());
        areas.push(area)?;
        by_top.insert(place, area)?;
        Ok(Cells { areas, by_top })
    }

    /// How many they are.
    pub(crate) fn len(&self) -> u32
        ensures { result ≡ length self.now }
    {
        cells_in(&self.by_top)
    }

    pub(crate) fn has(&self, cell: Cell) -> bool
        ensures { result ≡ is_among self.now cell }
    {
        is_covered(&self.by_top, cell)
    }

    /// The first cell of an area that is none of them.
    pub(crate) fn other_in(&self, area: Area) -> Option<Cell>
        ensures { result ≡ found.other_cell self.now (cells_of area) }
    {
        let start = first_place(area, least_free_row(&self.by_top, area));
        for place in start..area.len() {
            let cell = area.at(place);
            if !self.has(cell) {
                return Some(cell);
            }
        }
        None
    }

    /// The cells, listed, as those to be decided.
    pub(crate) fn into_adj(self, alloc: Global) -> Result<Adj, Memory>
        requires { length self ≤ DECISIONS }
        ensures { IfOk result (λ adj. adj ≡ self) }
    {
        let cells = listed(alloc, &self.areas)?;
        Ok(Adj::of_set(cells))
    }
}
