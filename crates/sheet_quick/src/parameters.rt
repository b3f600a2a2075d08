// The cells that a text names as parameters.
ghost use Rattle.std.specs.Prelude.{◌≡◌, ◌≤◌, ◌<◌, ◌+◌, ◌++◌, IfOk, None, flat_map, length};
ghost use Rattle.cell_refs.specs.Areas.{cells_of};
ghost use Rattle.sheet_quick.specs.Inner.{ParametersOr, StandApart};
ghost use Rattle.sheet_quick.specs.Parameters.{can_be_parameter, cells_named, is_number, number_said, other_cell, values_in};
ghost use Rattle.workbook.specs.Kinds.{book_of};
ghost use Rattle.cell_refs.specs.declared.adj.TheConstants.{DECISIONS};

use crate::stops::NoQuick;
use cell_refs::{Area, Cell, SheetId, TEXT_BYTES};
use frac128::Frac;
use memory::Memory;
use named_cells::{Cells, cells_in};
use std::alloc::Global;
use workbook::{Adj, DECISIONS, Kind, Workbook};

/// The cells of all references of a text that isn't too long, each at its first place.
pub(crate) fn cells_named(
    alloc: Global,
    book: &Workbook,
    sheet: SheetId,
    text: &str,
) -> Result<Option<Cells>, Memory>
    requires listed { sheet.0 < length book.now.sheets }
    ensures { IfOk result (λ cells. cells ≡ cells_named book.now sheet.0 text.now) }
{
    if text.len() > TEXT_BYTES as usize {
        return Ok(None);
    }
    cells_in(alloc, book, sheet, text)
}

// Whether what a text says is a number.
fn is_number(kind: Kind) -> bool
    ensures { result ≡ is_number kind }
{
    match kind {
        Kind::Number(_) => true,
        _ => false,
    }
}

// Whether a cell can be a parameter: it isn't to be decided, and its text is a number.
fn can_be_parameter(book: &Workbook, adj: &Adj, cell: Cell) -> bool
    ensures { result ≡ can_be_parameter (book_of book.now) adj.now cell }
{
    match adj.find(cell) {
        Some(_) => false,
        None => is_number(book.kind(cell)),
    }
}

// The first cell of an area that can't be one.
fn other_in(book: &Workbook, adj: &Adj, area: Area) -> Option<Cell>
    ensures { result ≡ other_cell (book_of book.now) adj.now (cells_of area) }
{
    for place in 0..area.len() {
        let cell = area.at(place);
        if !can_be_parameter(book, adj, cell) {
            return Some(cell);
        }
    }
    None
}

// The first cell of some areas that can't be one.
fn other_cell(book: &Workbook, adj: &Adj, areas: &[Area]) -> Option<Cell>
    ensures { result ≡ other_cell (book_of book.now) adj.now (flat_map cells_of areas.now) }
{
    for area in areas {
        if let Some(cell) = other_in(book, adj, *area) {
            return Some(cell);
        }
    }
    None
}

/// Cells as parameters beside those to be decided, or why they can't be.
pub(crate) fn parameters(
    alloc: Global,
    book: &Workbook,
    adj: &Adj,
    cells: Cells,
) -> Result<Adj, NoQuick>
    ensures { ParametersOr (book_of book.now) adj.now cells result }
{
    if let Some(cell) = other_cell(book, adj, cells.areas()) {
        return Err(NoQuick::NotParameter(cell));
    }
    let listed = cells.list(alloc)?;
    let count = adj.len() as u64 + listed.len() as u64;
    if count > DECISIONS as u64 {
        return Err(NoQuick::TooManyParameters(count));
    }
    Ok(Adj::of_set(listed))
}

/// Some cells and others behind them.
pub(crate) fn both(adj: &Adj, others: &Adj) -> Result<Adj, Memory>
    requires few { length adj.now + length others.now ≤ DECISIONS }
    requires apart { StandApart adj.now others.now }
    ensures { IfOk result (λ all. all ≡ adj.now ++ others.now) }
{
    let mut all = adj.copy()?;
    let listed = others.cells();
    for cell in listed {
        all.add(*cell)?;
    }
    Ok(all)
}

// The number that a text says; 0 for any other one.
fn number_said(kind: Kind) -> Frac
    ensures { result ≡ number_said kind }
{
    match kind {
        Kind::Number(number) => number,
        _ => Frac::zero(),
    }
}

/// The numbers that cells say.
pub(crate) fn values_in(alloc: Global, book: &Workbook, cells: &Adj) -> Result<Vec<Frac>, Memory>
    ensures { IfOk result (λ values. values.items ≡ values_in (book_of book.now) cells.now) }
{
    let mut values = Vec::new(alloc);
    let listed = cells.cells();
    for cell in listed {
        values.push(number_said(book.kind(*cell)))?;
    }
    Ok(values)
}
