// The texts of the cells: costs, what is sent, what each supplier sends and each place gets, and the costs of all.
ghost use Rattle.std.specs.Prelude.{◌≡◌, ◌≢◌, ◌<◌, ◌≤◌, ◌*◌, ◌∷◌, [], OnOk, decimal, length};
ghost use Rattle.cell_refs.specs.declared.limits.TheConstants.{COLUMNS, ROWS, TEXT_BYTES};
ghost use Rattle.made_up_books.specs.MadeUp.{all_cells, at, costs, demands, sent_cells, supply_cells, total_cell};
ghost use Rattle.made_up_books.specs.Putting.{HasRoomFor, demand_pair, demand_pairs, number_cells, number_row, sent_row, supply_pair, with_cells};

use crate::draws::Drawn;
use crate::texts::{area, number, sum, sum_of_products};
use cell_refs::{Cell, SheetId};
use memory::Memory;
use std::alloc::Global;
use workbook::{EditFault, Workbook};

/// Puts all texts into their cells.
pub(crate) fn put_cells(
    alloc: Global,
    book: &mut Workbook,
    size: u16,
    drawn: &Drawn,
) -> Result<(), Memory>
    requires listed { 0 < length book.old.sheets }
    requires room { HasRoomFor 337 book.old }
    requires some { 1 ≤ size }
    requires few { size ≤ 12 }
    requires costs { drawn.now.costs.items ≡ costs size }
    requires demands { drawn.now.demands.items ≡ demands size }
    ensures { OnOk result (book.new ≡ with_cells book.old (all_cells size)) }
{
    put_costs(alloc, book, size, &drawn.costs)?;
    put_sent(book, size)?;
    put_supplies(alloc, book, size)?;
    put_demands(alloc, book, size, &drawn.demands)?;
    put_total(alloc, book, size)?;
    Ok(())
}

// ---- costs

fn put_costs(alloc: Global, book: &mut Workbook, size: u16, costs: &[u16]) -> Result<(), Memory>
    requires listed { 0 < length book.old.sheets }
    requires room { HasRoomFor 144 book.old }
    requires few { size ≤ 12 }
    requires all { length costs.now ≡ size * size }
    ensures { OnOk result (book.new ≡ with_cells book.old (number_cells size costs.now)) }
{
    for row in 0..size {
        put_cost_row(alloc, book, size, costs, row)?;
    }
    Ok(())
}

// The costs of a supplier.
fn put_cost_row(
    alloc: Global,
    book: &mut Workbook,
    size: u16,
    costs: &[u16],
    row: u16,
) -> Result<(), Memory>
    requires listed { 0 < length book.old.sheets }
    requires room { HasRoomFor 12 book.old }
    requires few { size ≤ 12 }
    requires all { length costs.now ≡ size * size }
    requires row { row < size }
    ensures { OnOk result (book.new ≡ with_cells book.old (number_row size costs.now row)) }
{
    for col in 0..size {
        put_number(alloc, book, row, col, costs[usize::from(row * size + col)])?;
    }
    Ok(())
}

// ---- what is sent

fn put_sent(book: &mut Workbook, size: u16) -> Result<(), Memory>
    requires listed { 0 < length book.old.sheets }
    requires room { HasRoomFor 144 book.old }
    requires few { size ≤ 12 }
    ensures { OnOk result (book.new ≡ with_cells book.old (sent_cells size)) }
{
    for supplier in 0..size {
        put_sent_row(book, size, supplier)?;
    }
    Ok(())
}

// What a supplier sends to each place: nothing yet.
fn put_sent_row(book: &mut Workbook, size: u16, supplier: u16) -> Result<(), Memory>
    requires listed { 0 < length book.old.sheets }
    requires room { HasRoomFor 12 book.old }
    requires few { size ≤ 12 }
    requires supplier { supplier < size }
    ensures { OnOk result (book.new ≡ with_cells book.old (sent_row size supplier)) }
{
    for col in 0..size {
        put(book, size + supplier, col, "0")?;
    }
    Ok(())
}

// ---- supplies and demands

fn put_supplies(alloc: Global, book: &mut Workbook, size: u16) -> Result<(), Memory>
    requires listed { 0 < length book.old.sheets }
    requires room { HasRoomFor 24 book.old }
    requires some { 1 ≤ size }
    requires few { size ≤ 12 }
    ensures { OnOk result (book.new ≡ with_cells book.old (supply_cells size)) }
{
    for supplier in 0..size {
        put_supply(alloc, book, size, size + supplier)?;
    }
    Ok(())
}

// Behind a row of what is sent: how much that is, and what the supplier has, 20.
fn put_supply(alloc: Global, book: &mut Workbook, size: u16, row: u16) -> Result<(), Memory>
    requires listed { 0 < length book.old.sheets }
    requires room { HasRoomFor 2 book.old }
    requires some { 1 ≤ size }
    requires few { size ≤ 12 }
    requires row { row < 24 }
    ensures { OnOk result (book.new ≡ with_cells book.old (supply_pair size row)) }
{
    let sent = area(alloc, row, 0, row, size - 1)?;
    put(book, row, size, &sum(alloc, &sent)?)?;
    put(book, row, size + 1, "20")?;
    Ok(())
}

fn put_demands(alloc: Global, book: &mut Workbook, size: u16, demands: &[u16]) -> Result<(), Memory>
    requires listed { 0 < length book.old.sheets }
    requires room { HasRoomFor 24 book.old }
    requires some { 1 ≤ size }
    requires few { size ≤ 12 }
    requires all { length demands.now ≡ size }
    ensures { OnOk result (book.new ≡ with_cells book.old (demand_pairs size demands.now)) }
{
    for col in 0..size {
        put_demand(alloc, book, size, col, demands[usize::from(col)])?;
    }
    Ok(())
}

// Below a column of what is sent: how much that is, and what the place wants.
fn put_demand(
    alloc: Global,
    book: &mut Workbook,
    size: u16,
    col: u16,
    demand: u16,
) -> Result<(), Memory>
    requires listed { 0 < length book.old.sheets }
    requires room { HasRoomFor 2 book.old }
    requires some { 1 ≤ size }
    requires few { size ≤ 12 }
    requires col { col < size }
    ensures { OnOk result (book.new ≡ with_cells book.old (demand_pair size col demand)) }
{
    let sent = area(alloc, size, col, 2 * size - 1, col)?;
    put(book, 2 * size, col, &sum(alloc, &sent)?)?;
    put_number(alloc, book, 2 * size + 1, col, demand)?;
    Ok(())
}

// ---- the costs of all

fn put_total(alloc: Global, book: &mut Workbook, size: u16) -> Result<(), Memory>
    requires listed { 0 < length book.old.sheets }
    requires room { HasRoomFor 1 book.old }
    requires some { 1 ≤ size }
    requires few { size ≤ 12 }
    ensures { OnOk result (book.new ≡ with_cells book.old (total_cell size ∷ [])) }
{
    let costs = area(alloc, 0, 0, size - 1, size - 1)?;
    let sent = area(alloc, size, 0, 2 * size - 1, size - 1)?;
    put(
        book,
        2 * size + 2,
        0,
        &sum_of_products(alloc, &costs, &sent)?,
    )
}

// ---- one cell

// Puts a number into a cell.
fn put_number(
    alloc: Global,
    book: &mut Workbook,
    row: u16,
    col: u16,
    value: u16,
) -> Result<(), Memory>
    requires listed { 0 < length book.old.sheets }
    requires room { HasRoomFor 1 book.old }
    requires row { row < ROWS }
    requires col { col < COLUMNS }
    ensures { OnOk result (book.new ≡ with_cells book.old (at row col (decimal value) ∷ [])) }
{
    put(book, row, col, &number(alloc, value)?)
}

// Puts a text into a cell of the first sheet.
fn put(book: &mut Workbook, row: u16, col: u16, text: &str) -> Result<(), Memory>
    requires listed { 0 < length book.old.sheets }
    requires room { HasRoomFor 1 book.old }
    requires row { row < ROWS }
    requires col { col < COLUMNS }
    requires some { text.now ≢ [] }
    requires short { length text.now ≤ TEXT_BYTES }
    ensures { OnOk result (book.new ≡ with_cells book.old (at row col text.now ∷ [])) }
{
    let cell = Cell {
        sheet: SheetId(0),
        row,
        col,
    };
    match book.set(cell, text) {
        Ok(()) => Ok(()),
        Err(EditFault::Memory) => Err(Memory),
        Err(_) => unreachable!(),
    }
}
