// The forms of cells, as far as they are known.
ghost use Rattle.std.specs.Prelude.{◌≡◌, IfOk, is_some};
ghost use Rattle.recalculation.specs.Entries.{entry};
ghost use Rattle.workbook.specs.Kinds.{book_of};
ghost use Rattle.cell_refs.specs.declared.place.Place.TheVariants as place;
ghost use Rattle.extract.specs.Knowing.{form_kept, form_said, known_form};
ghost use Rattle.extract.specs.Tables.{form_at};

use crate::table::FormTable;
use cell_refs::Cell;
use form_calls::FormsOfCells;
use form_extraction::CellForm;
use form_values::{Abs, Open};
use memory::Memory;
use sheet_model::{Text, Value};
use std::alloc::Global;
use workbook::{Adj, Kind, Place, Workbook};

/// A workbook, its cells to be decided, and the forms of some formula cells.
#[derive(Drop)]
pub(crate) struct Known<'a> {
    pub(crate) book: &'a Workbook,
    pub(crate) adj: &'a Adj,
    pub(crate) table: &'a FormTable,
}

impl FormsOfCells for Known<'_> {
    ghost forms = { λ k. known_form (book_of k.book.now) k.adj.now k.table.now };

    fn form(&self, alloc: Global, cell: Cell) -> Result<Option<Abs>, Memory>
        ensures { IfOk result (λ form. form
            ≡ known_form (book_of self.now.book.now) self.now.adj.now self.now.table.now cell) }
    {
        match self.adj.find(cell) {
            Some(number) => Ok(Some(Abs::Affine(Open::decision(alloc, number)))),
            None => form_said(alloc, self.book, self.table, cell),
        }
    }
}

impl Known<'_> {
    /// Whether the form of a cell is known.
    pub(crate) fn has_form(&self, cell: Cell) -> bool
        ensures { result ≡ is_some
            (known_form (book_of self.now.book.now) self.now.adj.now self.now.table.now cell) }
    {
        match self.adj.find(cell) {
            Some(_) => true,
            None => is_said(self.book, self.table, cell),
        }
    }
}

// The form of what a cell says, if it is known.
fn form_said(
    alloc: Global,
    book: &Workbook,
    table: &FormTable,
    cell: Cell,
) -> Result<Option<Abs>, Memory>
    ensures { IfOk result (λ form. form
        ≡ form_said (entry (book_of book.now) cell) (form_at table.now (place.Cell cell))) }
{
    match book.kind(cell) {
        Kind::Empty => Ok(Some(Abs::Known(Value::Empty))),
        Kind::Number(number) => Ok(Some(Abs::Known(Value::Number(number)))),
        Kind::Logical(holds) => Ok(Some(Abs::Known(Value::Logical(holds)))),
        Kind::Plain => {
            let text = String::from_str(alloc, book.content(cell))?;
            Ok(Some(Abs::Known(Value::Text(Text::new(text)))))
        }
        Kind::Formula => form_kept(alloc, table, cell),
        Kind::Malformed => Ok(None),
    }
}

// Whether it is known.
fn is_said(book: &Workbook, table: &FormTable, cell: Cell) -> bool
    ensures { result ≡ is_some
        (form_said (entry (book_of book.now) cell) (form_at table.now (place.Cell cell))) }
{
    match book.kind(cell) {
        Kind::Formula => is_kept(table, cell),
        Kind::Malformed => false,
        _ => true,
    }
}

// The form of a cell that a table has.
fn form_kept(alloc: Global, table: &FormTable, cell: Cell) -> Result<Option<Abs>, Memory>
    ensures { IfOk result (λ form. form ≡ form_kept (form_at table.now (place.Cell cell))) }
{
    let Some(kept) = table.get(Place::Cell(cell)) else {
        return Ok(None);
    };
    match kept {
        CellForm::Form(form) => Ok(Some(form.copy(alloc)?)),
        _ => Ok(None),
    }
}

// Whether a table has a form of a cell.
fn is_kept(table: &FormTable, cell: Cell) -> bool
    ensures { result ≡ is_some (form_kept (form_at table.now (place.Cell cell))) }
{
    match table.get(Place::Cell(cell)) {
        Some(CellForm::Form(_)) => true,
        _ => false,
    }
}
