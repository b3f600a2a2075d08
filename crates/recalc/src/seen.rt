// The values that are known from rows.
ghost use Rattle.std.specs.Prelude.{◌≡◌, IfOk, IfSome, length, option_map};
ghost use Rattle.cell_refs.specs.Areas.{cells_of};
ghost use Rattle.recalculation.specs.Looks.{elements};
ghost use Rattle.recalc.specs.Rows.{seen_in};
ghost use Rattle.recalc.specs.Values.{known_value};
ghost use Rattle.workbook.specs.Kinds.{book_of};

use crate::gather::known_of;
use crate::rows::Row;
use crate::values::Known;
use cell_refs::{Area, Cell};
use evaluation::Cells;
use sheet_model::{Memory, Value};
use std::alloc::Global;
use std::collections::BTreeMap;
use workbook::Workbook;

/// A workbook, and the rows of some of its formulas.
#[derive(Drop)]
pub(crate) struct Seen<'a> {
    pub(crate) book: &'a Workbook,
    pub(crate) rows: &'a BTreeMap<Cell, Row>,
}

impl<'a> Seen<'a> {
    // What is known of a cell.
    fn known(&self, alloc: Global, cell: Cell) -> Result<Known<'a>, Memory>
        ensures { IfOk result (λ known. known_value known
            ≡ seen_in (book_of self.now.book.now) self.now.rows.now.entries cell) }
    {
        let kind = self.book.kind(cell);
        known_of(alloc, kind, self.book.content(cell), self.rows, cell)
    }
}

impl Cells for Seen<'_> {
    ghost known = { λ s. seen_in (book_of s.book.now) s.rows.now.entries };

    fn value(&self, alloc: Global, cell: Cell) -> Result<Option<Value>, Memory>
        ensures { IfOk result (λ value. value
            ≡ seen_in (book_of self.now.book.now) self.now.rows.now.entries cell) }
    {
        self.known(alloc, cell)?.into_value(alloc)
    }

    fn values(&self, alloc: Global, area: &Area) -> Result<Option<Vec<Value>>, Memory>
        ensures values { IfOk result (λ found. option_map (λ values. values.items) found
            ≡ elements
            (seen_in (book_of self.now.book.now) self.now.rows.now.entries) (cells_of area.now)) }
        ensures count { IfOk result (λ found.
            IfSome found (λ values. length values.items ≡ length (cells_of area.now))) }
    {
        let mut values = Vec::new(alloc);
        for place in 0..area.len() {
            let known = self.known(alloc, area.at(place))?;
            let Some(value) = known.into_value(alloc)? else {
                return Ok(None);
            };
            values.push(value)?;
        }
        Ok(Some(values))
    }
}
