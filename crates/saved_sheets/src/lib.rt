//! The bytes under which the sheets and the names of a workbook are saved.
//! `sheet_file` gives the bytes of a sheet's file, and `names_file` the bytes of the file of names. `sheet_rows` gives the records of a
//! sheet. Both contracts say what comes of it when such a file is read back.
//! Below it stands `workbook`, which has the texts and the names. Above it stands `session`, whose command to save asks for these bytes.
//! A file is CSV as the `csv` crate reads it. Which empty fields are written is the program's own rule.
#![tactic(auto)]

ghost use Rattle.std.specs.Prelude.{◌≡◌, ◌<◌, IfOk, OnOk, length};
ghost use Rattle.saved_sheets.specs.Laws.{NamesReadBack, ReadsBack};
ghost use Rattle.saved_sheets.specs.Saving.{name_bytes, saved_rows, sheet_bytes};

mod fields;
mod widths;

use crate::fields::add_row;
use crate::widths::used_widths;
use cell_refs::SheetId;
use memory::Memory;
use sheet_csv::{Rows, write_sheet};
use std::alloc::Global;
use workbook::Workbook;

/// The bytes of the file of a sheet.
pub fn sheet_file(alloc: Global, book: &Workbook, sheet: SheetId) -> Result<Vec<u8>, Memory>
    requires listed { sheet.0 < length book.now.sheets }
    ensures bytes { IfOk result (λ bytes. bytes.items ≡ sheet_bytes book.now sheet.0) }
    ensures reads_back { OnOk result (ReadsBack book.now sheet.0) }
{
    book.texts_are_some();
    let rows = sheet_rows(alloc, book, sheet)?;
    let mut bytes = Vec::new(alloc);
    write_sheet(alloc, &rows, &mut bytes)?;
    Ok(bytes)
}

/// The bytes of the file of names.
pub fn names_file(alloc: Global, book: &Workbook) -> Result<Vec<u8>, Memory>
    ensures bytes { IfOk result (λ bytes. bytes.items ≡ name_bytes book.now) }
    ensures reads_back { OnOk result (NamesReadBack book.now) }
{
    let rows = book.name_rows()?;
    let mut bytes = Vec::new(alloc);
    write_sheet(alloc, &rows, &mut bytes)?;
    Ok(bytes)
}

/// The records of a sheet as they are saved.
pub fn sheet_rows(alloc: Global, book: &Workbook, sheet: SheetId) -> Result<Rows, Memory>
    requires listed { sheet.0 < length book.now.sheets }
    ensures { IfOk result (λ rows. rows ≡ saved_rows book.now.contents sheet.0) }
{
    let widths = used_widths(alloc, book, sheet)?;
    let mut rows = Rows::new(alloc);
    for row in 0..widths.len() as u16 {
        let columns = widths[usize::from(row)];
        add_row(alloc, book, sheet, row, columns, &mut rows)?;
    }
    Ok(rows)
}
