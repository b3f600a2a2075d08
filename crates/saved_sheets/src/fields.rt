// The fields of a sheet's rows.
ghost use Rattle.std.specs.Prelude.{◌≡◌, ◌++◌, ◌∷◌, ◌<◌, [], IfOk, OnOk, map};
ghost use Rattle.std.specs.List.{range_with_len};
ghost use Rattle.saved_sheets.specs.Saving.{fields_to, text_at};

use cell_refs::{Cell, SheetId};
use memory::Memory;
use sheet_csv::Rows;
use std::alloc::Global;
use workbook::Workbook;

/// Adds the record of a row that reaches to so many columns: their texts, or one empty field where it reaches nowhere.
pub(crate) fn add_row(
    alloc: Global,
    book: &Workbook,
    sheet: SheetId,
    row: u16,
    columns: u16,
    rows: &mut Rows,
) -> Result<(), Memory>
    ensures { OnOk result (rows.new
        ≡ rows.old ++ fields_to book.now.contents sheet.0 row columns ∷ []) }
{
    if columns == 0 {
        return rows.add(&[""]);
    }
    let texts = texts_to(alloc, book, sheet, row, columns)?;
    rows.add(&texts)
}

// The texts of the first columns of a row.
fn texts_to<'a>(
    alloc: Global,
    book: &'a Workbook,
    sheet: SheetId,
    row: u16,
    columns: u16,
) -> Result<Vec<&'a str>, Memory>
    ensures { IfOk result (λ texts. map (λ t. t.now) texts.items
        ≡ map (text_at book.now.contents sheet.0 row) (range_with_len 0 columns)) }
{
    let mut texts = Vec::new(alloc);
    for col in 0..columns {
        texts.push(book.content(Cell { sheet, row, col }))?;
    }
    Ok(texts)
}
