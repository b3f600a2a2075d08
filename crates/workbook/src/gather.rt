// The texts of the sheets' records.
ghost use Rattle.std.specs.Prelude.{◌≡◌, ◌≤◌, ◌<◌, ◌++◌, All, MatchResult, OnOk, length};
ghost use Rattle.cell_refs.specs.declared.limits.TheConstants.{COLUMNS, SHEETS};
ghost use Rattle.sheet_csv.specs.Sheet.{Record};
ghost use Rattle.workbook.specs.Files.{texts_in_record, texts_in_records};
ghost use Rattle.workbook.specs.Gathered.{FitsSheet, IsStop, texts_in_sheets};
ghost use Rattle.workbook.specs.Opening.{formulas_in};

use crate::words::is_formula;
use cell_refs::{Cell, SheetId, TEXTS};
use memory::Memory;
use sheet_csv::{Record, Rows};
use sheet_model::Text;
use std::alloc::Global;

/// Why the texts are not all put together.
pub(crate) enum Stop {
    Full,
    Memory,
}

/// The texts of all sheets, with their cells.
pub(crate) fn texts_in(alloc: Global, sheets: &[Rows]) -> Result<Vec<(Cell, Text)>, Stop>
    requires few { length sheets.now ≤ SHEETS }
    requires fit { All FitsSheet sheets.now }
    ensures { MatchResult result (λ v. (v.items ≡ texts_in_sheets 0 sheets.now)
        × (length v.items ≤ TEXTS))
        (IsStop (texts_in_sheets 0 sheets.now)) }
{
    let mut texts = Vec::new(alloc);
    for (sheet, rows) in sheets.iter().enumerate() {
        texts = with_sheet(alloc, texts, SheetId(sheet as u8), rows)?;
    }
    Ok(texts)
}

// The texts with those of a sheet behind them.
fn with_sheet(
    alloc: Global,
    mut texts: Vec<(Cell, Text)>,
    sheet: SheetId,
    rows: &Rows,
) -> Result<Vec<(Cell, Text)>, Stop>
    requires room { length texts.items ≤ TEXTS }
    requires fit { FitsSheet rows.now }
    ensures { MatchResult result (λ v.
        (v.items ≡ texts.items ++ texts_in_records sheet.0 0 rows.now) × (length v.items ≤ TEXTS))
        (IsStop (texts.items ++ texts_in_records sheet.0 0 rows.now)) }
{
    for row in 0..rows.len() {
        let Ok(()) = add_record(alloc, &mut texts, sheet, row as u16, rows.at(row)) else {
            return Err(Stop::Memory);
        };
        if texts.len() > TEXTS {
            return Err(Stop::Full);
        }
    }
    Ok(texts)
}

// Puts the texts of a record behind the others.
fn add_record(
    alloc: Global,
    texts: &mut Vec<(Cell, Text)>,
    sheet: SheetId,
    row: u16,
    fields: &Record,
) -> Result<(), Memory>
    requires columns { length fields.now ≤ COLUMNS }
    ensures { OnOk result (texts.new.items
        ≡ texts.old.items ++ texts_in_record sheet.0 row 0 fields.now) }
{
    for column in 0..fields.len() {
        let text = fields.text(column);
        if !text.is_empty() {
            let cell = Cell {
                sheet,
                row,
                col: column as u16,
            };
            let text = Text::new(String::from_str(alloc, text)?);
            texts.push((cell, text))?;
        }
    }
    Ok(())
}

/// How many of the texts begin a formula.
pub(crate) fn count_formulas(texts: &[(Cell, Text)]) -> usize
    ensures { result ≡ length (formulas_in texts.now) }
{
    let mut count = 0;
    for (_, text) in texts {
        if is_formula(text.as_str()) {
            count += 1;
        }
    }
    count
}
