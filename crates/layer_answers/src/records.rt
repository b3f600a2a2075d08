// Files of records.

use crate::texts::{bytes_of, show, text_of};
use memory::Memory;
use sheet_csv::{
    CsvLimits, Record, Rows, SheetFault, read_records, read_sheet, read_table, write_sheet,
};
use std::alloc::Global;

const SMALL: CsvLimits = CsvLimits {
    rows: 3,
    columns: 2,
    field: 4,
};

const LIMITS: CsvLimits = CsvLimits {
    rows: 4096,
    columns: 1024,
    field: 8192,
};

// Appends each record's texts with a bar between them, and a semicolon behind each record.
fn show_rows(rows: &Rows, to: &mut String) -> Result<(), Memory> {
    for place in 0..rows.len() {
        show_row(rows.at(place), to)?;
    }
    Ok(())
}

fn show_row(row: &Record, to: &mut String) -> Result<(), Memory> {
    for column in 0..row.len() {
        if column > 0 {
            to.push('|')?;
        }
        to.push_str(row.text(column))?;
    }
    Ok(to.push(';')?)
}

// Appends the records of a file, or its first fault.
fn show_read(read: Result<Rows, SheetFault>, to: &mut String) -> Result<(), Memory> {
    match read {
        Ok(rows) => show_rows(&rows, to),
        Err(fault) => show(&fault, to),
    }
}

// Appends how many records a file has, or its first fault.
fn show_count(read: Result<Rows, SheetFault>, to: &mut String) -> Result<(), Memory> {
    match read {
        Ok(rows) => show(&rows.len(), to),
        Err(fault) => show(&fault, to),
    }
}

// Appends what is written of records, each texts with bars between them and a semicolon behind.
fn show_written(alloc: Global, shown: &str, to: &mut String) -> Result<(), Memory> {
    let mut rows = Rows::new(alloc);
    show(&rows.is_empty(), to)?;
    for record in shown.split(';') {
        let texts: Vec<&str> = record.split('|').collect(alloc)?;
        rows.add(&texts)?;
    }
    let mut written = Vec::new(alloc);
    write_sheet(alloc, &rows, &mut written)?;
    Ok(to.push_str(text_of(&written))?)
}

/// Appends the records of a file's bytes, how many there are within limits of rows and one column, its first fault, or what is written.
pub(crate) fn answer(
    alloc: Global,
    call: &str,
    shown: &str,
    to: &mut String,
) -> Result<(), Memory> {
    let bytes = bytes_of(alloc, shown)?;
    if bytes.len() > 100000 {
        return Ok(to.push_str("too long")?);
    }
    match call {
        "read" => show_read(read_sheet(alloc, &bytes, &LIMITS), to),
        "small" => show_read(read_sheet(alloc, &bytes, &SMALL), to),
        "fault" => show(&read_sheet(alloc, &bytes, &LIMITS).err(), to),
        "count" => show_count(read_records(alloc, &bytes), to),
        "1" => show_count(read_table(alloc, &bytes, 1, 1), to),
        "5000" => show_count(read_table(alloc, &bytes, 5000, 1), to),
        "4999" => show_count(read_table(alloc, &bytes, 4999, 1), to),
        _ => show_written(alloc, text_of(&bytes), to),
    }
}
