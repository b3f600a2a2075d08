// Values of cells as they are defined. What is expected follows from the rules by hand.

use crate::books::open_workbook;
use crate::texts::check;
use cell_refs::{Cell, SheetId};
use dep_table::Deps;
use memory::Memory;
use recalc::known_in_rounds;
use sheet_model::Value;
use std::alloc::Global;
use std::test::Fail;
use workbook::Workbook;

// The narrow value that the definition gives to the first cell, if it has one.
fn value_by_definition(alloc: Global, workbook: &Workbook) -> Result<Option<Value>, Memory> {
    let cell = Cell {
        sheet: SheetId(0),
        row: 0,
        col: 0,
    };
    let deps = Deps::open(alloc, workbook)?;
    known_in_rounds(alloc, workbook, &deps, cell)
}

// Appends a value.
fn show_value(value: &Value, to: &mut String) -> Result<(), Memory> {
    match value {
        Value::Number(number) => number.write(to),
        Value::Logical(holds) => Ok(to.push_str(if *holds { "TRUE" } else { "FALSE" })?),
        Value::Error(kind) => Ok(to.push_str(kind.text())?),
        Value::Text(_) | Value::Empty => Ok(to.push_str("another value")?),
    }
}

// Appends a value, or that there is none.
fn show_found(value: &Option<Value>, to: &mut String) -> Result<(), Memory> {
    match value {
        Some(value) => show_value(value, to),
        None => Ok(to.push_str("none")?),
    }
}

// What the first sheet has, and the value of its first cell.
const SHEETS: &[(&str, &str)] = &[
    ("=-2^2\n", "4"),
    ("=2^3^2\n", "64"),
    ("=5%\n", "0.05"),
    ("=1/3+1/6\n", "0.5"),
    ("\"=\"\"a\"\"=\"\"A\"\"\"\n", "TRUE"),
    ("=SUM({1;2|3;4})\n", "10"),
    ("=MMULT({1;2|3;4};{5|6})\n", "17"),
    ("=MATCH(4;{1;3;5};1)\n", "2"),
    ("=MATCH(4;{1;3;5};0)\n", "#N/A"),
    ("=1/0\n", "#DIV/0!"),
    ("=170141183460469231731687303715884105727+1\n", "none"),
    ("=B1,=A1\n", "#CIRCULAR"),
    ("=IF(TRUE;1;A1)\n", "#CIRCULAR"),
    ("=B1,=C1,1\n", "1"),
    ("=B1+C1,=D1*2,5,=C1+1\n", "17"),
];

/// The value that the definition gives to the first cell, as a text.
pub(crate) fn shown_by_definition(alloc: Global, workbook: &Workbook) -> Result<String, Fail> {
    let value = value_by_definition(alloc, workbook)?;
    let mut text = String::new(alloc);
    show_found(&value, &mut text)?;
    Ok(text)
}

// What a sheet shows in its first cell.
fn text_by_definition(alloc: Global, sheet: &str) -> Result<String, Fail> {
    let workbook = open_workbook(alloc, sheet, "", "")?;
    shown_by_definition(alloc, &workbook)
}

#[test]
fn known_in_rounds_is_the_value_by_the_definition(rt: HostRuntime) -> Result<(), Fail> {
    for (sheet, want) in SHEETS {
        check(&text_by_definition(rt.alloc(), sheet)?, want, sheet)?;
    }
    Ok(())
}
