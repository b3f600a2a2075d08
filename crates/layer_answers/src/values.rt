// Numerals and numbers, addresses, names of sheets and of functions.

ghost use Rattle.std.specs.Prelude.{◌≡◌};

use crate::texts::{bytes_of, show, text_of};
use crate::trees::sides;
use cell_refs::{
    Area, Cell, SheetId, SheetNames, print_address, print_cell, read_address, sheet_name,
    without_dollar,
};
use formula_ast::{Func, counts};
use frac128::{Frac, Wide};
use memory::Memory;
use std::alloc::Global;

// A numerator and a denominator with a slash between them.
fn number(shown: &str) -> Option<Frac> {
    let (n, d) = shown.split_once('/')?;
    Frac::new(n.parse::<i128>().ok()?, d.parse::<i128>().ok()?)
}

fn parts(number: Frac) -> (i128, i128) {
    (number.num(), number.den())
}

/// Appends the parts of a numeral's value and how it is printed, or why it has none.
pub(crate) fn show_numeral(alloc: Global, shown: &str, to: &mut String) -> Result<(), Memory> {
    let bytes = bytes_of(alloc, shown)?;
    match Frac::read(text_of(&bytes)) {
        Ok(number) => {
            show(&parts(number), to)?;
            number.write(to)
        }
        Err(fault) => show(&fault, to),
    }
}

// Whether it is negative, positive, 0 and whole.
fn signs(number: Frac) -> (bool, bool, bool, bool) {
    (
        number.is_negative(),
        number.is_positive(),
        number.is_zero(),
        number.is_whole(),
    )
}

fn power(base: Frac, exponent: i128) -> Result<Frac, Wide> {
    if exponent < -1000 || exponent > 1000 || base.is_zero() && exponent < 0 {
        return Err(Wide);
    }
    base.power(exponent as i32)
}

fn result_of(call: &str, first: Frac, second: Frac) -> Result<Frac, Wide> {
    match call {
        "add" => first.add(second),
        "sub" => first.sub(second),
        "mul" => first.mul(second),
        "div" if !second.is_zero() => first.div(second),
        "power" => power(first, second.num()),
        _ => Err(Wide),
    }
}

// Appends what a call answers of two numbers; one takes only the first, and some take none.
fn show_call(call: &str, first: Frac, second: Frac, to: &mut String) -> Result<(), Memory> {
    match call {
        "parts" => show(&parts(first), to),
        "print" => first.write(to),
        "signs" => show(&signs(first), to),
        "opposite" => show(&signs(first.neg()), to),
        "zero" => show(&signs(Frac::zero()), to),
        "one" => show(&signs(Frac::one()), to),
        "least" => show(&parts(Frac::from_whole(i64::MIN)), to),
        "floor" => show(&first.floor(), to),
        "compare" => show(&first.compare(second), to),
        "below" => show(&first.is_below(second), to),
        "equal" => show(&(first == second), to),
        _ => match result_of(call, first, second) {
            Ok(number) => show(&parts(number), to),
            Err(Wide) => show(&Wide, to),
        },
    }
}

/// Appends what a call answers; none where its numbers are none.
pub(crate) fn answer(call: &str, shown: &str, to: &mut String) -> Result<(), Memory> {
    to.push_str("x=")?;
    let (first, second) = shown.split_once(' ').unwrap_or((shown, "0/1"));
    match (number(first), number(second)) {
        (Some(first), Some(second)) => show_call(call, first, second, to),
        _ => Ok(to.push_str("none")?),
    }
}

/// Appends what a name is. The sheets are those that were added since the last `clear`.
pub(crate) fn name_answer(
    alloc: Global,
    call: &str,
    shown: &str,
    sheets: &mut SheetNames,
    to: &mut String,
) -> Result<(), Memory> {
    match call {
        "clear" => {
            *sheets = SheetNames::new(alloc);
            show(&sheets.len(), to)
        }
        "add" => show(&sheets.add(shown), to),
        "find" => show(&sheets.find(shown), to),
        "count" => show(&sheets.len(), to),
        "address" => show(&read_address(shown), to),
        "spelled" => show(&sheet_name(alloc, shown)?, to),
        "dollar" => Ok(to.push_str(without_dollar(shown))?),
        "function" => show(&Func::find(shown), to),
        _ => match Func::find(shown) {
            Some(func) => show(&counts(func), to),
            None => Ok(to.push_str("none")?),
        },
    }
}

// Numbers with blanks between them.
fn places(alloc: Global, shown: &str) -> Result<Vec<u16>, Memory> {
    let mut places = Vec::new(alloc);
    for one in shown.split(' ') {
        if let Ok(place) = one.parse::<u16>() {
            places.push(place)?;
        }
    }
    Ok(places)
}

// A cell of the sheet 3.
fn cell(row: u16, col: u16) -> Cell
    ensures { (result.row ≡ row) × (result.col ≡ col) }
{
    let sheet = SheetId(3);
    Cell { sheet, row, col }
}

// Appends an area's sheet, sides and length, its cells, and whether the row 2 and the column 4 lie in it, on this sheet and on another.
fn show_area(area: Area, to: &mut String) -> Result<(), Memory> {
    show(&(area.sheet(), sides(&area), area.len()), to)?;
    for place in 0..area.len() {
        show(&area.at(place), to)?;
    }
    let (sheet, row, col) = (SheetId(2), 2, 4);
    show(
        &(area.has(cell(row, col)), area.has(Cell { sheet, row, col })),
        to,
    )
}

// Appends the area between two cells, or none beyond a sheet.
fn show_between(first: Cell, second: Cell, to: &mut String) -> Result<(), Memory> {
    if first.row >= 4096 || first.col >= 1024 || second.row >= 4096 || second.col >= 1024 {
        return Ok(to.push_str("none")?);
    }
    show_area(Area::between(first, second), to)
}

/// Appends how a row and a column are printed, or a cell with its sheet before them, or the area between two of the sheet 3.
pub(crate) fn place_answer(
    alloc: Global,
    shown: &str,
    sheets: &SheetNames,
    to: &mut String,
) -> Result<(), Memory> {
    match *places(alloc, shown)?.as_slice() {
        [row, col] => print_address(row, col, to),
        [sheet, row, col] if (sheet as usize) < sheets.len() => {
            let sheet = SheetId(sheet as u8);
            print_cell(&Cell { sheet, row, col }, sheets, to)
        }
        [row, col, other_row, other_col] => {
            show_between(cell(row, col), cell(other_row, other_col), to)
        }
        _ => Ok(to.push_str("none")?),
    }
}
