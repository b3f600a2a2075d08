// The forms of the texts of names.
ghost use Rattle.std.specs.Prelude.{◌≡◌, ◌≤◌, ◌<◌, ◌==◌, ◌&&◌, if◌then◌else◌, IfOk, IfSome, false, length, map, not, string_bytes};
ghost use Rattle.cell_refs.specs.declared.limits.TheConstants.{TEXT_BYTES};
ghost use Rattle.solver_names.specs.Texts.{cell_in, cells_in, is_mark, number_in, only_cell, parts_from, reference_in, whole_between, whole_in};

use crate::cells::Cells;
use cell_refs::{Area, Cell, SheetId};
use formula_parser::parse_reference;
use frac128::Frac;
use memory::Memory;
use std::alloc::Global;
use workbook::{Workbook, behind_equals};

/// A number, behind an equals sign or not.
pub(crate) fn number_in(text: &str) -> Option<Frac>
    ensures { result ≡ number_in text.now }
{
    match Frac::read(behind_equals(text)) {
        Ok(number) => Some(number),
        Err(_) => None,
    }
}

// The number, where it is whole and lies between two others.
fn whole_between(least: u16, greatest: u16, number: Frac) -> Option<u16>
    ensures number { result ≡ whole_between least greatest number }
    ensures within { IfSome result (λ n. n ≤ greatest) }
{
    let size = number.num();
    if number.is_whole() && i128::from(least) <= size && size <= i128::from(greatest) {
        return Some(size as u16);
    }
    None
}

/// A whole number from one on to another.
pub(crate) fn whole_in(least: u16, greatest: u16, text: &str) -> Option<u16>
    ensures number { result ≡ whole_in least greatest text.now }
    ensures within { IfSome result (λ n. n ≤ greatest) }
{
    match number_in(text) {
        Some(number) => whole_between(least, greatest, number),
        None => None,
    }
}

/// One reference and nothing else.
pub(crate) fn reference_in(
    alloc: Global,
    book: &Workbook,
    sheet: SheetId,
    text: &str,
) -> Result<Option<Area>, Memory>
    requires length { length text.now ≤ TEXT_BYTES }
    requires listed { sheet.0 < length book.now.sheets }
    ensures { IfOk result (λ area. area ≡ reference_in book.now sheet.0 text.now) }
{
    parse_reference(alloc, behind_equals(text), sheet, book.sheets())
}

/// One reference of one cell.
pub(crate) fn cell_in(
    alloc: Global,
    book: &Workbook,
    sheet: SheetId,
    text: &str,
) -> Result<Option<Cell>, Memory>
    requires length { length text.now ≤ TEXT_BYTES }
    requires listed { sheet.0 < length book.now.sheets }
    ensures { IfOk result (λ cell. cell ≡ cell_in book.now sheet.0 text.now) }
{
    match reference_in(alloc, book, sheet, text)? {
        Some(area) => Ok(only_cell(area)),
        None => Ok(None),
    }
}

// The cell of an area that has one.
fn only_cell(area: Area) -> Option<Cell>
    ensures { result ≡ only_cell area }
{
    if area.len() == 1 {
        return Some(area.at(0));
    }
    None
}

// Whether references are parted there.
fn is_mark(c: char) -> bool
    ensures { result ≡ is_mark c }
{
    c == ',' || c == ';' || c == '~'
}

// Whether a part ends there.
fn is_cut(is_quoted: bool, c: char) -> bool
    ensures { result ≡ (not is_quoted && is_mark c) }
{
    !is_quoted && is_mark(c)
}

// Whether what stands behind the character is in quotes.
fn is_quoted_behind(is_quoted: bool, c: char) -> bool
    ensures { result ≡ (if c == 39 then not is_quoted else is_quoted) }
{
    if c == '\'' { !is_quoted } else { is_quoted }
}

// The parts of a text between marks that stand outside of quotes.
fn parts(alloc: Global, text: &str) -> Result<Vec<String>, Memory>
    ensures { IfOk result (λ v. map string_bytes v.items ≡ parts_from false text.now) }
{
    let mut parts = Vec::new(alloc);
    let mut part = String::new(alloc);
    let mut is_quoted = false;
    for c in text.chars() {
        if is_cut(is_quoted, c) {
            parts.push(part)?;
            part = String::new(alloc);
        } else {
            part.push(c)?;
            is_quoted = is_quoted_behind(is_quoted, c);
        }
    }
    parts.push(part)?;
    Ok(parts)
}

/// The cells of all references of a text, each at its first place.
pub(crate) fn cells_in(
    alloc: Global,
    book: &Workbook,
    sheet: SheetId,
    text: &str,
) -> Result<Option<Cells>, Memory>
    requires length { length text.now ≤ TEXT_BYTES }
    requires listed { sheet.0 < length book.now.sheets }
    ensures { IfOk result (λ cells. cells ≡ cells_in book.now sheet.0 text.now) }
{
    let mut cells = Cells::new(alloc);
    let all = parts(alloc, behind_equals(text))?;
    for part in &all {
        match parse_reference(alloc, part.as_str(), sheet, book.sheets())? {
            Some(area) => cells = cells.with_area(area)?,
            None => return Ok(None),
        }
    }
    Ok(Some(cells))
}
