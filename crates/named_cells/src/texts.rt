// The references of a text.
ghost use Rattle.std.specs.Prelude.{◌≡◌, ◌≤◌, ◌<◌, ◌==◌, ◌&&◌, if◌then◌else◌, IfOk, false, length, map, not, string_bytes};
ghost use Rattle.cell_refs.specs.declared.limits.TheConstants.{TEXT_BYTES};
ghost use Rattle.solver_names.specs.Texts.{cells_in, is_mark, parts_from};

use crate::cells::Cells;
use cell_refs::SheetId;
use formula_parser::parse_reference;
use memory::Memory;
use std::alloc::Global;
use workbook::{Workbook, behind_equals};

// Whether references are parted there.
fn is_mark(c: char) -> bool
    ensures { result ≡ is_mark c }
{
    c == ',' || c == ';' || c == '~'
}

// Whether a part ends there.
fn is_cut(is_quoted: bool, c: char) -> bool
    ensures { result ≡ (not is_quoted && is_mark c) }
{
    !is_quoted && is_mark(c)
}

// Whether what stands behind the character is in quotes.
fn is_quoted_behind(is_quoted: bool, c: char) -> bool
    ensures { result ≡ (if c == 39 then not is_quoted else is_quoted) }
{
    if c == '\'' { !is_quoted } else { is_quoted }
}

// The parts of a text between marks that stand outside of quotes.
fn parts(alloc: Global, text: &str) -> Result<Vec<String>, Memory>
    ensures { IfOk result (λ v. map string_bytes v.items ≡ parts_from false text.now) }
{
    let mut parts = Vec::new(alloc);
    let mut part = String::new(alloc);
    let mut is_quoted = false;
    for c in text.chars() {
        if is_cut(is_quoted, c) {
            parts.push(part)?;
            part = String::new(alloc);
        } else {
            part.push(c)?;
            is_quoted = is_quoted_behind(is_quoted, c);
        }
    }
    parts.push(part)?;
    Ok(parts)
}

/// The cells of all references of a text, each at its first place.
pub fn cells_in(
    alloc: Global,
    book: &Workbook,
    sheet: SheetId,
    text: &str,
) -> Result<Option<Cells>, Memory>
    requires length { length text.now ≤ TEXT_BYTES }
    requires listed { sheet.0 < length book.now.sheets }
    ensures { IfOk result (λ cells. cells ≡ cells_in book.now sheet.0 text.now) }
{
    let mut cells = Cells::new(alloc);
    let all = parts(alloc, behind_equals(text))?;
    for part in &all {
        match parse_reference(alloc, part.as_str(), sheet, book.sheets())? {
            Some(area) => cells = cells.with_area(area)?,
            None => return Ok(None),
        }
    }
    Ok(Some(cells))
}
