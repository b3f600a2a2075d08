// Tokens, references and trees of formulas.

use crate::texts::{bytes_of, show, text_of};
use crate::trees::{show_areas, show_tree, sides};
use cell_refs::{Area, SheetId, SheetNames};
use formula_ast::Expr;
use formula_lexer::tokens;
use formula_parser::{ParseFault, parse, parse_reference};
use memory::Memory;
use std::alloc::Global;

// Appends the sheet and the sides of an area.
fn show_area(area: Option<Area>, to: &mut String) -> Result<(), Memory> {
    match area {
        Some(area) => show(&(area.sheet(), sides(&area)), to),
        None => Ok(to.push_str("none")?),
    }
}

// Appends a tree as a copy has it, or the areas to which it refers, or the fault.
fn show_parsed(
    alloc: Global,
    parsed: Result<Expr, ParseFault>,
    call: &str,
    sheets: &SheetNames,
    to: &mut String,
) -> Result<(), Memory> {
    match parsed {
        Ok(tree) if call == "areas" => show_areas(&tree.references(alloc)?, sheets, to),
        Ok(tree) => show_tree(&tree.copy(alloc)?, sheets, to),
        Err(fault) => show(&fault, to),
    }
}

/// Appends what a formula's text is on the first sheet.
pub(crate) fn answer(
    alloc: Global,
    call: &str,
    shown: &str,
    sheets: &SheetNames,
    to: &mut String,
) -> Result<(), Memory> {
    let bytes = bytes_of(alloc, shown)?;
    let text = text_of(&bytes);
    if text.len() > 8193 || sheets.is_empty() {
        return Ok(to.push_str("too long, or no sheets")?);
    }
    let home = SheetId(0);
    match call {
        "tokens" => show(&tokens(alloc, text), to),
        "reference" => show_area(parse_reference(alloc, text, home, sheets)?, to),
        "fault" => show(&parse(alloc, text, home, sheets).err(), to),
        _ => show_parsed(alloc, parse(alloc, text, home, sheets), call, sheets, to),
    }
}
