// What texts say.
ghost use Rattle.std.specs.Prelude.{◌≡◌, ◌+◌, ◌≢◌, ◌<◌, ◌≤◌, ℕ, true, List, [], All, IfOk, None, false, length};
ghost use Rattle.std.specs.Option.{option_map_or};
ghost use Rattle.cell_refs.specs.declared.limits.TheConstants.{TEXT_BYTES};
ghost use Rattle.recalculation.specs.Entries.{Formula, Malformed};
ghost use Rattle.workbook.specs.Held.{IsHeld, IsSoundly, SaysSpelled, entry_of, spelled_tree};
ghost use Rattle.cell_refs.specs.Listed.{IsListed};
ghost use Rattle.workbook.specs.State.{is_formula_text};
ghost use Rattle.workbook.specs.Kinds.{formula_tree, number_or_other};
ghost use Rattle.frac128.specs.NumeralReading.{reading};
ghost use Rattle.workbook.specs.Known.{names_in};
ghost use Rattle.workbook.specs.Scoped.{IsShort};

use crate::held::{Held, Said};
use crate::named::Scope;
use crate::naming::with_names;
use crate::uses::{names_nothing, uses};
use crate::words::{is_formula, logical};
use cell_refs::Cell;
use formula_ast::Expr;
use formula_parser::{ParseFault, parse};
use frac128::{Frac, NumeralFault};
use memory::Memory;
use sheet_model::Text;
use std::alloc::Global;

/// What is held of a cell that has a text.
pub(crate) fn hold(alloc: Global, scope: &Scope, cell: Cell, text: Text) -> Result<Held, Memory>
    requires home { scope.now.home ≡ cell.sheet }
    requires listed { IsListed scope.now.sheets.now cell }
    requires short { All IsShort (names_in scope.now) }
    requires some { text ≢ [] }
    requires length { length text ≤ TEXT_BYTES }
    ensures text { IfOk result (λ held. held.text ≡ text) }
    ensures held { IfOk result (λ held.
        IsHeld scope.now.sheets.now (names_in scope.now) cell held) }
    ensures plain { is_formula_text text ≡ false → IfOk result (λ held. spelled_tree held ≡ None) }
{
    let (spelled, said) = say(alloc, scope, cell, text.as_str())?;
    Ok(Held {
        text,
        spelled,
        said,
    })
}

// The tree of a text in which names stand, as it is spelled, and what the text says.
fn say(
    alloc: Global,
    scope: &Scope,
    cell: Cell,
    text: &str,
) -> Result<(Option<Box<Expr>>, Said), Memory>
    requires home { scope.now.home ≡ cell.sheet }
    requires listed { scope.now.home.0 < length scope.now.sheets.now }
    requires short { All IsShort (names_in scope.now) }
    requires length { length text.now ≤ TEXT_BYTES }
    ensures says { IfOk result
        (SaysSpelled scope.now.sheets.now (names_in scope.now) cell text.now) }
    ensures plain { is_formula_text text.now ≡ false → IfOk result (λ said. said.0 ≡ None) }
{
    if is_formula(text) {
        return formula(alloc, scope, cell, text);
    }
    Ok((None, constant(text)))
}

// What a formula's text says, and its tree as it is spelled where names stand in it.
fn formula(
    alloc: Global,
    scope: &Scope,
    cell: Cell,
    text: &str,
) -> Result<(Option<Box<Expr>>, Said), Memory>
    requires home { scope.now.home ≡ cell.sheet }
    requires listed { scope.now.home.0 < length scope.now.sheets.now }
    requires short { All IsShort (names_in scope.now) }
    requires length { length text.now ≤ TEXT_BYTES }
    requires begins { is_formula_text text.now ≡ true }
    ensures { IfOk result (SaysSpelled scope.now.sheets.now (names_in scope.now) cell text.now) }
{
    let expr = match parse(alloc, text, scope.home, scope.sheets) {
        Ok(expr) => expr,
        Err(ParseFault::Memory) => return Err(Memory),
        Err(_) => return Ok((None, Said::Malformed)),
    };
    if names_nothing(&expr) {
        return Ok((None, said_of(Some(expr))));
    }
    let said = said_of(with_names(alloc, scope, &expr)?);
    if uses(&expr, None) {
        return Ok((Some(Box::new(alloc, expr)?), said));
    }
    Ok((None, said))
}

/// What is said of a formula's text that has this tree, or none that is allowed.
pub(crate) fn said_of(tree: Option<Expr>) -> Said
    ensures agrees { (text : List ℕ) → entry_of text result ≡ option_map_or Formula tree Malformed }
    ensures sound { IsSoundly result }
{
    match tree {
        Some(tree) => {
            tree.soundness();
            Said::Formula(tree)
        }
        None => Said::Malformed,
    }
}

/// The tree of a formula's text, with what names stand for in their places; none where the text isn't allowed.
pub(crate) fn tree(alloc: Global, scope: &Scope, text: &str) -> Result<Option<Expr>, Memory>
    requires listed { scope.now.home.0 < length scope.now.sheets.now }
    requires short { All IsShort (names_in scope.now) }
    requires length { length text.now ≤ TEXT_BYTES + 1 }
    ensures { IfOk result (λ tree. tree
        ≡ formula_tree scope.now.sheets.now (names_in scope.now) scope.now.home.0 text.now) }
{
    let expr = match parse(alloc, text, scope.home, scope.sheets) {
        Ok(expr) => expr,
        Err(ParseFault::Memory) => return Err(Memory),
        Err(_) => return Ok(None),
    };
    if names_nothing(&expr) {
        return Ok(Some(expr));
    }
    with_names(alloc, scope, &expr)
}

// What another text says.
fn constant(text: &str) -> Said
    ensures agrees { entry_of text.now result ≡ number_or_other text.now (reading text.now) }
    ensures sound { IsSoundly result }
{
    match Frac::read(text) {
        Ok(number) => Said::Number(number),
        Err(NumeralFault::TooWide) => Said::Malformed,
        Err(NumeralFault::NotNumeral) => match logical(text) {
            Some(holds) => Said::Logical(holds),
            None => Said::Plain,
        },
    }
}
