// The parts of a formula that have no formula within.
ghost use Rattle.std.specs.Prelude.{◌≡◌, ◌∷◌, ◌||◌, IfOk, is_some, option_map};
ghost use Rattle.formula_ast.specs.Measures.{height_of};
ghost use Rattle.formula_grammar.specs.LeafReading.{is_sheet_mark, references_at, starts_with, word_leaf};
ghost use Rattle.formula_grammar.specs.Reading.{leaf_of};
ghost use Rattle.formula_grammar.specs.Symbols.{bytes_of, place_of};
ghost use Rattle.formula_grammar.specs.WordReading.{word_corner};
ghost use Rattle.formula_grammar.specs.declared.symbol.Sign.TheVariants as sign;
ghost use Rattle.formula_parser.specs.Built.{built, faults_of, no_faults};
ghost use Rattle.formula_parser.specs.Given.{Gives};
ghost use Rattle.formula_parser.specs.Leaves.{leaf_found, leaf_part, single_in};
ghost use Rattle.formula_parser.specs.Placed.{AreSymbols, IsInFront, IsInText};
ghost use Rattle.formula_parser.specs.Settings.{seen};

use crate::array::array;
use crate::branch::{Branch, Part};
use crate::corner::{starts_with_mark, word_as_corner};
use crate::number::number;
use crate::setting::Setting;
use crate::stop::Stop;
use crate::union::references;
use crate::words::{error, logical, quoted_text};
use cell_refs::Span;
use formula_ast::{Expr, Node};
use formula_grammar::{Sign, Symbol};
use std::alloc::{AllocError, Global};

// The part of a tree of one level.
fn part_of(expr: Expr) -> Part
    requires height { height_of expr ≡ 1 }
    requires faults { faults_of expr ≡ no_faults }
    ensures { result ≡ leaf_part expr }
{
    let place = expr.span;
    Part {
        branch: Branch::leaf(expr),
        place,
    }
}

// A number, or what stands in place of one that is too wide.
fn number_part(setting: &Setting, symbol: Symbol) -> Result<Part, Stop>
    requires symbol { IsInText setting.now.text.now symbol }
    requires number { symbol.sign ≡ sign.Number }
    ensures { Gives (λ x. x) result (option_map leaf_part (single_in (seen setting.now) symbol)) }
{
    let place = symbol.span;
    let read = number(setting, symbol, place, false)?;
    match read {
        Some(expr) => Ok(part_of(expr)),
        None => Ok(Part {
            branch: Branch::wide(),
            place,
        }),
    }
}

// A single symbol that is a constant or a name.
fn single(alloc: Global, setting: &Setting, symbol: Symbol) -> Result<Part, Stop>
    requires { IsInText setting.now.text.now symbol }
    ensures { Gives (λ x. x) result (option_map leaf_part (single_in (seen setting.now) symbol)) }
{
    let span = symbol.span;
    let bytes = setting.slice(symbol);
    match symbol.sign {
        Sign::Number => number_part(setting, symbol),
        Sign::Text => {
            let node = Node::Text(quoted_text(alloc, bytes)?);
            Ok(part_of(Expr { span, node }))
        }
        Sign::Fault => match error(bytes) {
            Some(kind) => Ok(part_of(Expr {
                span,
                node: Node::Fault(kind),
            })),
            None => Err(Stop::Syntax),
        },
        Sign::Word => match logical(bytes) {
            Some(holds) => Ok(part_of(Expr {
                span,
                node: Node::Logical(holds),
            })),
            None => {
                let node = Node::Name(String::from_str(alloc, bytes)?);
                Ok(part_of(Expr { span, node }))
            }
        },
        _ => Err(Stop::Syntax),
    }
}

// From the first symbol to the last.
fn place_of(symbols: &[Symbol]) -> Span
    ensures { result ≡ place_of symbols.now }
{
    match symbols {
        [] => Span { start: 0, end: 0 },
        [first, ..] => Span {
            start: first.span.start,
            end: symbols[symbols.len() - 1].span.end,
        },
    }
}

// References joined by `~`, or one alone.
fn joined_references<'a>(
    alloc: Global,
    setting: &Setting,
    symbols: &'a [Symbol],
) -> Result<(Part, &'a [Symbol]), Stop>
    requires { AreSymbols setting.now.text.now symbols.now }
    ensures gives { Gives (λ x. (x.0, x.1.now)) result
        (leaf_found (references_at (seen setting.now) symbols.now)) }
    ensures placed { IfOk result (λ x. IsInFront symbols.now x.0 x.1.now) }
    ensures rest { IfOk result (λ x. AreSymbols setting.now.text.now x.1.now) }
{
    let (union, rest) = references(alloc, setting, symbols)?;
    let place = place_of(&symbols[..symbols.len() - rest.len()]);
    if union.lost {
        let branch = Branch::without_sheet();
        return Ok((Part { branch, place }, rest));
    }
    let part = part_of(Expr {
        span: place,
        node: Node::Reference(union.areas),
    });
    Ok((part, rest))
}

// Whether references begin with the word: a mark stands behind it, or it is a corner.
fn begins_references(
    alloc: Global,
    setting: &Setting,
    word: Symbol,
    rest: &[Symbol],
) -> Result<bool, AllocError>
    requires { IsInText setting.now.text.now word }
    ensures { IfOk result (λ b. b ≡ (starts_with is_sheet_mark rest.now
        || is_some (word_corner (seen setting.now) (bytes_of (seen setting.now) word)))) }
{
    if starts_with_mark(rest) {
        return Ok(true);
    }
    let corner = word_as_corner(alloc, setting, setting.slice(word))?;
    Ok(corner.is_some())
}

// References that begin with the word, or what the word is alone.
fn word_leaf<'a>(
    alloc: Global,
    setting: &Setting,
    symbols: &'a [Symbol],
    word: Symbol,
    rest: &'a [Symbol],
) -> Result<(Part, &'a [Symbol]), Stop>
    requires symbols { AreSymbols setting.now.text.now symbols.now }
    requires parts { symbols.now ≡ word ∷ rest.now }
    requires word { word.sign ≡ sign.Word }
    ensures gives { Gives (λ x. (x.0, x.1.now)) result
        (leaf_found (word_leaf (seen setting.now) word rest.now)) }
    ensures placed { IfOk result (λ x. IsInFront symbols.now x.0 x.1.now) }
    ensures rest { IfOk result (λ x. AreSymbols setting.now.text.now x.1.now) }
{
    if begins_references(alloc, setting, word, rest)? {
        return joined_references(alloc, setting, symbols);
    }
    let part = single(alloc, setting, word)?;
    Ok((part, rest))
}

/// A constant, an array, a name or references.
pub fn leaf<'a>(
    alloc: Global,
    setting: &Setting,
    symbols: &'a [Symbol],
) -> Result<(Part, &'a [Symbol]), Stop>
    requires { AreSymbols setting.now.text.now symbols.now }
    ensures gives { Gives (λ x. (x.0, x.1.now)) result
        (leaf_of (seen setting.now) (built (seen setting.now)) symbols.now) }
    ensures placed { IfOk result (λ x. IsInFront symbols.now x.0 x.1.now) }
    ensures rest { IfOk result (λ x. AreSymbols setting.now.text.now x.1.now) }
{
    match symbols {
        [] => Err(Stop::Syntax),
        [first, rest @ ..] => match first.sign {
            Sign::OpenBrace => array(alloc, setting, *first, rest),
            Sign::Quoted => joined_references(alloc, setting, symbols),
            Sign::OpenSquare => joined_references(alloc, setting, symbols),
            Sign::Word => word_leaf(alloc, setting, symbols, *first, rest),
            _ => {
                let part = single(alloc, setting, *first)?;
                Ok((part, rest))
            }
        },
    }
}
