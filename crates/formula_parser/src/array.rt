// Arrays of constants.
ghost use Rattle.std.specs.Prelude.{◌≡◌, ◌∷◌, ◌+◌, ◌++◌, ◌<◌, ◌≤◌, ◌^◌, IfOk, IfSome, Some, [], false, is_none, option_map};
ghost use Rattle.formula_ast.specs.Sound.{AreSoundWithin, IsRectangular};
ghost use Rattle.formula_ast.specs.Tree.{Array, trees};
ghost use Rattle.formula_grammar.specs.LeafReading.{array_at, is_bar, is_close_brace, is_semicolon, item_at, row_at};
ghost use Rattle.formula_grammar.specs.Symbols.{from_to};
ghost use Rattle.formula_parser.specs.Built.{branch};
ghost use Rattle.formula_parser.specs.Given.{Gives, next_where};
ghost use Rattle.formula_parser.specs.Leaves.{behind_where, constant_in, item_found, leaf_found, read_items, read_rows, row_behind, row_found, rows_at, rows_found, with_item, with_items};
ghost use Rattle.formula_parser.specs.Placed.{AreSymbols, InOrder, IsInFront, IsInText};
ghost use Rattle.formula_parser.specs.Settings.{seen};

use crate::branch::{Branch, Part, from_to};
use crate::number::{number, signed_number};
use crate::setting::Setting;
use crate::stop::Stop;
use crate::words::{logical, quoted_text};
use formula_ast::{Expr, Node};
use formula_grammar::{Sign, Symbol};
use std::alloc::{AllocError, Global};

/// Items that were read: how many, and their trees, where none has a number that is too wide.
#[derive(Drop)]
pub struct Items {
    pub count: usize,
    pub exprs: Option<Vec<Expr>>,
}

/// Rows that were read: how many, how many items each has, and their trees, where none has a number that is too wide.
#[derive(Drop)]
pub struct Rows {
    pub count: usize,
    pub columns: usize,
    pub exprs: Option<Vec<Expr>>,
}

// The trees with another behind them, if there are all.
fn with_item(items: Option<Vec<Expr>>, item: Option<Expr>) -> Result<Option<Vec<Expr>>, AllocError>
    ensures { IfOk result (λ o. option_map (λ v. v.items) o
        ≡ with_item (option_map (λ v. v.items) items) item) }
{
    let Some(mut exprs) = items else {
        return Ok(None);
    };
    let Some(expr) = item else {
        return Ok(None);
    };
    exprs.push(expr)?;
    Ok(Some(exprs))
}

// Trees behind other trees.
fn concatenation(first: Vec<Expr>, others: Vec<Expr>) -> Result<Vec<Expr>, AllocError>
    ensures { IfOk result (λ v. v.items ≡ first.items ++ others.items) }
{
    let mut exprs = first;
    for other in others {
        exprs.push(other)?;
    }
    Ok(exprs)
}

// The trees with others behind them, if there are all.
fn with_items(
    items: Option<Vec<Expr>>,
    others: Option<Vec<Expr>>,
) -> Result<Option<Vec<Expr>>, AllocError>
    ensures { IfOk result (λ o. option_map (λ v. v.items) o
        ≡ with_items (option_map (λ v. v.items) items) (option_map (λ v. v.items) others)) }
{
    let Some(first) = items else {
        return Ok(None);
    };
    let Some(behind) = others else {
        return Ok(None);
    };
    let exprs = concatenation(first, behind)?;
    Ok(Some(exprs))
}

impl Items {
    // An item alone, which has no tree where its number is too wide.
    fn one(alloc: Global, item: Option<Expr>) -> Result<Items, AllocError>
        ensures count { IfOk result (λ x. x.count ≡ 1) }
        ensures exprs { IfOk result (λ x. option_map (λ v. v.items) x.exprs
            ≡ with_item (Some []) item) }
    {
        let exprs = with_item(Some(Vec::new(alloc)), item)?;
        Ok(Items { count: 1, exprs })
    }

    // The items, and another.
    fn with(self, item: Option<Expr>) -> Result<Items, AllocError>
        requires { self.count + 1 < 2 ^ 64 }
        ensures count { IfOk result (λ x. x.count ≡ self.count + 1) }
        ensures exprs { IfOk result (λ x. option_map (λ v. v.items) x.exprs
            ≡ with_item (option_map (λ v. v.items) self.exprs) item) }
    {
        let count = self.count + 1;
        let exprs = with_item(self.exprs, item)?;
        Ok(Items { count, exprs })
    }
}

impl Rows {
    // The rows, and another, which has to be as long.
    fn with(self, row: Items) -> Result<Rows, Stop>
        requires { self.count + 1 < 2 ^ 64 }
        ensures { Gives read_rows result (row_behind (read_rows self) (read_items row)) }
    {
        if row.count != self.columns {
            return Err(Stop::Syntax);
        }
        let count = self.count + 1;
        let columns = self.columns;
        let exprs = with_items(self.exprs, row.exprs)?;
        Ok(Rows {
            count,
            columns,
            exprs,
        })
    }

    // The array of these rows, between its braces.
    fn between(self, first: Symbol, last: Symbol) -> Part
        requires forward { first.span.start ≤ last.span.end }
        requires few { (self.count ≤ last.span.end) × (self.columns ≤ last.span.end) }
        requires rectangular { IfSome self.exprs
            (λ v. IsRectangular self.count self.columns (trees v.items)) }
        requires within { IfSome self.exprs
            (λ v. AreSoundWithin (from_to first.span last.span) (trees v.items)) }
        ensures branch { result.branch ≡ branch (option_map (λ v. Array
            (from_to first.span last.span) self.count self.columns (trees v.items)) self.exprs) 2
            (record { lost = false; miscounted = false; wide = is_none self.exprs }) }
        ensures place { result.place ≡ from_to first.span last.span }
    {
        let place = from_to(first.span, last.span);
        let rows = self.count as u16;
        let columns = self.columns as u16;
        let expr = match self.exprs {
            Some(exprs) => Some(Expr {
                span: place,
                node: Node::Array(rows, columns, exprs),
            }),
            None => None,
        };
        Part {
            branch: Branch::array(expr),
            place,
        }
    }
}

// A text, or TRUE or FALSE.
fn constant(alloc: Global, setting: &Setting, symbol: Symbol) -> Result<Expr, Stop>
    requires { IsInText setting.now.text.now symbol }
    ensures { Gives (λ x. x) result (constant_in (seen setting.now) symbol) }
{
    let bytes = setting.slice(symbol);
    match symbol.sign {
        Sign::Text => {
            let text = quoted_text(alloc, bytes)?;
            Ok(Expr {
                span: symbol.span,
                node: Node::Text(text),
            })
        }
        Sign::Word => match logical(bytes) {
            Some(holds) => Ok(Expr {
                span: symbol.span,
                node: Node::Logical(holds),
            }),
            None => Err(Stop::Syntax),
        },
        _ => Err(Stop::Syntax),
    }
}

// An item: a number with a sign or without, a text, or TRUE or FALSE.
#[tactic(auto, unfolding(formula_grammar::specs::LeafReading::item_at))]
fn item<'a>(
    alloc: Global,
    setting: &Setting,
    symbols: &'a [Symbol],
) -> Result<(Option<Expr>, &'a [Symbol]), Stop>
    requires { AreSymbols setting.now.text.now symbols.now }
    ensures gives { Gives (λ x. (x.0, x.1.now)) result
        (item_found (item_at (seen setting.now) symbols.now)) }
    ensures rest { IfOk result (λ x. AreSymbols setting.now.text.now x.1.now) }
{
    match symbols {
        [] => Err(Stop::Syntax),
        [first, rest @ ..] => match first.sign {
            Sign::Number => {
                let expr = number(setting, *first, first.span, false)?;
                Ok((expr, rest))
            }
            Sign::Plus => signed_number(setting, *first, rest),
            Sign::Minus => signed_number(setting, *first, rest),
            _ => {
                let expr = constant(alloc, setting, *first)?;
                Ok((Some(expr), rest))
            }
        },
    }
}

// What stands behind the semicolon in front, if there is one.
fn behind_semicolon(symbols: &[Symbol]) -> Option<&[Symbol]>
    ensures { option_map (λ x. x.now) result ≡ behind_where is_semicolon symbols.now }
{
    match symbols {
        [] => None,
        [symbol, rest @ ..] => match symbol.sign {
            Sign::Semicolon => Some(rest),
            _ => None,
        },
    }
}

// What stands behind the bar in front, if there is one.
fn behind_bar(symbols: &[Symbol]) -> Option<&[Symbol]>
    ensures { option_map (λ x. x.now) result ≡ behind_where is_bar symbols.now }
{
    match symbols {
        [] => None,
        [symbol, rest @ ..] => match symbol.sign {
            Sign::Bar => Some(rest),
            _ => None,
        },
    }
}

// The closing brace in front, and the symbols after it.
fn next_close_brace(symbols: &[Symbol]) -> Option<(Symbol, &[Symbol])>
    ensures { option_map (λ x. (x.0, x.1.now)) result ≡ next_where is_close_brace symbols.now }
{
    match symbols {
        [] => None,
        [symbol, rest @ ..] => match symbol.sign {
            Sign::CloseBrace => Some((*symbol, rest)),
            _ => None,
        },
    }
}

// A row: items with `;` between.
fn row<'a>(
    alloc: Global,
    setting: &Setting,
    symbols: &'a [Symbol],
) -> Result<(Items, &'a [Symbol]), Stop>
    requires { AreSymbols setting.now.text.now symbols.now }
    ensures gives { Gives (λ x. (read_items x.0, x.1.now)) result
        (row_found (row_at (seen setting.now) symbols.now)) }
    ensures rest { IfOk result (λ x. AreSymbols setting.now.text.now x.1.now) }
{
    let (first, mut rest) = item(alloc, setting, symbols)?;
    let mut items = Items::one(alloc, first)?;
    while let Some(behind) = behind_semicolon(rest) {
        let (next, others) = item(alloc, setting, behind)?;
        items = items.with(next)?;
        rest = others;
    }
    Ok((items, rest))
}

// Rows of one length, with `|` between.
fn all_rows<'a>(
    alloc: Global,
    setting: &Setting,
    symbols: &'a [Symbol],
) -> Result<(Rows, &'a [Symbol]), Stop>
    requires { AreSymbols setting.now.text.now symbols.now }
    ensures gives { Gives (λ x. (read_rows x.0, x.1.now)) result
        (rows_found (rows_at (seen setting.now) symbols.now)) }
    ensures rest { IfOk result (λ x. AreSymbols setting.now.text.now x.1.now) }
{
    let (first, mut rest) = row(alloc, setting, symbols)?;
    let mut rows = Rows {
        count: 1,
        columns: first.count,
        exprs: first.exprs,
    };
    while let Some(behind) = behind_bar(rest) {
        let (next, others) = row(alloc, setting, behind)?;
        rows = rows.with(next)?;
        rest = others;
    }
    Ok((rows, rest))
}

/// An array, behind its opening brace.
pub fn array<'a>(
    alloc: Global,
    setting: &Setting,
    first: Symbol,
    symbols: &'a [Symbol],
) -> Result<(Part, &'a [Symbol]), Stop>
    requires first { IsInText setting.now.text.now first }
    requires symbols { AreSymbols setting.now.text.now symbols.now }
    requires order { InOrder first.span.end symbols.now }
    ensures gives { Gives (λ x. (x.0, x.1.now)) result
        (leaf_found (array_at (seen setting.now) first symbols.now)) }
    ensures placed { IfOk result (λ x. IsInFront (first ∷ symbols.now) x.0 x.1.now) }
    ensures rest { IfOk result (λ x. AreSymbols setting.now.text.now x.1.now) }
{
    let (rows, rest) = all_rows(alloc, setting, symbols)?;
    let Some((last, after)) = next_close_brace(rest) else {
        return Err(Stop::Syntax);
    };
    Ok((rows.between(first, last), after))
}
