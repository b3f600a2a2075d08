// References: the cells between two corners.
ghost use Rattle.std.specs.Prelude.{◌≡◌, ◌<◌, IfOk, List, Option, option_map};
ghost use Rattle.cell_refs.specs.declared.limits.TheConstants.{COLUMNS, ROWS};
ghost use Rattle.formula_grammar.specs.LeafReading.{brackets_at, corner_at, inner_at, is_close_square, one_at, plain_at, reference_at, second_at};
ghost use Rattle.formula_grammar.specs.References.{agrees, area_between};
ghost use Rattle.cell_refs.specs.Areas.{Area};
ghost use Rattle.formula_grammar.specs.declared.symbol.Symbol.{Symbol};
ghost use Rattle.formula_parser.specs.Given.{Gives};
ghost use Rattle.formula_parser.specs.Leaves.{area_of, corner_of, given_of};
ghost use Rattle.formula_parser.specs.Placed.{AreSymbols};
ghost use Rattle.formula_parser.specs.Settings.{seen};

use crate::corner::{Corner, Given, inner_corner, plain_corner};
use crate::setting::Setting;
use crate::stop::Stop;
use crate::words::is_same;
use cell_refs::Area;
use formula_grammar::{Sign, Symbol};
use std::alloc::Global;

impl Setting<'_> {
    // Whether the second corner gives no sheet, or the sheet of the first.
    fn agrees(&self, first: &Given, second: &Given) -> bool
        ensures { result ≡ agrees (seen self.now) (given_of first.now) (given_of second.now) }
    {
        let Given::Named(name) = second else {
            return true;
        };
        match (self.sheet(first), self.sheet(second)) {
            (Some(one), Some(other)) => one == other,
            (None, None) => match first {
                Given::Named(earlier) => is_same(earlier.as_str(), name.as_str()),
                Given::Own => false,
            },
            _ => false,
        }
    }

    // The cells between two corners of one sheet: none where they are on two, and no area where there is no such sheet.
    fn area(&self, first: &Corner, second: &Corner) -> Option<Option<Area>>
        requires first { first.now.row < ROWS × first.now.column < COLUMNS }
        requires second { second.now.row < ROWS × second.now.column < COLUMNS }
        ensures area { result ≡ option_map area_of
            (area_between (seen self.now) (corner_of first.now) (corner_of second.now)) }
    {
        if !self.agrees(&first.sheet, &second.sheet) {
            return None;
        }
        let Some(sheet) = self.sheet(&first.sheet) else {
            return Some(None);
        };
        Some(Some(Area::between(first.on(sheet), second.on(sheet))))
    }

    // The cells between two corners, and the symbols that are left.
    fn area_before<'b>(&self, first: &Corner, second: &Corner, rest: &'b [Symbol]) -> ReadArea<'b>
        requires first { first.now.row < ROWS × first.now.column < COLUMNS }
        requires second { second.now.row < ROWS × second.now.column < COLUMNS }
        requires rest { AreSymbols self.now.text.now rest.now }
        ensures gives { Gives {Y = Option Area × List Symbol} (λ x. (x.0, x.1.now)) result
            (option_map (λ r. (area_of r, rest.now))
            (area_between (seen self.now) (corner_of first.now) (corner_of second.now))) }
        ensures rest { IfOk result (λ x. AreSymbols self.now.text.now x.1.now) }
    {
        match self.area(first, second) {
            Some(area) => Ok((area, rest)),
            None => Err(Stop::Syntax),
        }
    }
}

type ReadArea<'a> = Result<(Option<Area>, &'a [Symbol]), Stop>;

// Behind a first corner outside brackets: a colon and a second one, or nothing.
fn second_plain<'a>(
    alloc: Global,
    setting: &Setting,
    first: &Corner,
    symbols: &'a [Symbol],
) -> ReadArea<'a>
    requires first { first.now.row < ROWS × first.now.column < COLUMNS }
    requires symbols { AreSymbols setting.now.text.now symbols.now }
    ensures gives { Gives {Y = Option Area × List Symbol} (λ x. (x.0, x.1.now)) result
        (option_map (λ f. (area_of f.0, f.1)) (second_at (seen setting.now)
        (corner_at (seen setting.now)) (corner_of first.now) symbols.now)) }
    ensures rest { IfOk result (λ x. AreSymbols setting.now.text.now x.1.now) }
{
    let Some((mark, behind)) = setting.first(symbols) else {
        return setting.area_before(first, first, symbols);
    };
    match mark.sign {
        Sign::Colon => {
            let (second, rest) = plain_corner(alloc, setting, behind)?;
            setting.area_before(first, &second, rest)
        }
        _ => setting.area_before(first, first, symbols),
    }
}

// A reference without brackets.
fn plain<'a>(alloc: Global, setting: &Setting, symbols: &'a [Symbol]) -> ReadArea<'a>
    requires { AreSymbols setting.now.text.now symbols.now }
    ensures gives { Gives {Y = Option Area × List Symbol} (λ x. (x.0, x.1.now)) result
        (option_map (λ f. (area_of f.0, f.1)) (plain_at (seen setting.now) symbols.now)) }
    ensures rest { IfOk result (λ x. AreSymbols setting.now.text.now x.1.now) }
{
    let (first, rest) = plain_corner(alloc, setting, symbols)?;
    second_plain(alloc, setting, &first, rest)
}

// Behind a first corner within brackets: a colon and a second one, or nothing.
fn second_inner<'a>(
    alloc: Global,
    setting: &Setting,
    first: &Corner,
    symbols: &'a [Symbol],
) -> ReadArea<'a>
    requires first { first.now.row < ROWS × first.now.column < COLUMNS }
    requires symbols { AreSymbols setting.now.text.now symbols.now }
    ensures gives { Gives {Y = Option Area × List Symbol} (λ x. (x.0, x.1.now)) result
        (option_map (λ f. (area_of f.0, f.1)) (second_at (seen setting.now)
        (inner_at (seen setting.now)) (corner_of first.now) symbols.now)) }
    ensures rest { IfOk result (λ x. AreSymbols setting.now.text.now x.1.now) }
{
    let Some((mark, behind)) = setting.first(symbols) else {
        return setting.area_before(first, first, symbols);
    };
    match mark.sign {
        Sign::Colon => {
            let (second, rest) = inner_corner(alloc, setting, behind)?;
            setting.area_before(first, &second, rest)
        }
        _ => setting.area_before(first, first, symbols),
    }
}

// A reference in brackets, behind the opening one.
fn brackets<'a>(alloc: Global, setting: &Setting, symbols: &'a [Symbol]) -> ReadArea<'a>
    requires { AreSymbols setting.now.text.now symbols.now }
    ensures gives { Gives {Y = Option Area × List Symbol} (λ x. (x.0, x.1.now)) result
        (option_map (λ f. (area_of f.0, f.1)) (brackets_at (seen setting.now) symbols.now)) }
    ensures rest { IfOk result (λ x. AreSymbols setting.now.text.now x.1.now) }
{
    let (first, behind) = inner_corner(alloc, setting, symbols)?;
    match second_inner(alloc, setting, &first, behind) {
        Ok((area, rest)) => before_bracket(setting, area, rest),
        Err(stop) => Err(stop),
    }
}

// The area, where a closing bracket stands in front.
fn before_bracket<'a>(setting: &Setting, area: Option<Area>, symbols: &'a [Symbol]) -> ReadArea<'a>
    requires { AreSymbols setting.now.text.now symbols.now }
    ensures gives { Gives {Y = Option Area × List Symbol} (λ x. (x.0, x.1.now)) result
        (option_map (λ t. (area, t.1)) (one_at is_close_square symbols.now)) }
    ensures rest { IfOk result (λ x. AreSymbols setting.now.text.now x.1.now) }
{
    let Some((close, after)) = setting.first(symbols) else {
        return Err(Stop::Syntax);
    };
    match close.sign {
        Sign::CloseSquare => Ok((area, after)),
        _ => Err(Stop::Syntax),
    }
}

// One reference.
pub fn reference<'a>(alloc: Global, setting: &Setting, symbols: &'a [Symbol]) -> ReadArea<'a>
    requires { AreSymbols setting.now.text.now symbols.now }
    ensures gives { Gives {Y = Option Area × List Symbol} (λ x. (x.0, x.1.now)) result
        (option_map (λ f. (area_of f.0, f.1)) (reference_at (seen setting.now) symbols.now)) }
    ensures rest { IfOk result (λ x. AreSymbols setting.now.text.now x.1.now) }
{
    let Some((symbol, rest)) = setting.first(symbols) else {
        return Err(Stop::Syntax);
    };
    match symbol.sign {
        Sign::OpenSquare => brackets(alloc, setting, rest),
        _ => plain(alloc, setting, symbols),
    }
}
