// Corners of references: an address, and the sheet that it is on.
ghost use Rattle.std.specs.Prelude.{◌≡◌, ◌<◌, IfOk, IfSome, option_map};
ghost use Rattle.cell_refs.specs.declared.limits.TheConstants.{COLUMNS, ROWS};
ghost use Rattle.formula_grammar.specs.LeafReading.{address_at, behind_sheet_at, corner_at, corner_by, inner_at, inner_by, is_point, is_sheet_mark, starts_with};
ghost use Rattle.formula_grammar.specs.References.{cell_on};
ghost use Rattle.formula_grammar.specs.Words.{corner_on};
ghost use Rattle.formula_grammar.specs.WordReading.{split_corner, word_corner};
ghost use Rattle.cell_refs.specs.Address.{address_in};
ghost use Rattle.formula_grammar.specs.declared.symbol.Sign.TheVariants as sign;
ghost use Rattle.formula_parser.specs.Given.{Gives};
ghost use Rattle.formula_parser.specs.Leaves.{corner_of, given_of, number_of};
ghost use Rattle.formula_parser.specs.Placed.{AreSymbols, IsInText};
ghost use Rattle.formula_parser.specs.Settings.{seen};

use crate::setting::Setting;
use crate::stop::Stop;
use crate::words::{at_last_point, logical, sheet_of};
use cell_refs::{Cell, SheetId, read_address, sheet_name};
use formula_grammar::{Sign, Symbol};
use std::alloc::{AllocError, Global};

/// A sheet as it is given: none, so that it is the formula's own, or by its name.
#[derive(Drop)]
pub enum Given {
    Own,
    Named(String),
}

/// A corner of a reference.
#[derive(Drop)]
pub struct Corner {
    pub sheet: Given,
    pub row: u16,
    pub column: u16,
}

impl Corner {
    /// Its cell on a sheet.
    pub fn on(&self, sheet: SheetId) -> Cell
        ensures { result ≡ cell_on sheet.0 (corner_of self.now) }
    {
        Cell {
            sheet,
            row: self.row,
            col: self.column,
        }
    }
}

impl Setting<'_> {
    /// The number of a sheet as it is given, if it is listed.
    pub fn sheet(&self, given: &Given) -> Option<SheetId>
        ensures { option_map (λ id. id.0) result ≡ number_of (seen self.now) (given_of given.now) }
    {
        match given {
            Given::Own => Some(self.home),
            Given::Named(name) => self.sheets.find(name.as_str()),
        }
    }
}

// The corner of an address on a sheet.
fn corner_on(sheet: Given, address: &str) -> Option<Corner>
    ensures corner { option_map corner_of result
        ≡ corner_on (given_of sheet) (address_in address.now) }
    ensures on_sheet { IfSome result (λ c. c.row < ROWS × c.column < COLUMNS) }
{
    let (row, column) = read_address(address)?;
    Some(Corner { sheet, row, column })
}

// A sheet's name and an address, joined by a point in one word.
fn split(alloc: Global, word: &str) -> Result<Option<Corner>, AllocError>
    ensures corner { IfOk result (λ c. option_map corner_of c ≡ split_corner word.now) }
    ensures on_sheet { IfOk result (λ o. IfSome o (λ c. c.row < ROWS × c.column < COLUMNS)) }
{
    let Some((sheet, address)) = at_last_point(word) else {
        return Ok(None);
    };
    let Some(name) = sheet_name(alloc, sheet)? else {
        return Ok(None);
    };
    Ok(corner_on(Given::Named(name), address))
}

/// The corner that a word outside brackets is.
pub fn word_as_corner(
    alloc: Global,
    setting: &Setting,
    word: &str,
) -> Result<Option<Corner>, AllocError>
    ensures corner { IfOk result (λ c. option_map corner_of c
        ≡ word_corner (seen setting.now) word.now) }
    ensures on_sheet { IfOk result (λ o. IfSome o (λ c. c.row < ROWS × c.column < COLUMNS)) }
{
    if logical(word).is_some() {
        return Ok(None);
    }
    if let Some(corner) = corner_on(Given::Own, word) {
        return Ok(Some(corner));
    }
    let Some(corner) = split(alloc, word)? else {
        return Ok(None);
    };
    match setting.sheet(&corner.sheet) {
        Some(_) => Ok(Some(corner)),
        None => Ok(None),
    }
}

type ReadCorner<'a> = Result<(Corner, &'a [Symbol]), Stop>;

// An address behind a sheet.
fn address<'a>(setting: &Setting, sheet: Given, symbols: &'a [Symbol]) -> ReadCorner<'a>
    requires { AreSymbols setting.now.text.now symbols.now }
    ensures gives { Gives (λ x. (corner_of x.0, x.1.now)) result
        (address_at (seen setting.now) (given_of sheet) symbols.now) }
    ensures on_sheet { IfOk result (λ x. x.0.row < ROWS × x.0.column < COLUMNS) }
    ensures rest { IfOk result (λ x. AreSymbols setting.now.text.now x.1.now) }
{
    let Some((symbol, rest)) = setting.first(symbols) else {
        return Err(Stop::Syntax);
    };
    match symbol.sign {
        Sign::Word => match corner_on(sheet, setting.slice(symbol)) {
            Some(corner) => Ok((corner, rest)),
            None => Err(Stop::Syntax),
        },
        _ => Err(Stop::Syntax),
    }
}

// A point and an address, behind the symbol of a sheet.
fn behind_sheet<'a>(
    alloc: Global,
    setting: &Setting,
    sheet: Symbol,
    symbols: &'a [Symbol],
) -> ReadCorner<'a>
    requires sheet { IsInText setting.now.text.now sheet }
    requires symbols { AreSymbols setting.now.text.now symbols.now }
    ensures gives { Gives (λ x. (corner_of x.0, x.1.now)) result
        (behind_sheet_at (seen setting.now) is_point sheet symbols.now) }
    ensures on_sheet { IfOk result (λ x. x.0.row < ROWS × x.0.column < COLUMNS) }
    ensures rest { IfOk result (λ x. AreSymbols setting.now.text.now x.1.now) }
{
    let Some(name) = sheet_of(alloc, setting, sheet)? else {
        return Err(Stop::Syntax);
    };
    let Some((mark, rest)) = setting.first(symbols) else {
        return Err(Stop::Syntax);
    };
    match mark.sign {
        Sign::Point => address(setting, Given::Named(name), rest),
        _ => Err(Stop::Syntax),
    }
}

// An exclamation mark or a point, and an address, behind the symbol of a sheet.
fn behind_plain_sheet<'a>(
    alloc: Global,
    setting: &Setting,
    sheet: Symbol,
    symbols: &'a [Symbol],
) -> ReadCorner<'a>
    requires sheet { IsInText setting.now.text.now sheet }
    requires symbols { AreSymbols setting.now.text.now symbols.now }
    ensures gives { Gives (λ x. (corner_of x.0, x.1.now)) result
        (behind_sheet_at (seen setting.now) is_sheet_mark sheet symbols.now) }
    ensures on_sheet { IfOk result (λ x. x.0.row < ROWS × x.0.column < COLUMNS) }
    ensures rest { IfOk result (λ x. AreSymbols setting.now.text.now x.1.now) }
{
    let Some(name) = sheet_of(alloc, setting, sheet)? else {
        return Err(Stop::Syntax);
    };
    let Some((mark, rest)) = setting.first(symbols) else {
        return Err(Stop::Syntax);
    };
    match mark.sign {
        Sign::Exclamation | Sign::Point => address(setting, Given::Named(name), rest),
        _ => Err(Stop::Syntax),
    }
}

/// Whether a mark between a sheet and an address stands at the front.
pub fn starts_with_mark(symbols: &[Symbol]) -> bool
    ensures { result ≡ starts_with is_sheet_mark symbols.now }
{
    matches!(
        symbols,
        [
            Symbol {
                sign: Sign::Exclamation | Sign::Point,
                ..
            },
            ..
        ]
    )
}

// A corner outside brackets that begins with a word.
fn plain_word<'a>(
    alloc: Global,
    setting: &Setting,
    word: Symbol,
    symbols: &'a [Symbol],
) -> ReadCorner<'a>
    requires word { IsInText setting.now.text.now word }
    requires symbols { AreSymbols setting.now.text.now symbols.now }
    ensures gives { Gives (λ x. (corner_of x.0, x.1.now)) result
        (corner_by (seen setting.now) word sign.Word symbols.now) }
    ensures on_sheet { IfOk result (λ x. x.0.row < ROWS × x.0.column < COLUMNS) }
    ensures rest { IfOk result (λ x. AreSymbols setting.now.text.now x.1.now) }
{
    if starts_with_mark(symbols) {
        return behind_plain_sheet(alloc, setting, word, symbols);
    }
    match word_as_corner(alloc, setting, setting.slice(word))? {
        Some(corner) => Ok((corner, symbols)),
        None => Err(Stop::Syntax),
    }
}

/// A corner outside brackets.
pub fn plain_corner<'a>(alloc: Global, setting: &Setting, symbols: &'a [Symbol]) -> ReadCorner<'a>
    requires { AreSymbols setting.now.text.now symbols.now }
    ensures gives { Gives (λ x. (corner_of x.0, x.1.now)) result
        (corner_at (seen setting.now) symbols.now) }
    ensures on_sheet { IfOk result (λ x. x.0.row < ROWS × x.0.column < COLUMNS) }
    ensures rest { IfOk result (λ x. AreSymbols setting.now.text.now x.1.now) }
{
    let Some((symbol, rest)) = setting.first(symbols) else {
        return Err(Stop::Syntax);
    };
    match symbol.sign {
        Sign::Word => plain_word(alloc, setting, symbol, rest),
        _ => behind_plain_sheet(alloc, setting, symbol, rest),
    }
}

// Whether a point stands at the front.
fn starts_with_point(symbols: &[Symbol]) -> bool
    ensures { result ≡ starts_with is_point symbols.now }
{
    matches!(
        symbols,
        [
            Symbol {
                sign: Sign::Point,
                ..
            },
            ..
        ]
    )
}

// A corner within brackets that begins with a word.
fn inner_word<'a>(
    alloc: Global,
    setting: &Setting,
    word: Symbol,
    symbols: &'a [Symbol],
) -> ReadCorner<'a>
    requires word { IsInText setting.now.text.now word }
    requires symbols { AreSymbols setting.now.text.now symbols.now }
    ensures gives { Gives (λ x. (corner_of x.0, x.1.now)) result
        (inner_by (seen setting.now) word sign.Word symbols.now) }
    ensures on_sheet { IfOk result (λ x. x.0.row < ROWS × x.0.column < COLUMNS) }
    ensures rest { IfOk result (λ x. AreSymbols setting.now.text.now x.1.now) }
{
    if starts_with_point(symbols) {
        return behind_sheet(alloc, setting, word, symbols);
    }
    match split(alloc, setting.slice(word))? {
        Some(corner) => Ok((corner, symbols)),
        None => Err(Stop::Syntax),
    }
}

/// A corner within brackets.
pub fn inner_corner<'a>(alloc: Global, setting: &Setting, symbols: &'a [Symbol]) -> ReadCorner<'a>
    requires { AreSymbols setting.now.text.now symbols.now }
    ensures gives { Gives (λ x. (corner_of x.0, x.1.now)) result
        (inner_at (seen setting.now) symbols.now) }
    ensures on_sheet { IfOk result (λ x. x.0.row < ROWS × x.0.column < COLUMNS) }
    ensures rest { IfOk result (λ x. AreSymbols setting.now.text.now x.1.now) }
{
    let Some((symbol, rest)) = setting.first(symbols) else {
        return Err(Stop::Syntax);
    };
    match symbol.sign {
        Sign::Point => address(setting, Given::Own, rest),
        Sign::Word => inner_word(alloc, setting, symbol, rest),
        _ => behind_sheet(alloc, setting, symbol, rest),
    }
}
