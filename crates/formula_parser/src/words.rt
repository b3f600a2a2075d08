// What single symbols say.
ghost use Rattle.std.specs.Prelude.{◌≡◌, ◌<◌, IfOk, option_map, string_bytes};
ghost use Rattle.formula_grammar.specs.Words.{error_in, inside, logical_word, quoted_text, sheet_of};
ghost use Rattle.formula_grammar.specs.WordReading.{at_last_point};
ghost use Rattle.cell_refs.specs.Names.{same_letters};
ghost use Rattle.formula_parser.specs.Placed.{IsInText};
ghost use Rattle.formula_parser.specs.Settings.{seen};

use crate::setting::Setting;
use cell_refs::{ErrorKind, sheet_name};
use formula_grammar::{Sign, Symbol};
use std::alloc::{AllocError, Global};

/// Whether two texts are the same but for the case of their ASCII letters.
pub fn is_same(text: &str, name: &str) -> bool
    ensures { result ≡ same_letters text.now name.now }
{
    text.eq_ignore_ascii_case(name)
}

/// TRUE or FALSE, in any case of letters.
pub fn logical(word: &str) -> Option<bool>
    ensures { result ≡ logical_word word.now }
{
    if is_same(word, "TRUE") {
        Some(true)
    } else if is_same(word, "FALSE") {
        Some(false)
    } else {
        None
    }
}

/// The error of this name.
pub fn error(name: &str) -> Option<ErrorKind>
    ensures { result ≡ error_in name.now }
{
    if is_same(name, ErrorKind::Div0.text()) {
        Some(ErrorKind::Div0)
    } else if is_same(name, ErrorKind::Value.text()) {
        Some(ErrorKind::Value)
    } else if is_same(name, ErrorKind::Ref.text()) {
        Some(ErrorKind::Ref)
    } else if is_same(name, ErrorKind::Num.text()) {
        Some(ErrorKind::Num)
    } else if is_same(name, ErrorKind::NotAvailable.text()) {
        Some(ErrorKind::NotAvailable)
    } else {
        None
    }
}

/// What stands before the last point of a word, and behind it.
pub fn at_last_point(word: &str) -> Option<(&str, &str)>
    ensures { option_map (λ p. (p.0.now, p.1.now)) result ≡ at_last_point word.now }
{
    word.rsplit_once('.')
}

/// What stands before the closing quote of a text behind its opening quote, each doubled quote as one.
pub fn inside(alloc: Global, quote: char, text: &str) -> Result<String, AllocError>
    requires { quote < 128 }
    ensures { IfOk result (λ t. string_bytes t ≡ inside quote text.now) }
{
    let mut content = String::new(alloc);
    let mut is_behind_quote = false;
    for c in text.chars() {
        if c != quote {
            if is_behind_quote {
                return Ok(content);
            }
            content.push(c)?;
        } else if is_behind_quote {
            content.push(c)?;
            is_behind_quote = false;
        } else {
            is_behind_quote = true;
        }
    }
    Ok(content)
}

/// The text of a symbol in double quotes.
pub fn quoted_text(alloc: Global, symbol: &str) -> Result<String, AllocError>
    ensures { IfOk result (λ t. string_bytes t ≡ quoted_text symbol.now) }
{
    match symbol.strip_prefix('"') {
        Some(behind) => inside(alloc, '"', behind),
        None => Ok(String::new(alloc)),
    }
}

/// The sheet's name that a symbol is: a word without a point, or a text in single quotes.
pub fn sheet_of(
    alloc: Global,
    setting: &Setting,
    symbol: Symbol,
) -> Result<Option<String>, AllocError>
    requires { IsInText setting.now.text.now symbol }
    ensures { IfOk result (λ name. option_map string_bytes name
        ≡ sheet_of (seen setting.now) symbol) }
{
    match symbol.sign {
        Sign::Word | Sign::Quoted => sheet_name(alloc, setting.slice(symbol)),
        _ => Ok(None),
    }
}
