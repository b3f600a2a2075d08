// Reading the sheet before an address.
ghost use Rattle.std.specs.Prelude.{◌≡◌, ◌||◌, ◌==◌, IfOk, IsTrue, OnErr, option_map, string_bytes};
ghost use Rattle.std.specs.List.{list_all};
ghost use Rattle.cell_refs.specs.Names.{begins_word, goes_on_word};
ghost use Rattle.cell_refs.specs.Sheets.{SheetsAreSpelled, is_sheet_word, may_spell_sheet, sheet_in, unquoted};

use crate::address::without_dollar;
use crate::print::{begins, goes_on};
use std::alloc::{AllocError, Global};

/// The name of the sheet that stands before an address, as `plan`, `$plan` or `'My Plan'`. `None` where the text
/// spells none.
pub fn sheet_name(alloc: Global, text: &str) -> Result<Option<String>, AllocError>
    ensures name { IfOk result (λ name. option_map string_bytes name ≡ sheet_in text.now) }
    ensures memory { OnErr result (IsTrue (may_spell_sheet text.now)) }
{
    let name = without_dollar(text);
    if is_sheet_word(text.as_bytes()) {
        return Ok(Some(String::from_str(alloc, name)?));
    }
    match name.strip_prefix('\'') {
        Some(quoted) => without_quotes(alloc, quoted),
        None => Ok(None),
    }
}

/// A sheet is read before an address exactly where it is spelled there.
pub fn sheets_are_spelled()
    ensures { SheetsAreSpelled }
{}

// Whether the text is a word without a point.
fn is_sheet_word(text: &[u8]) -> bool
    ensures { result ≡ is_sheet_word text.now }
{
    match text {
        [] => false,
        [first, rest @ ..] => begins_sheet(*first) && goes_on_to_end(rest),
    }
}

// Whether the byte begins a word.
fn begins_sheet(b: u8) -> bool
    ensures { result ≡ (begins_word b || b == 36) }
{
    begins(b) || b == b'$'
}

// Whether each byte goes on a word.
fn goes_on_to_end(text: &[u8]) -> bool
    ensures { result ≡ list_all (λ c. goes_on_word c || c == 36) text.now }
{
    text.iter().all(|b| goes_on(*b) || *b == b'$')
}

// A name that ends with its closing quote, where each quote in the name is doubled.
fn without_quotes(alloc: Global, text: &str) -> Result<Option<String>, AllocError>
    ensures { IfOk result (λ name. option_map string_bytes name ≡ unquoted text.now) }
{
    let mut name = String::new(alloc);
    let mut is_behind_quote = false;
    for c in text.chars() {
        if c != '\'' {
            if is_behind_quote {
                return Ok(None);
            }
            name.push(c)?;
        } else if is_behind_quote {
            name.push(c)?;
            is_behind_quote = false;
        } else {
            is_behind_quote = true;
        }
    }
    if !is_behind_quote {
        return Ok(None);
    }
    Ok(Some(name))
}
