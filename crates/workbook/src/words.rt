// What texts begin with, and which of them are names.
ghost use Rattle.std.specs.Prelude.{◌≡◌, if◌then◌else◌};
ghost use Rattle.std.specs.List.{list_all};
ghost use Rattle.cell_refs.specs.Names.{begins_word};
ghost use Rattle.formula_grammar.specs.Words.{logical_word};
ghost use Rattle.sheet_funcs.specs.Numerals.{number_spelled};
ghost use Rattle.workbook.specs.Files.{goes_on_name, is_name, is_word};
ghost use Rattle.workbook.specs.Kinds.{behind_equals};
ghost use Rattle.workbook.specs.State.{is_formula_text};

use cell_refs::read_address;
use frac128::Frac;

/// Whether the text begins a formula.
pub(crate) fn is_formula(text: &str) -> bool
    ensures { result ≡ is_formula_text text.now }
{
    match text.as_bytes() {
        [b'=', ..] => true,
        [b'o', b'f', b':', b'=', ..] => true,
        _ => false,
    }
}

/// What stands behind an equals sign, where there is one.
pub fn behind_equals(text: &str) -> &str
    ensures { result.now ≡ behind_equals text.now }
{
    match text.strip_prefix('=') {
        Some(rest) => rest,
        None => text,
    }
}

/// The number that a text is.
pub(crate) fn number(text: &str) -> Option<Frac>
    ensures { result ≡ number_spelled text.now }
{
    match Frac::read(text) {
        Ok(number) => Some(number),
        Err(_) => None,
    }
}

/// TRUE or FALSE, in any case of letters.
pub(crate) fn logical(text: &str) -> Option<bool>
    ensures { result ≡ logical_word text.now }
{
    if text.eq_ignore_ascii_case("TRUE") {
        Some(true)
    } else if text.eq_ignore_ascii_case("FALSE") {
        Some(false)
    } else {
        None
    }
}

/// Whether the text is a name: a word that is no address and neither TRUE nor FALSE.
pub(crate) fn is_name(text: &str) -> bool
    ensures { result ≡ is_name text.now }
{
    is_word(text.as_bytes()) && read_address(text).is_none() && logical(text).is_none()
}

// Whether the bytes are a word.
fn is_word(bytes: &[u8]) -> bool
    ensures { result ≡ is_word bytes.now }
{
    match bytes {
        [] => false,
        [first, rest @ ..] => begins_word(*first) && all_go_on(rest),
    }
}

// Whether a byte begins a word.
fn begins_word(byte: u8) -> bool
    ensures { result ≡ begins_word byte }
{
    byte.is_ascii_alphabetic() || byte >= 128 || byte == b'_'
}

// Whether each byte goes on with a name.
fn all_go_on(bytes: &[u8]) -> bool
    ensures { result ≡ list_all goes_on_name bytes.now }
{
    for byte in bytes {
        if !goes_on_name(*byte) {
            return false;
        }
    }
    true
}

// Whether a byte goes on with a name.
fn goes_on_name(byte: u8) -> bool
    ensures { result ≡ goes_on_name byte }
{
    begins_word(byte) || byte.is_ascii_digit() || byte == b'.'
}

/// One where it holds, and else none.
pub(crate) fn one(holds: bool) -> usize
    ensures { result ≡ (if holds then 1 else 0) }
{
    if holds { 1 } else { 0 }
}
