// The sheet before an address, found with no copy of its name.
ghost use Rattle.std.specs.Prelude.{◌≡◌, ◌==◌, ◌||◌, ◌<◌, ◌∷◌, [], IfNone, IfSome, false, is_some, length, option_and_then, option_map};
ghost use Rattle.std.specs.List.{list_all};
ghost use Rattle.std.specs.Option.{option_map_or};
ghost use Rattle.cell_refs.specs.Names.{begins_word, goes_on_word, place_in, same_letters};
ghost use Rattle.cell_refs.specs.Sheets.{in_quotes, is_sheet_word, sheet_in, unquoted};

use cell_refs::{SheetId, SheetNames, without_dollar};

/// The sheet that stands before an address, as `plan`, `$plan` or `'My Plan'`: nothing where the text spells no name, and
/// `Some(None)` where no sheet has the name that it spells.
pub(crate) fn sheet_before(sheets: &SheetNames, text: &str) -> Option<Option<SheetId>>
    ensures place { option_map (option_map (λ s. s.0)) result
        ≡ option_map (place_in sheets.now) (sheet_in text.now) }
    ensures listed { IfSome result (λ found. IfSome found (λ s. s.0 < length sheets.now)) }
{
    let name = without_dollar(text);
    if is_sheet_word(text.as_bytes()) {
        return Some(sheets.find(name));
    }
    sheet_in_quotes(sheets, name.as_bytes())
}

// The sheet whose name stands in single quotes before an address.
#[tactic(auto, using(crate::proofs::Naming::closed_name, crate::proofs::Naming::open_name, crate::proofs::Naming::no_quotes))]
fn sheet_in_quotes(sheets: &SheetNames, text: &[u8]) -> Option<Option<SheetId>>
    ensures place { option_map (option_map (λ s. s.0)) result
        ≡ option_map (place_in sheets.now) (in_quotes text.now) }
    ensures listed { IfSome result (λ found. IfSome found (λ s. s.0 < length sheets.now)) }
{
    match text {
        [b'\'', quoted @ ..] => {
            if is_closed(quoted) {
                Some(find_quoted(sheets, quoted))
            } else {
                None
            }
        }
        _ => None,
    }
}

// Whether the text is a word without a point.
fn is_sheet_word(text: &[u8]) -> bool
    ensures { result ≡ is_sheet_word text.now }
{
    match text {
        [] => false,
        [first, rest @ ..] => begins_sheet(*first) && goes_on_to_end(rest),
    }
}

// Whether the byte begins a word: a letter, a part of a character past ASCII, an underscore, or a dollar sign.
fn begins_sheet(b: u8) -> bool
    ensures { result ≡ (begins_word b || b == 36) }
{
    b.is_ascii_alphabetic() || b >= 128 || b == b'_' || b == b'$'
}

// Whether each byte goes on a word: one of these, or a digit.
fn goes_on_to_end(text: &[u8]) -> bool
    ensures { result ≡ list_all (λ c. goes_on_word c || c == 36) text.now }
{
    text.iter().all(|b| begins_sheet(*b) || b.is_ascii_digit())
}

// Whether the text ends with its closing quote, and has two quotes for each in the name before it.
fn is_closed(text: &[u8]) -> bool
    ensures { result ≡ is_some (unquoted text.now) }
{
    let mut is_behind_quote = false;
    for byte in text {
        if *byte == b'\'' {
            is_behind_quote = !is_behind_quote;
        } else if is_behind_quote {
            return false;
        }
    }
    is_behind_quote
}

// The sheet whose name stands behind the opening quote.
fn find_quoted(sheets: &SheetNames, text: &[u8]) -> Option<SheetId>
    ensures place { option_map (λ s. s.0) result
        ≡ option_and_then (place_in sheets.now) (unquoted text.now) }
    ensures listed { IfSome result (λ s. s.0 < length sheets.now) }
{
    for place in 0..sheets.len() {
        let sheet = SheetId(place as u8);
        if is_quoted(sheets.at(sheet).as_bytes(), text) {
            return Some(sheet);
        }
    }
    None
}

// Whether this name, or one that differs in the case of its letters alone, stands behind the opening quote.
fn is_quoted(name: &[u8], text: &[u8]) -> bool
    ensures { result ≡ option_map_or (same_letters name.now) (unquoted text.now) false }
{
    let mut left = text;
    for own in name {
        let Some((byte, later)) = next_quoted(left) else {
            return false;
        };
        if !own.eq_ignore_ascii_case(&byte) {
            return false;
        }
        left = later;
    }
    is_closing(left)
}

// The next byte of a name in quotes, and what is left behind it; nothing where the name has ended.
fn next_quoted(text: &[u8]) -> Option<(u8, &[u8])>
    ensures some { IfSome result (λ p. unquoted text.now
        ≡ option_map (λ name. p.0 ∷ name) (unquoted p.1.now)) }
    ensures none { IfNone result (IfSome (unquoted text.now) (λ name. name ≡ [])) }
{
    let [byte, later @ ..] = text else {
        return None;
    };
    if *byte != b'\'' {
        return Some((*byte, later));
    }
    let [b'\'', behind @ ..] = later else {
        return None;
    };
    Some((b'\'', behind))
}

// Whether a name ends here: the text is its closing quote.
#[tactic(auto, using(crate::proofs::Naming::not_closing))]
fn is_closing(text: &[u8]) -> bool
    ensures { result ≡ option_map_or (same_letters []) (unquoted text.now) false }
{
    match text {
        [b'\''] => true,
        _ => false,
    }
}
