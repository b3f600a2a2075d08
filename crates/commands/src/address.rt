// Reading an address with its sheet.
ghost use Rattle.std.specs.Prelude.{◌≡◌, ◌<◌, ◌≤◌, ℕ, IfNone, IfOk, IfSome, false, length, option_map, slice_index, true};
ghost use Rattle.std.specs.Char.{is_ascii_alphabetic, is_ascii_digit};
ghost use Rattle.std.specs.List.{list_all, prefix_len};
ghost use Rattle.commands.specs.Addresses.{at_last_mark, is_mark, is_place};
ghost use Rattle.cell_refs.specs.Units.{is_number};

use cell_refs::skip_dollar;

/// What stands before the last mark, and behind it.
pub(crate) fn at_last_mark(text: &str) -> Option<(&str, &str)>
    ensures { option_map (λ p. (p.0.now, p.1.now)) result ≡ at_last_mark text.now }
{
    let Some(place) = last_mark(text.as_bytes()) else {
        return None;
    };
    Some((&text[..place], &text[place + 1..]))
}

// The place of the last mark.
fn last_mark(text: &[u8]) -> Option<usize>
    ensures within { IfSome result (λ i. i < length text.now) }
    ensures mark { IfSome result (λ i. is_mark (slice_index text.now i) ≡ true) }
    ensures last { IfSome result (λ i. (k : ℕ) → i < k
        → k < length text.now → is_mark (slice_index text.now k) ≡ false) }
    ensures none { IfNone result ((k : ℕ) → k < length text.now
        → is_mark (slice_index text.now k) ≡ false) }
{
    let mut last = None;
    for (i, byte) in text.iter().enumerate() {
        if is_mark(*byte) {
            last = Some(i);
        }
    }
    last
}

// An exclamation mark or a point.
fn is_mark(byte: u8) -> bool
    ensures { result ≡ is_mark byte }
{
    byte == b'!' || byte == b'.'
}

/// Whether the text is letters and digits, at least one of each, with dollar signs before them or none.
pub(crate) fn is_place(text: &str) -> bool
    ensures { result ≡ is_place text.now }
{
    has_letters_and_digits(text.as_bytes())
}

// Whether the bytes are letters and digits, at least one of each, with dollar signs before them or none.
fn has_letters_and_digits(text: &[u8]) -> bool
    ensures { result ≡ is_place text.now }
{
    let behind = skip_dollar(text);
    let letters = count_letters(behind);
    letters > 0 && is_number(skip_dollar(&behind[letters..]))
}

// How many letters the text begins with.
fn count_letters(text: &[u8]) -> usize
    ensures count { result ≡ prefix_len is_ascii_alphabetic text.now }
    ensures within { result ≤ length text.now }
{
    for (i, byte) in text.iter().enumerate() {
        if !byte.is_ascii_alphabetic() {
            return i;
        }
    }
    text.len()
}

// Whether these are digits, at least one.
#[tactic(auto, using(crate::proofs::Marks::all_digits))]
fn is_number(digits: &[u8]) -> bool
    ensures { result ≡ is_number digits.now }
{
    !digits.is_empty() && are_digits(digits)
}

// Whether each byte is a digit.
fn are_digits(digits: &[u8]) -> bool
    ensures { result ≡ list_all is_ascii_digit digits.now }
{
    digits.iter().all(|b| b.is_ascii_digit())
}
