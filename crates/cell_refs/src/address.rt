// Reading an address.
ghost use Rattle.std.specs.Prelude.{◌≡◌, ◌+◌, ◌<◌, ◌*◌, ◌-◌, min, ℕ, IfSome, IfNone, take};
ghost use Rattle.std.specs.Char.{is_ascii_alphabetic};
ghost use Rattle.std.specs.List.{prefix_len};
ghost use Rattle.std.specs.Str.Parse.{AllDigits, digits_value};
ghost use Rattle.cell_refs.specs.Address.{IsAddress, address_in, column_number, letter_count_of, without_dollar};

use crate::{COLUMNS, ROWS};

/// The row and the column of an address, from 0, as `$B2` or `aa10`. `None` where the text is no address of a cell
/// of a sheet.
pub fn read_address(text: &str) -> Option<(u16, u16)>
    ensures address { IfSome result (λ a. IsAddress text.now a.0 a.1) }
    ensures none { IfNone result ((row column : ℕ) → ¬ (IsAddress text.now row column)) }
    ensures reading { result ≡ address_in text.now }
{
    row_and_column(text.as_bytes())
}

// The row and the column of an address, from 0.
fn row_and_column(text: &[u8]) -> Option<(u16, u16)>
    ensures address { IfSome result (λ a. IsAddress text.now a.0 a.1) }
    ensures none { IfNone result ((row column : ℕ) → ¬ (IsAddress text.now row column)) }
{
    let behind = skip_dollar(text);
    let letters = count_letters(behind);
    let column = number_of_column(&behind[..letters]);
    let row = number_of_row(skip_dollar(&behind[letters..]))?;
    if row == 0 || row > ROWS || column == 0 || column > COLUMNS {
        return None;
    }
    Some((row - 1, column - 1))
}

/// The text behind a dollar sign, if one leads it.
pub fn without_dollar(text: &str) -> &str
    ensures { result.now ≡ without_dollar text.now }
{
    match text.strip_prefix('$') {
        Some(rest) => rest,
        None => text,
    }
}

/// The bytes behind a dollar sign, if one leads them.
pub fn skip_dollar(text: &[u8]) -> &[u8]
    ensures { result.now ≡ without_dollar text.now }
{
    match text {
        [b'$', rest @ ..] => rest,
        _ => text,
    }
}

// How many letters the text begins with.
fn count_letters(text: &[u8]) -> usize
    ensures { result ≡ prefix_len is_ascii_alphabetic text.now }
{
    for (i, byte) in text.iter().enumerate() {
        if !byte.is_ascii_alphabetic() {
            return i;
        }
    }
    text.len()
}

// The number of the column with these letters, from 1, or one past the last column.
fn number_of_column(letters: &[u8]) -> u16
    ensures { result ≡ min (column_number letters.now) (COLUMNS + 1) }
{
    let mut number = 0;
    for letter in letters {
        let letter = letter.to_ascii_uppercase().saturating_sub(64);
        number = (26 * number + u16::from(letter)).min(COLUMNS + 1);
    }
    number
}

// The number that the digits write, or one past the last row.
fn number_of_row(digits: &[u8]) -> Option<u16>
    ensures number { IfSome result (λ n. n ≡ min (digits_value 10 digits.now) (ROWS + 1)) }
    ensures digits { IfSome result (λ _. AllDigits 10 digits.now) }
    ensures none { IfNone result (¬ (AllDigits 10 digits.now)) }
{
    let mut number = 0;
    for digit in digits {
        if !digit.is_ascii_digit() {
            return None;
        }
        number = (10 * number + u16::from(*digit - 48)).min(ROWS + 1);
    }
    Some(number)
}
