// Printing an address and a cell.
ghost use Rattle.std.specs.Prelude.{◌≡◌, ◌<◌, ◌+◌, ◌++◌, ◌∷◌, [], length, OnErr, OnOk, IfSome, slice_get, string_bytes, encode_utf8};
ghost use Rattle.std.specs.List.{list_all};
ghost use Rattle.cell_refs.specs.Address.{IsAddress, address_text, column_number, column_text};
ghost use Rattle.cell_refs.specs.Names.{begins_word, cell_text, doubled, goes_on_word, is_plain, name_text};
ghost use Rattle.cell_refs.specs.declared.limits.TheConstants.{COLUMNS, ROWS};

use crate::{Cell, SheetNames};
use itoa::Buffer;
use memory::Memory;

/// Appends the address of a row and a column, from 0: `A2` of 1 and 0.
pub fn print_address(row: u16, col: u16, to: &mut String) -> Result<(), Memory>
    ensures ok { OnOk result (string_bytes to.new ≡ string_bytes to.old ++ address_text row col) }
    ensures err { OnErr result (string_bytes to.new ≡ string_bytes to.old) }
    ensures column { column_number (column_text col) ≡ col + 1 }
    ensures reads_back { row < ROWS → col < COLUMNS → IsAddress (address_text row col) row col }
{
    let mut address = String::new(*to.allocator());
    append_address(row, col, &mut address)?;
    to.push_str(address.as_str())?;
    Ok(())
}

/// Appends a cell: its sheet, an exclamation mark, and its address, as `plan!A2`. A name that is no plain word
/// stands in quotes.
pub fn print_cell(cell: &Cell, sheets: &SheetNames, to: &mut String) -> Result<(), Memory>
    requires { cell.now.sheet.0 < length sheets.now }
    ensures ok { OnOk result (IfSome (slice_get sheets.now cell.now.sheet.0) (λ name.
        string_bytes to.new ≡ string_bytes to.old ++ cell_text name cell.now.row cell.now.col)) }
    ensures err { OnErr result (string_bytes to.new ≡ string_bytes to.old) }
{
    let mut text = String::new(*to.allocator());
    print_name(sheets.at(cell.sheet), &mut text)?;
    text.push_str("!")?;
    append_address(cell.row, cell.col, &mut text)?;
    to.push_str(text.as_str())?;
    Ok(())
}

// Appends an address, or a part of it.
fn append_address(row: u16, col: u16, to: &mut String) -> Result<(), Memory>
    ensures { OnOk result (string_bytes to.new ≡ string_bytes to.old ++ address_text row col) }
{
    print_column(col, to)?;
    let mut buffer = Buffer::new();
    to.push_str(buffer.format(u32::from(row) + 1))?;
    Ok(())
}

// Appends the letters of a column, or a part of them.
fn print_column(col: u16, to: &mut String) -> Result<(), Memory>
    ensures { OnOk result (string_bytes to.new ≡ string_bytes to.old ++ column_text col) }
{
    if col < 26 {
        return print_letter(col, to);
    }
    print_column(col / 26 - 1, to)?;
    print_letter(col % 26, to)
}

// Appends a letter, by its number from 0.
fn print_letter(number: u16, to: &mut String) -> Result<(), Memory>
    requires { number < 26 }
    ensures { OnOk result (string_bytes to.new ≡ string_bytes to.old ++ (65 + number) ∷ []) }
{
    to.push((65 + number) as u8 as char)?;
    Ok(())
}

// Appends a sheet's name.
fn print_name(name: &str, to: &mut String) -> Result<(), Memory>
    ensures { OnOk result (string_bytes to.new ≡ string_bytes to.old ++ name_text name.now) }
{
    if is_plain_word(name.as_bytes()) {
        to.push_str(name)?;
        return Ok(());
    }
    to.push_str("'")?;
    print_doubled(name, to)?;
    to.push_str("'")?;
    Ok(())
}

// Whether the name needs no quotes.
fn is_plain_word(name: &[u8]) -> bool
    ensures { result ≡ is_plain name.now }
{
    match name {
        [] => false,
        [first, rest @ ..] => begins(*first) && goes_on_to_end(rest),
    }
}

// Whether each byte goes on a word.
fn goes_on_to_end(name: &[u8]) -> bool
    ensures { result ≡ list_all goes_on_word name.now }
{
    name.iter().all(|b| goes_on(*b))
}

// A letter, a character past ASCII, or an underscore.
pub(crate) fn begins(b: u8) -> bool
    ensures { result ≡ begins_word b }
{
    b.is_ascii_alphabetic() || b >= 128 || b == b'_'
}

// The same, or a digit.
pub(crate) fn goes_on(b: u8) -> bool
    ensures { result ≡ goes_on_word b }
{
    begins(b) || b.is_ascii_digit()
}

// Appends the text with each quote doubled.
fn print_doubled(text: &str, to: &mut String) -> Result<(), Memory>
    ensures { OnOk result (string_bytes to.new ≡ string_bytes to.old ++ doubled text.now) }
{
    for c in text.chars() {
        print_char(c, to)?;
    }
    Ok(())
}

// Appends a character, or two for a quote.
#[tactic(auto, using(crate::proofs::NamesLemmas::doubled_other))]
fn print_char(c: char, to: &mut String) -> Result<(), Memory>
    ensures { OnOk result (string_bytes to.new ≡ string_bytes to.old ++ doubled (encode_utf8 c)) }
{
    if c == '\'' {
        to.push_str("''")?;
        return Ok(());
    }
    to.push(c)?;
    Ok(())
}
