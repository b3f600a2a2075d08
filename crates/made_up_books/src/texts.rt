// Texts: numbers, addresses, areas and sums.
ghost use Rattle.std.specs.Prelude.{◌≡◌, ◌<◌, ◌≤◌, ◌++◌, IfOk, OnOk, codes, decimal, length, string_bytes};
ghost use Rattle.cell_refs.specs.Address.{address_text};
ghost use Rattle.made_up_books.specs.MadeUp.{absolute_address_text, absolute_area_text, area_text, sum_of};

use cell_refs::print_address;
use itoa::Buffer;
use memory::Memory;
use std::alloc::Global;

/// A whole number in its digits.
pub(crate) fn number(alloc: Global, number: u16) -> Result<String, Memory>
    ensures digits { IfOk result (λ text. string_bytes text ≡ decimal number) }
    ensures short { IfOk result (λ text. length (string_bytes text) ≤ 100) }
{
    let mut digits = Buffer::new();
    Ok(String::from_str(alloc, digits.format(number))?)
}

/// The address of a cell, by its row and its column from 0.
pub(crate) fn address(alloc: Global, row: u16, col: u16) -> Result<String, Memory>
    ensures { IfOk result (λ text. string_bytes text ≡ address_text row col) }
{
    let mut text = String::new(alloc);
    print_address(row, col, &mut text)?;
    Ok(text)
}

/// An area, by the rows and columns of its first cell and its last.
pub(crate) fn area(
    alloc: Global,
    top: u16,
    left: u16,
    bottom: u16,
    right: u16,
) -> Result<String, Memory>
    requires left { left < 26 }
    requires right { right < 26 }
    ensures text { IfOk result (λ text. string_bytes text ≡ area_text top left bottom right) }
    ensures short { IfOk result (λ text. length (string_bytes text) ≤ 100) }
{
    let mut text = address(alloc, top, left)?;
    text.push_str(":")?;
    print_address(bottom, right, &mut text)?;
    Ok(text)
}

/// The sum of an area.
pub(crate) fn sum(alloc: Global, area: &str) -> Result<String, Memory>
    requires { length area.now ≤ 100 }
    ensures text { IfOk result (λ text. string_bytes text ≡ sum_of area.now) }
    ensures short { IfOk result (λ text. length (string_bytes text) ≤ 1000) }
{
    let mut text = String::from_str(alloc, "=SUM(")?;
    text.push_str(area)?;
    text.push_str(")")?;
    Ok(text)
}

/// The sum of the products of the cells of two areas.
pub(crate) fn sum_of_products(alloc: Global, first: &str, second: &str) -> Result<String, Memory>
    requires first { length first.now ≤ 100 }
    requires second { length second.now ≤ 100 }
    ensures text { IfOk result (λ text. string_bytes text
        ≡ codes "=SUMPRODUCT(" ++ (first.now ++ (codes ";" ++ (second.now ++ codes ")")))) }
    ensures short { IfOk result (λ text. length (string_bytes text) ≤ 1000) }
{
    let mut text = String::from_str(alloc, "=SUMPRODUCT(")?;
    text.push_str(first)?;
    text.push_str(";")?;
    text.push_str(second)?;
    text.push_str(")")?;
    Ok(text)
}

/// The absolute address of a cell, by its row and its column from 0.
pub(crate) fn absolute_address(alloc: Global, row: u16, col: u16) -> Result<String, Memory>
    requires { col < 26 }
    ensures text { IfOk result (λ text. string_bytes text ≡ absolute_address_text row col) }
    ensures short { IfOk result (λ text. length (string_bytes text) ≤ 100) }
{
    let mut text = String::new(alloc);
    print_absolute(row, col, &mut text)?;
    Ok(text)
}

/// An area by absolute addresses, by the rows and columns of its first cell and its last.
pub(crate) fn absolute_area(
    alloc: Global,
    top: u16,
    left: u16,
    bottom: u16,
    right: u16,
) -> Result<String, Memory>
    requires left { left < 26 }
    requires right { right < 26 }
    ensures text { IfOk result (λ text. string_bytes text
        ≡ absolute_area_text top left bottom right) }
    ensures short { IfOk result (λ text. length (string_bytes text) ≤ 100) }
{
    let mut text = absolute_address(alloc, top, left)?;
    if top == bottom && left == right {
        return Ok(text);
    }
    text.push_str(":")?;
    print_absolute(bottom, right, &mut text)?;
    Ok(text)
}

// Appends an absolute address whose column is a single letter.
fn print_absolute(row: u16, col: u16, to: &mut String) -> Result<(), Memory>
    requires { col < 26 }
    ensures { OnOk result (string_bytes to.new
        ≡ string_bytes to.old ++ absolute_address_text row col) }
{
    let mut digits = Buffer::new();
    to.push_str("$")?;
    to.push((65 + col) as u8 as char)?;
    to.push_str("$")?;
    to.push_str(digits.format(u32::from(row) + 1))?;
    Ok(())
}
