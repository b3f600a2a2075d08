// The lines of refusals with parts.
ghost use Rattle.std.specs.Prelude.{◌≡◌, ◌++◌, All, OnOk, codes, decimal, map, string_bytes};
ghost use Rattle.std.specs.Fmt.{signed_decimal};
ghost use Rattle.std.specs.List.{AllByRecursion, join_with_byte};
ghost use Rattle.cell_refs.specs.Listed.{IsListed};
ghost use Rattle.model_lines.specs.Cells.{cell_with_sheet};
ghost use Rattle.commands.specs.Preceded.{preceded};
ghost use Rattle.commands.specs.Refusals.{FaultIsListed, PlaceIsListed, RefusalIsListed, StepIsListed, names_text, path_text, pivot_text, place_text, refusal_text, sign_text, span_text, step_text};

use crate::answer::PathStep;
use cell_refs::{Cell, SheetNames, Span, print_cell};
use form_needs::FormRefusal;
use itoa::Buffer;
use sheet_model::Memory;
use solver_names::NamesFault;
use workbook::Place;

// ---- parts

/// Appends a text as it is.
pub(crate) fn say_text(text: &str, to: &mut String) -> Result<(), Memory>
    ensures { OnOk result (string_bytes to.new ≡ string_bytes to.old ++ text.now) }
{
    to.push_str(text)?;
    Ok(())
}

// Appends a word and a text.
fn say_texts(word: &str, text: &str, to: &mut String) -> Result<(), Memory>
    ensures { OnOk result (string_bytes to.new ≡ string_bytes to.old ++ (word.now ++ text.now)) }
{
    to.push_str(word)?;
    to.push_str(text)?;
    Ok(())
}

/// Appends a word and a number.
pub(crate) fn say_number(word: &str, number: u64, to: &mut String) -> Result<(), Memory>
    ensures { OnOk result (string_bytes to.new
        ≡ string_bytes to.old ++ (word.now ++ decimal number)) }
{
    to.push_str(word)?;
    let mut digits = Buffer::new();
    to.push_str(digits.format(number))?;
    Ok(())
}

// Appends a number with its sign.
fn say_signed(number: i128, to: &mut String) -> Result<(), Memory>
    ensures { OnOk result (string_bytes to.new ≡ string_bytes to.old ++ signed_decimal number) }
{
    let mut digits = Buffer::new();
    to.push_str(digits.format(number))?;
    Ok(())
}

// Appends a cell with its sheet.
#[tactic(auto, using(model_lines::proofs::Cells::cell_said))]
fn say_cell(cell: &Cell, sheets: &SheetNames, to: &mut String) -> Result<(), Memory>
    requires { IsListed sheets.now cell.now }
    ensures { OnOk result (string_bytes to.new
        ≡ string_bytes to.old ++ cell_with_sheet sheets.now cell.now) }
{
    print_cell(cell, sheets, to)
}

/// Appends a word and a cell with its sheet.
pub(crate) fn say_with_cell(
    word: &str,
    cell: &Cell,
    sheets: &SheetNames,
    to: &mut String,
) -> Result<(), Memory>
    requires { IsListed sheets.now cell.now }
    ensures { OnOk result (string_bytes to.new
        ≡ string_bytes to.old ++ (word.now ++ cell_with_sheet sheets.now cell.now)) }
{
    to.push_str(word)?;
    say_cell(cell, sheets, to)
}

// ---- names

/// Appends a fault of the names.
pub(crate) fn say_names(
    fault: &NamesFault,
    sheets: &SheetNames,
    to: &mut String,
) -> Result<(), Memory>
    requires { FaultIsListed sheets.now fault.now }
    ensures { OnOk result (string_bytes to.new
        ≡ string_bytes to.old ++ (codes "refused names " ++ names_text sheets.now fault.now)) }
{
    to.push_str("refused names ")?;
    say_fault(fault, sheets, to)?;
    Ok(())
}

// Appends the number of a fault, and its parts.
fn say_fault(fault: &NamesFault, sheets: &SheetNames, to: &mut String) -> Result<(), Memory>
    requires { FaultIsListed sheets.now fault.now }
    ensures { OnOk result (string_bytes to.new
        ≡ string_bytes to.old ++ names_text sheets.now fault.now) }
{
    match fault {
        NamesFault::NoNames => say_text("1", to),
        NamesFault::BadReference(name) => say_texts("2 ", name.as_str(), to),
        NamesFault::MissingPart(constraint) => say_number("3 ", u64::from(*constraint), to),
        NamesFault::BadRelation(constraint, code) => say_code(*constraint, code.as_str(), to),
        NamesFault::SizeMismatch(constraint, left, right) => {
            say_sizes(*constraint, *left, *right, to)
        }
        NamesFault::NotDecision(constraint, cell) => {
            say_number("6 ", u64::from(*constraint), to)?;
            say_with_cell(" ", cell, sheets, to)
        }
        NamesFault::BadOption(name) => say_texts("7 ", name.as_str(), to),
        NamesFault::TooManyDecisions(count) => say_number("8 ", u64::from(*count), to),
        NamesFault::TooManyRows(count) => say_number("9 ", u64::from(*count), to),
        NamesFault::Memory => Err(Memory),
    }
}

// Appends a constraint and its code, between quotes.
fn say_code(constraint: u16, code: &str, to: &mut String) -> Result<(), Memory>
    ensures { OnOk result (string_bytes to.new ≡ string_bytes to.old
        ++ (codes "4 " ++ (decimal constraint ++ (codes " \"" ++ (code.now ++ codes "\""))))) }
{
    say_number("4 ", u64::from(constraint), to)?;
    say_texts(" \"", code, to)?;
    say_text("\"", to)
}

// Appends a constraint and the numbers of cells of its sides.
fn say_sizes(constraint: u16, left: u32, right: u32, to: &mut String) -> Result<(), Memory>
    ensures { OnOk result (string_bytes to.new ≡ string_bytes to.old ++ (codes "5 "
        ++ (decimal constraint ++ (codes " " ++ (decimal left ++ (codes " " ++ decimal right)))))) }
{
    say_number("5 ", u64::from(constraint), to)?;
    say_number(" ", u64::from(left), to)?;
    say_number(" ", u64::from(right), to)
}

// ---- forms

/// Appends why a sheet has no linear model.
pub(crate) fn say_form(
    refusal: &FormRefusal,
    sheets: &SheetNames,
    to: &mut String,
) -> Result<(), Memory>
    requires { RefusalIsListed sheets.now refusal.now }
    ensures { OnOk result (string_bytes to.new
        ≡ string_bytes to.old ++ (codes "refused " ++ refusal_text sheets.now refusal.now)) }
{
    to.push_str("refused ")?;
    say_refusal(refusal, sheets, to)
}

// Appends the word of a refusal, and its parts.
fn say_refusal(refusal: &FormRefusal, sheets: &SheetNames, to: &mut String) -> Result<(), Memory>
    requires { RefusalIsListed sheets.now refusal.now }
    ensures { OnOk result (string_bytes to.new
        ≡ string_bytes to.old ++ refusal_text sheets.now refusal.now) }
{
    match refusal {
        FormRefusal::Malformed(cell) => say_with_cell("malformed ", cell, sheets, to),
        FormRefusal::Circular(place) => say_with_place("circular ", place, sheets, to),
        FormRefusal::NotAffine(place, at) => {
            say_with_place("not-affine ", place, sheets, to)?;
            say_span(*at, to)
        }
        FormRefusal::Undecided(place, at) => {
            say_with_place("undecided ", place, sheets, to)?;
            say_span(*at, to)
        }
        FormRefusal::Wide(place) => say_with_place("wide ", place, sheets, to),
        FormRefusal::NotNumber(place) => say_with_place("not-number ", place, sheets, to),
    }
}

// Appends a word and a place: a cell with its sheet, or a right side by its name.
fn say_with_place(
    word: &str,
    place: &Place,
    sheets: &SheetNames,
    to: &mut String,
) -> Result<(), Memory>
    requires { PlaceIsListed sheets.now place.now }
    ensures { OnOk result (string_bytes to.new
        ≡ string_bytes to.old ++ (word.now ++ place_text sheets.now place.now)) }
{
    to.push_str(word)?;
    match place {
        Place::Cell(cell) => say_cell(cell, sheets, to),
        Place::Side(constraint) => say_number("solver_rhs", u64::from(*constraint), to),
    }
}

// Appends a space and a place in a text.
fn say_span(at: Span, to: &mut String) -> Result<(), Memory>
    ensures { OnOk result (string_bytes to.new
        ≡ string_bytes to.old ++ (codes " " ++ span_text at)) }
{
    say_number(" ", u64::from(at.start), to)?;
    say_number("-", u64::from(at.end), to)
}

// ---- pivots

/// Appends a pivot that isn't narrow: the path to the node, the basis, and the row and the column.
pub(crate) fn say_pivot(
    path: &[PathStep],
    basis: &[u16],
    place: (u16, u16),
    sheets: &SheetNames,
    to: &mut String,
) -> Result<(), Memory>
    requires { All (StepIsListed sheets.now) path.now }
    ensures { OnOk result (string_bytes to.new ≡ string_bytes to.old ++ (codes "refused wide-pivot "
        ++ pivot_text sheets.now path.now basis.now place.0 place.1)) }
{
    to.push_str("refused wide-pivot ")?;
    say_path(path, sheets, to)?;
    to.push_str(" basis ")?;
    say_basis(basis, to)?;
    say_number(" at ", u64::from(place.0), to)?;
    say_number(" ", u64::from(place.1), to)?;
    Ok(())
}

// Appends the steps from the root, with commas between them.
fn say_path(path: &[PathStep], sheets: &SheetNames, to: &mut String) -> Result<(), Memory>
    requires { AllByRecursion (StepIsListed sheets.now) path.now }
    ensures { OnOk result (string_bytes to.new
        ≡ string_bytes to.old ++ path_text sheets.now path.now) }
{
    let [first, rest @ ..] = path else {
        return say_text("root", to);
    };
    say_step(first, sheets, to)?;
    say_further_steps(rest, sheets, to)?;
    Ok(())
}

// Appends steps, each behind a comma.
fn say_further_steps(steps: &[PathStep], sheets: &SheetNames, to: &mut String) -> Result<(), Memory>
    requires { AllByRecursion (StepIsListed sheets.now) steps.now }
    ensures { OnOk result (string_bytes to.new
        ≡ string_bytes to.old ++ preceded (map (step_text sheets.now) steps.now)) }
{
    match steps {
        [] => Ok(()),
        [first, rest @ ..] => {
            to.push_str(",")?;
            say_step(first, sheets, to)?;
            say_further_steps(rest, sheets, to)
        }
    }
}

// Appends a step: the cell, and the bound that it sets.
fn say_step(step: &PathStep, sheets: &SheetNames, to: &mut String) -> Result<(), Memory>
    requires { StepIsListed sheets.now step.now }
    ensures { OnOk result (string_bytes to.new
        ≡ string_bytes to.old ++ step_text sheets.now step.now) }
{
    say_cell(&step.cell, sheets, to)?;
    say_sign(step.upper, to)?;
    say_signed(step.bound, to)
}

// Appends the sign of an upper or a lower part.
fn say_sign(upper: bool, to: &mut String) -> Result<(), Memory>
    ensures { OnOk result (string_bytes to.new ≡ string_bytes to.old ++ sign_text upper) }
{
    to.push_str(if upper { ">=" } else { "<=" })?;
    Ok(())
}

// Appends the columns of a basis, with commas between them.
fn say_basis(basis: &[u16], to: &mut String) -> Result<(), Memory>
    ensures { OnOk result (string_bytes to.new
        ≡ string_bytes to.old ++ join_with_byte 44 (map decimal basis.now)) }
{
    let [first, rest @ ..] = basis else {
        return Ok(());
    };
    say_number("", u64::from(*first), to)?;
    say_further_columns(rest, to)?;
    Ok(())
}

// Appends columns, each behind a comma.
fn say_further_columns(columns: &[u16], to: &mut String) -> Result<(), Memory>
    ensures { OnOk result (string_bytes to.new
        ≡ string_bytes to.old ++ preceded (map decimal columns.now)) }
{
    match columns {
        [] => Ok(()),
        [first, rest @ ..] => {
            say_number(",", u64::from(*first), to)?;
            say_further_columns(rest, to)
        }
    }
}
