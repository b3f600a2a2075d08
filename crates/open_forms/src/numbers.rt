// The forms of places as numbers.
ghost use Rattle.std.specs.Prelude.{◌≡◌, All, IfOk, None, Some, map};
ghost use Rattle.std.specs.List.{AllZip};
ghost use Rattle.affine_forms.specs.Forms.{constant_form};
ghost use Rattle.cell_refs.specs.declared.cell.Cell.{Cell};
ghost use Rattle.form_extraction.specs.Places.{numbered_in};
ghost use Rattle.form_values.specs.declared.abs.Abs.TheVariants.{Known};
ghost use Rattle.fractions.specs.Rational.{zero_ℚ};
ghost use Rattle.recalculation.specs.Entries.{entry};
ghost use Rattle.sheet_linear_model.specs.Inner.{HasNumber, IsKeptFor, RowHasNumbers, number_for, number_in_form, number_said, number_unkept};
ghost use Rattle.form_needs.specs.FromSheetProblems.{HasForm, HasSides, number_form};
ghost use Rattle.solver_names.specs.Answers.{row_of, statement_of};
ghost use Rattle.solver_names.specs.Sides.{sides_in};
ghost use Rattle.workbook.specs.Contents.{kind_of};
ghost use Rattle.workbook.specs.Kinds.{book_of};
ghost use Rattle.cell_refs.specs.declared.place.Place.TheVariants as place;

use affine_forms::Form;
use cell_refs::Cell;
use extract_incr::Forms;
use form_extraction::CellForm;
use form_values::Abs;
use frac128::Frac;
use memory::Memory;
use sheet_model::Value;
use solver_names::{RowOf, Statement};
use std::alloc::Global;
use workbook::{Adj, Kind, Place, Workbook};

// The number that a known value is, where it is one: an empty one is 0.
fn number_known(alloc: Global, value: &Value) -> Option<Form>
    ensures { result ≡ number_form (Known value.now) }
{
    match value {
        Value::Number(number) => Some(Form::constant(alloc, *number)),
        Value::Empty => Some(Form::constant(alloc, Frac::zero())),
        Value::Text(_) | Value::Logical(_) | Value::Error(_) => None,
    }
}

// The number that a value is while some decisions are open, where it is one.
fn number_of(alloc: Global, value: &Abs) -> Result<Option<Form>, Memory>
    ensures { IfOk result (λ number. number ≡ number_form value.now) }
{
    match value {
        Abs::Affine(open) => Ok(Some(open.form.copy()?)),
        Abs::Known(known) => Ok(number_known(alloc, known)),
        Abs::Test(_, _) => Ok(None),
    }
}

// The number that the form of a place is, where it is one.
fn number_in_form(alloc: Global, form: &CellForm) -> Result<Option<Form>, Memory>
    ensures { IfOk result (λ number. number ≡ number_in_form form.now) }
{
    match form {
        CellForm::Form(value) => number_of(alloc, value),
        CellForm::Refused(_, _) | CellForm::Blocked(_) | CellForm::Circular | CellForm::Malformed =>
            Ok(None),
    }
}

// The number that the text of a cell is, where it is one; without a text it is 0.
fn number_of_kind(alloc: Global, kind: Kind) -> Option<Form>
    ensures { result ≡ number_said None kind }
{
    match kind {
        Kind::Empty => Some(Form::constant(alloc, Frac::zero())),
        Kind::Number(number) => Some(Form::constant(alloc, number)),
        Kind::Logical(_) | Kind::Plain | Kind::Formula | Kind::Malformed => None,
    }
}

// The number of a cell that is to be decided, or whose text is no formula.
fn number_said(alloc: Global, book: &Workbook, decisions: &Adj, cell: Cell) -> Option<Form>
    ensures { result
        ≡ number_said (numbered_in decisions.now cell) (kind_of (entry (book_of book.now) cell)) }
{
    match decisions.find(cell) {
        Some(number) => Some(Form::decision(alloc, number)),
        None => number_of_kind(alloc, book.kind(cell)),
    }
}

// The number of a place whose form isn't kept.
fn number_unkept(alloc: Global, book: &Workbook, decisions: &Adj, place: Place) -> Option<Form>
    ensures { result ≡ number_unkept (book_of book.now) decisions.now place }
{
    match place {
        Place::Cell(cell) => number_said(alloc, book, decisions, cell),
        Place::Side(_) => None,
    }
}

// The number that the form of a place is, where it is one.
fn number_at(
    alloc: Global,
    book: &Workbook,
    of: &Statement,
    forms: &Forms,
    place: Place,
) -> Result<Option<Form>, Memory>
    requires { IsKeptFor book.now (statement_of of.now) forms.now }
    ensures { IfOk result (λ number. number ≡ number_for book.now (statement_of of.now) place) }
{
    match forms.get(place) {
        Some(form) => number_in_form(alloc, form),
        None => Ok(number_unkept(alloc, book, &of.adj, place)),
    }
}

// The number of a place that has one.
fn number(
    alloc: Global,
    book: &Workbook,
    of: &Statement,
    forms: &Forms,
    place: Place,
) -> Result<Form, Memory>
    requires kept { IsKeptFor book.now (statement_of of.now) forms.now }
    requires number { HasNumber book.now (statement_of of.now) place }
    ensures { IfOk result
        (HasForm (book_of book.now) (sides_in book.now of.now.sheet.0) of.now.adj place) }
{
    match number_at(alloc, book, of, forms, place)? {
        Some(form) => Ok(form),
        None => unreachable!(),
    }
}

/// The form of the objective; 0 where there is none.
pub fn objective(
    alloc: Global,
    book: &Workbook,
    of: &Statement,
    forms: &Forms,
) -> Result<Form, Memory>
    requires kept { IsKeptFor book.now (statement_of of.now) forms.now }
    requires number { (c : Cell) → of.now.objective ≡ Some c
        → HasNumber book.now (statement_of of.now) (place.Cell c) }
    ensures form { IfOk result (λ form. (c : Cell) → of.now.objective ≡ Some c → HasForm
        (book_of book.now) (sides_in book.now of.now.sheet.0) of.now.adj (place.Cell c) form) }
    ensures none { IfOk result (λ form. of.now.objective ≡ None → form ≡ constant_form zero_ℚ) }
{
    match of.objective {
        Some(cell) => number(alloc, book, of, forms, Place::Cell(cell)),
        None => Ok(Form::constant(alloc, Frac::zero())),
    }
}

// The forms of both sides of a row.
fn row_sides(
    alloc: Global,
    book: &Workbook,
    of: &Statement,
    forms: &Forms,
    row: &RowOf,
) -> Result<(Form, Form), Memory>
    requires kept { IsKeptFor book.now (statement_of of.now) forms.now }
    requires numbers { RowHasNumbers book.now (statement_of of.now) (row_of row.now) }
    ensures { IfOk result (HasSides (book_of book.now)
        (sides_in book.now of.now.sheet.0) of.now.adj (row_of row.now)) }
{
    let left = number(alloc, book, of, forms, Place::Cell(row.left))?;
    let right = number(alloc, book, of, forms, row.right)?;
    Ok((left, right))
}

// The forms of both sides of each of these rows.
fn sides_of_rows(
    alloc: Global,
    book: &Workbook,
    of: &Statement,
    forms: &Forms,
    rows: &[RowOf],
) -> Result<Vec<(Form, Form)>, Memory>
    requires kept { IsKeptFor book.now (statement_of of.now) forms.now }
    requires numbers { All
        (λ row. RowHasNumbers book.now (statement_of of.now) (row_of row)) rows.now }
    ensures { IfOk result (λ sides. AllZip (HasSides (book_of book.now)
        (sides_in book.now of.now.sheet.0) of.now.adj) (map row_of rows.now) sides.items) }
{
    let mut sides = Vec::new(alloc);
    for row in rows {
        sides.push(row_sides(alloc, book, of, forms, row)?)?;
    }
    Ok(sides)
}

/// The forms of both sides of each row.
pub fn sides(
    alloc: Global,
    book: &Workbook,
    of: &Statement,
    forms: &Forms,
) -> Result<Vec<(Form, Form)>, Memory>
    requires kept { IsKeptFor book.now (statement_of of.now) forms.now }
    requires numbers { All
        (λ row. RowHasNumbers book.now (statement_of of.now) (row_of row)) of.now.rows.items }
    ensures { IfOk result (λ sides. AllZip (HasSides (book_of book.now)
        (sides_in book.now of.now.sheet.0) of.now.adj) (map row_of of.now.rows.items) sides.items) }
{
    sides_of_rows(alloc, book, of, forms, &of.rows)
}
