// What refuses a place by itself, as a workbook and the forms that are kept tell it.
ghost use Rattle.std.specs.Prelude.{◌≡◌};
ghost use Rattle.std.specs.Option.{option_and_then};
ghost use Rattle.needed_cells.specs.FromExtract.{form_at};
ghost use Rattle.needed_forms.specs.Told.{malformed_at, refusal_by_kind, refusal_of, refused_as, told_refusal, unless_number};
ghost use Rattle.recalculation.specs.Entries.{entry};
ghost use Rattle.form_needs.specs.FromSheetProblems.{number_form};
ghost use Rattle.workbook.specs.Contents.{kind_of};
ghost use Rattle.workbook.specs.Kinds.{book_of};
ghost use Rattle.cell_refs.specs.declared.place.Place.TheVariants as place;

use cell_refs::{Cell, Span};
use form_extraction::{CellForm, Why};
use form_needs::FormRefusal;
use form_values::Abs;
use needed_cells::FormTable;
use sheet_model::Value;
use workbook::{Adj, Kind, Place, Workbook};

/// A workbook, its cells to be decided, and the forms of its formula cells and of sides.
#[derive(Drop)]
pub(crate) struct Told<'a> {
    pub(crate) book: &'a Workbook,
    pub(crate) adj: &'a Adj,
    pub(crate) forms: &'a FormTable,
}

impl Told<'_> {
    /// What refuses a place by its own form, where something does.
    pub(crate) fn refusal(&self, place: Place) -> Option<FormRefusal>
        ensures { result
            ≡ told_refusal (book_of self.now.book.now) self.now.adj.now self.now.forms.now place }
    {
        match place {
            Place::Cell(cell) => self.cell_refusal(cell),
            Place::Side(_) => kept_refusal(self.forms, place),
        }
    }

    // What refuses a cell.
    fn cell_refusal(&self, cell: Cell) -> Option<FormRefusal>
        ensures { result ≡ told_refusal
            (book_of self.now.book.now) self.now.adj.now self.now.forms.now (place.Cell cell) }
    {
        match self.adj.find(cell) {
            Some(_) => None,
            None => said_refusal(self.book, self.forms, cell),
        }
    }
}

// What refuses a cell that isn't to be decided.
fn said_refusal(book: &Workbook, forms: &FormTable, cell: Cell) -> Option<FormRefusal>
    ensures { result ≡ refusal_by_kind (place.Cell cell)
        (kind_of (entry (book_of book.now) cell)) (form_at forms.now (place.Cell cell)) }
{
    match book.kind(cell) {
        Kind::Empty => None,
        Kind::Number(_) => None,
        Kind::Logical(_) => Some(FormRefusal::NotNumber(Place::Cell(cell))),
        Kind::Plain => Some(FormRefusal::NotNumber(Place::Cell(cell))),
        Kind::Formula => kept_refusal(forms, Place::Cell(cell)),
        Kind::Malformed => Some(FormRefusal::Malformed(cell)),
    }
}

// What refuses a place with the form that is kept of it.
fn kept_refusal(forms: &FormTable, place: Place) -> Option<FormRefusal>
    ensures { result ≡ option_and_then (refusal_of place) (form_at forms.now place) }
{
    match forms.get(place) {
        Some(form) => form_refusal(place, form),
        None => None,
    }
}

// What refuses a place with this form.
fn form_refusal(place: Place, form: &CellForm) -> Option<FormRefusal>
    ensures { result ≡ refusal_of place form.now }
{
    match form {
        CellForm::Form(value) => unless_number(place, value),
        CellForm::Refused(at, cause) => Some(refused_as(place, *at, *cause)),
        CellForm::Blocked(_) => None,
        CellForm::Circular => Some(FormRefusal::Circular(place)),
        CellForm::Malformed => malformed_at(place),
    }
}

// A value that isn't a number is refused.
fn unless_number(place: Place, value: &Abs) -> Option<FormRefusal>
    ensures { result ≡ unless_number place (number_form value.now) }
{
    match value {
        Abs::Affine(_) => None,
        Abs::Known(Value::Number(_)) => None,
        Abs::Known(Value::Empty) => None,
        _ => Some(FormRefusal::NotNumber(place)),
    }
}

// The refusal of a part of a formula.
fn refused_as(place: Place, at: Span, cause: Why) -> FormRefusal
    ensures { result ≡ refused_as place at cause }
{
    match cause {
        Why::Break => FormRefusal::NotAffine(place, at),
        Why::Undecided => FormRefusal::Undecided(place, at),
        Why::Wide => FormRefusal::Wide(place),
    }
}

// The refusal of a cell that says nothing that is allowed. No side is such a place.
fn malformed_at(place: Place) -> Option<FormRefusal>
    ensures { result ≡ malformed_at place }
{
    match place {
        Place::Cell(cell) => Some(FormRefusal::Malformed(cell)),
        Place::Side(_) => None,
    }
}
