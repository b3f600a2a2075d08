// The forms of places.
ghost use Rattle.std.specs.Prelude.{◌≡◌, ◌+◌, IfOk, None, false};
ghost use Rattle.form_extraction.specs.Places.{by_looks, by_outcome, least_without, numbered_in};
ghost use Rattle.workbook.specs.Kinds.{book_of};
ghost use Rattle.extract.specs.Knowing.{known_form};
ghost use Rattle.extract.specs.Places.{HasForms, IsRightly, IsTheValue, IsTreeOf, decision_at, is_in_circle, place_form};

use crate::decided::decision_at;
use crate::formula::form_part;
use crate::known::Known;
use crate::least::least_without;
use crate::left::left_by;
use crate::steps::Steps;
use crate::table::FormTable;
use form_calls::Part;
use form_extraction::{CellForm, Outcome};
use form_values::{Abs, Open};
use formula_ast::Expr;
use memory::Memory;
use std::alloc::Global;
use std::sync::ledger::Ledger;
use workbook::{Adj, Place, Workbook};

/// The form of a cell, or of a side, that isn't circular, over those of the formula cells at which it looks; a cell to be decided is
/// its number, whatever it says. A call is one step.
pub fn form_of<L: Ledger>(
    alloc: Global,
    book: &Workbook,
    adj: &Adj,
    place: Place,
    tree: &Expr,
    got: &FormTable,
    steps: &mut Steps<L>,
) -> Result<CellForm, Memory>
    requires tree { IsTreeOf (book_of book.now) place tree.now }
    requires free { is_in_circle (book_of book.now) (numbered_in adj.now) place tree.now ≡ false }
    requires forms { HasForms (book_of book.now) (numbered_in adj.now) got.now tree.now }
    ensures form { IfOk result (λ form. form
        ≡ place_form (book_of book.now) (numbered_in adj.now) place tree.now) }
    ensures value { IfOk result
        (IsTheValue (book_of book.now) (numbered_in adj.now) place tree.now) }
    ensures refusal { IfOk result (IsRightly (book_of book.now) (numbered_in adj.now) tree.now) }
    ensures step { steps.new ≡ steps.old + 1 }
{
    steps.tick();
    let form = place_form(alloc, book, adj, place, tree, got)?;
    Ok(form)
}

// The form of such a place, uncounted.
#[tactic(auto, using(crate::proofs::Placing::decided_is))]
fn place_form(
    alloc: Global,
    book: &Workbook,
    adj: &Adj,
    place: Place,
    tree: &Expr,
    got: &FormTable,
) -> Result<CellForm, Memory>
    requires tree { IsTreeOf (book_of book.now) place tree.now }
    requires free { is_in_circle (book_of book.now) (numbered_in adj.now) place tree.now ≡ false }
    requires forms { HasForms (book_of book.now) (numbered_in adj.now) got.now tree.now }
    ensures { IfOk result (λ form. form
        ≡ place_form (book_of book.now) (numbered_in adj.now) place tree.now) }
{
    match decision_at(adj, place) {
        Some(number) => Ok(CellForm::Form(Abs::Affine(Open::decision(alloc, number)))),
        None => formula_form(alloc, book, adj, place, tree, got),
    }
}

// The form of a formula cell that isn't to be decided, or of a side.
fn formula_form(
    alloc: Global,
    book: &Workbook,
    adj: &Adj,
    place: Place,
    tree: &Expr,
    got: &FormTable,
) -> Result<CellForm, Memory>
    requires tree { IsTreeOf (book_of book.now) place tree.now }
    requires undecided { decision_at (numbered_in adj.now) place ≡ None }
    requires free { is_in_circle (book_of book.now) (numbered_in adj.now) place tree.now ≡ false }
    requires forms { HasForms (book_of book.now) (numbered_in adj.now) got.now tree.now }
    ensures { IfOk result (λ form. form
        ≡ place_form (book_of book.now) (numbered_in adj.now) place tree.now) }
{
    let known = Known {
        book,
        adj,
        table: got,
    };
    let part = form_part(alloc, &known, tree)?;
    form_of_part(alloc, &known, &part)
}

// The form of a formula that is a part: blocked where a cell at which it looks has no form, and else what the part comes to.
fn form_of_part(alloc: Global, known: &Known, part: &Part) -> Result<CellForm, Memory>
    ensures { IfOk result (λ form. form
        ≡ by_looks (least_without (known_form (book_of known.now.book.now)
        known.now.adj.now known.now.table.now) part.now.looks) part.now.outcome) }
{
    if let Some(cell) = least_without(known, part.looks()) {
        return Ok(CellForm::Blocked(Place::Cell(cell)));
    }
    by_outcome(alloc, part.outcome())
}

// What an outcome leaves in its cell.
fn by_outcome(alloc: Global, outcome: &Outcome) -> Result<CellForm, Memory>
    ensures { IfOk result (λ form. form ≡ by_outcome outcome.now) }
{
    match outcome {
        Outcome::Gives(value) => Ok(CellForm::Form(left_by(alloc, value)?)),
        Outcome::Refused(at, cause) => Ok(CellForm::Refused(*at, *cause)),
        Outcome::Without => Ok(CellForm::Circular),
    }
}
