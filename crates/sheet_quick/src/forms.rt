// The forms of the objective and of both sides of each row, made for one command.
ghost use Rattle.std.specs.Prelude.{◌≡◌, ◌≤◌, ◌+◌, All, Err, IfErr, IfOk, OnOk};
ghost use Rattle.std.specs.Result.{result_map_both};
ghost use Rattle.commands.specs.Refusals.{PlaceIsListed};
ghost use Rattle.open_forms.specs.FromDepTable.{AreReferencesOf};
ghost use Rattle.open_forms.specs.FromExtractIncr.{no_forms};
ghost use Rattle.open_forms.specs.FromExtractIncr.{HaveOwnNumbers, count_to_make};
ghost use Rattle.form_needs.specs.FirstRefusal.{AllNumbers, IsRefusal};
ghost use Rattle.form_needs.specs.Needed.{asked_of, roots_of};
ghost use Rattle.open_forms.specs.FromExtractIncr.{IsRoot};
ghost use Rattle.open_forms.specs.FromSheetLinearModel.{IsKeptFor};
ghost use Rattle.sheet_quick.specs.Inner.{FormsOr};
ghost use Rattle.sheet_quick.specs.Opening.{CauseIsListed};
ghost use Rattle.solver_names.specs.Answers.{statement_of};
ghost use Rattle.solver_names.specs.Sides.{sides_in};
ghost use Rattle.workbook.specs.Kinds.{book_of};

use crate::stops::NoQuick;
use affine_forms::Form;
use form_needs::FormRefusal;
use formula_ast::Expr;
use memory::Memory;
use open_forms::{Forms, Linked, Steps, make_forms, objective, roots, sides};
use solver_names::Statement;
use std::alloc::Global;
use std::sync::ledger::Ledger;
use workbook::Workbook;

// The first refusal over what is needed.
fn refusal(
    alloc: Global,
    book: &Workbook,
    of: &Statement,
    forms: &Forms,
) -> Result<Option<FormRefusal>, Memory>
    requires kept { IsKeptFor book.now (statement_of of.now) forms.now }
    requires there { All (IsRoot (sides_in book.now of.now.sheet.0)) (roots_of (statement_of of.now)) }
    ensures { IfOk result (IsRefusal (asked_of book.now (statement_of of.now))) }
{
    let roots = roots(alloc, of)?;
    forms.refusal(book, &roots)
}

// Whether nothing that is needed is refused; the first refusal where something is.
fn check_forms(alloc: Global, book: &Workbook, of: &Statement, forms: &Forms) -> Result<(), NoQuick>
    requires kept { IsKeptFor book.now (statement_of of.now) forms.now }
    requires there { All (IsRoot (sides_in book.now of.now.sheet.0)) (roots_of (statement_of of.now)) }
    requires listed { All (PlaceIsListed book.now.sheets) (roots_of (statement_of of.now)) }
    ensures numbers { OnOk result (AllNumbers (asked_of book.now (statement_of of.now))) }
    ensures refused { IfErr result (λ e. FormsOr book.now (statement_of of.now) (Err e)) }
    ensures said { IfErr result (CauseIsListed book.now.sheets) }
{
    book.texts_are_listed();
    match refusal(alloc, book, of, forms)? {
        Some(refusal) => Err(NoQuick::Form(refusal)),
        None => Ok(()),
    }
}

// The forms as numbers, or the first refusal among what they need.
fn numbers(
    alloc: Global,
    book: &Workbook,
    of: &Statement,
    forms: &Forms,
) -> Result<(Form, Vec<(Form, Form)>), NoQuick>
    requires kept { IsKeptFor book.now (statement_of of.now) forms.now }
    requires there { All (IsRoot (sides_in book.now of.now.sheet.0)) (roots_of (statement_of of.now)) }
    requires listed { All (PlaceIsListed book.now.sheets) (roots_of (statement_of of.now)) }
    ensures forms { FormsOr book.now (statement_of of.now)
        (result_map_both (λ found. (found.0, found.1.items)) (λ stop. stop) result) }
    ensures said { IfErr result (CauseIsListed book.now.sheets) }
{
    check_forms(alloc, book, of, forms)?;
    let objective = objective(alloc, book, of, forms)?;
    let sides = sides(alloc, book, of, forms)?;
    Ok((objective, sides))
}

/// The forms over the cells that a statement has to be decided, made for this command alone.
pub(crate) fn forms_over<L: Ledger>(
    alloc: Global,
    linked: &Linked<'_>,
    of: &Statement,
    sides: Vec<(u16, Expr)>,
    extractions: &mut u64,
    steps: &mut Steps<L>,
) -> Result<(Form, Vec<(Form, Form)>), NoQuick>
    requires references { AreReferencesOf linked.now.deps.now (book_of linked.now.book.now) }
    requires sides { sides.items ≡ sides_in linked.now.book.now of.now.sheet.0 }
    requires numbers { HaveOwnNumbers sides.items }
    requires there { All (IsRoot (sides_in linked.now.book.now of.now.sheet.0))
        (roots_of (statement_of of.now)) }
    requires listed { All (PlaceIsListed linked.now.book.now.sheets)
        (roots_of (statement_of of.now)) }
    ensures forms { FormsOr linked.now.book.now (statement_of of.now)
        (result_map_both (λ found. (found.0, found.1.items)) (λ stop. stop) result) }
    ensures said { IfErr result (CauseIsListed linked.now.book.now.sheets) }
    ensures counted { steps.old ≤ steps.new }
    ensures bound { steps.new ≤ steps.old + count_to_make (book_of linked.now.book.now)
        (record { decisions = of.now.adj; sides = sides.items; table = no_forms }) }
{
    let forms = make_forms(alloc, linked, &of.adj, sides, steps, extractions)?;
    numbers(alloc, linked.book, of, &forms)
}
