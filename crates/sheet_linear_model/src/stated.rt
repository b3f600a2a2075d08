// What the names of a sheet state, the forms that are kept for it, and the first refusal among them.
ghost use Rattle.std.specs.Prelude.{◌≡◌, ◌≤◌, ◌<◌, ◌-◌, Err, IfErr, IfOk, OnErr, OnOk, length};
ghost use Rattle.dep_table.specs.References.{AreReferencesOf};
ghost use Rattle.form_needs.specs.FirstRefusal.{AllNumbers, IsRefusal};
ghost use Rattle.form_needs.specs.Needed.{asked_of};
ghost use Rattle.kept_forms.specs.Settling.{Settles, Stops};
ghost use Rattle.kept_forms.specs.Tables.{all_forms, is_searching};
ghost use Rattle.kept_forms.specs.FromKeptTables.{AreRight};
ghost use Rattle.kept_forms.specs.FromKeptTables.{MakesFew};
ghost use Rattle.sheet_linear_model.specs.Answers.{Prepares, StopIsListed, parts_stated};
ghost use Rattle.sheet_linear_model.specs.Inner.{GivesNone, IsKeptFor, IsStatement, stop_of};
ghost use Rattle.solver_names.specs.Answers.{statement_of};
ghost use Rattle.workbook.specs.Kinds.{book_of};

use crate::prepared::NoModel;
use crate::roots::roots;
use cell_refs::SheetId;
use commands::Answer;
use form_needs::FormRefusal;
use kept_forms::{FormTables, Forms, Linked, Steps};
use memory::Memory;
use solver_names::{NamesFault, Statement, side_trees, statement};
use std::alloc::Global;
use std::sync::ledger::Ledger;
use workbook::Workbook;

// A fault of the names as the cause why there is no model.
fn stop_of(fault: NamesFault) -> NoModel
    ensures { result ≡ stop_of fault }
{
    match fault {
        NamesFault::Memory => NoModel::Memory,
        other => NoModel::Refused(Answer::Names(other)),
    }
}

/// What the names of a sheet state, or the first fault in them.
pub(crate) fn statement_or_stop(
    alloc: Global,
    book: &Workbook,
    sheet: SheetId,
) -> Result<Statement, NoModel>
    requires listed { sheet.0 < length book.now.sheets }
    ensures statement { IfOk result (λ s. IsStatement book.now (statement_of s)) }
    ensures sheet { IfOk result (λ s. s.sheet ≡ sheet) }
    ensures fault { IfErr result (λ e. Prepares book.now sheet.0 (Err e)) }
    ensures none { IfErr result (GivesNone book.now sheet.0) }
    ensures said { IfErr result (StopIsListed book.now) }
{
    match statement(alloc, book, sheet) {
        Ok(stated) => Ok(stated),
        Err(fault) => Err(stop_of(fault)),
    }
}

/// Makes the forms of formulas and sides that are missing, in the table of the sheet; or all of them, where there is no place for one.
pub(crate) fn settle<L: Ledger>(
    alloc: Global,
    linked: &Linked<'_>,
    of: &Statement,
    tables: &mut FormTables,
    searching: &[bool],
    steps: &mut Steps<L>,
) -> Result<Option<Forms>, Memory>
    requires statement { IsStatement linked.now.book.now (statement_of of.now) }
    requires references { AreReferencesOf linked.now.deps.now (book_of linked.now.book.now) }
    requires right { AreRight (book_of linked.now.book.now) (all_forms tables.old) }
    requires listed { of.now.sheet.0 < length searching.now }
    ensures settled { IfOk result (Settles (book_of linked.now.book.now)
        (is_searching searching.now) of.now.sheet.0 (parts_stated linked.now.book.now
        of.now.sheet.0 (statement_of of.now)) tables.old tables.new) }
    ensures stopped { OnErr result (Stops (book_of linked.now.book.now)
        (is_searching searching.now) of.now.sheet.0 (parts_stated linked.now.book.now
        of.now.sheet.0 (statement_of of.now)) tables.old tables.new) }
    ensures right { AreRight (book_of linked.now.book.now) (all_forms tables.new) }
    ensures counted { steps.old ≤ steps.new }
    ensures few { MakesFew (book_of linked.now.book.now) (all_forms tables.old) of.now.sheet.0
        (parts_stated linked.now.book.now of.now.sheet.0 (statement_of of.now))
        (steps.new - steps.old) }
{
    let sides = side_trees(alloc, linked.book, of)?;
    tables.settle(linked, of.sheet, &of.adj, sides, searching, steps)
}

// The first refusal over what is needed.
fn refusal(
    alloc: Global,
    book: &Workbook,
    of: &Statement,
    forms: &Forms,
) -> Result<Option<FormRefusal>, Memory>
    requires statement { IsStatement book.now (statement_of of.now) }
    requires kept { IsKeptFor book.now (statement_of of.now) forms.now }
    ensures { IfOk result (IsRefusal (asked_of book.now (statement_of of.now))) }
{
    let roots = roots(alloc, of)?;
    forms.refusal(book, &roots)
}

/// Whether nothing that is needed is refused; the first refusal where something is.
pub(crate) fn check_forms(
    alloc: Global,
    book: &Workbook,
    of: &Statement,
    forms: &Forms,
) -> Result<(), NoModel>
    requires statement { IsStatement book.now (statement_of of.now) }
    requires kept { IsKeptFor book.now (statement_of of.now) forms.now }
    ensures numbers { OnOk result (AllNumbers (asked_of book.now (statement_of of.now))) }
    ensures refused { IfErr result (λ e. Prepares book.now of.now.sheet.0 (Err e)) }
    ensures said { IfErr result (StopIsListed book.now) }
{
    book.texts_are_listed();
    match refusal(alloc, book, of, forms)? {
        Some(refusal) => Err(NoModel::Refused(Answer::Form(refusal))),
        None => Ok(()),
    }
}
