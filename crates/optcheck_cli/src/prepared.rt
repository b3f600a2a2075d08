// The linear model of the first sheet.
ghost use Rattle.std.specs.Prelude.{◌≡◌, ◌<◌, IfErr, IfOk, length};
ghost use Rattle.dep_table.specs.References.{AreReferencesOf};
ghost use Rattle.sheet_linear_model.specs.Answers.{Prepares, StopIsListed};
ghost use Rattle.sheet_problems.specs.Laws.{ModelIsTheSheet};
ghost use Rattle.solver_names.specs.Answers.{statement_of};
ghost use Rattle.workbook.specs.Kinds.{book_of};

use cell_refs::SheetId;
use dep_table::Deps;
use sheet_linear_model::{FormTables, Linked, NoModel, Prepared, Steps, prepare};
use std::alloc::Global;
use std::marker::Brand;
use std::sync::ledger::{Blank, Ledger};
use workbook::Workbook;

/// The linear model of the first sheet, or the first cause why it has none.
pub(crate) fn prepare_first(alloc: Global, book: &Workbook) -> Result<Prepared, NoModel>
    requires { 0 < length book.now.sheets }
    ensures prepares { Prepares book.now 0 result }
    ensures model { IfOk result
        (λ p. ModelIsTheSheet book.now (statement_of p.statement) p.model) }
    ensures said { IfErr result (StopIsListed book.now) }
{
    let references = Deps::open(alloc, book)?;
    let linked = Linked {
        book,
        deps: &references,
    };
    prepare_linked(alloc, &linked)
}

// The linear model of the first sheet, over the references of the workbook.
fn prepare_linked(alloc: Global, linked: &Linked<'_>) -> Result<Prepared, NoModel>
    requires some { 0 < length linked.now.book.now.sheets }
    requires references { AreReferencesOf linked.now.deps.now (book_of linked.now.book.now) }
    ensures prepares { Prepares linked.now.book.now 0 result }
    ensures model { IfOk result
        (λ p. ModelIsTheSheet linked.now.book.now (statement_of p.statement) p.model) }
    ensures said { IfErr result (StopIsListed linked.now.book.now) }
{
    let counter = Counter {
        alloc,
        blank: Blank::new(1),
    };
    prepare_counted::<Brand>(counter, linked)
}

// What a counter of forms begins with.
#[derive(Drop)]
struct Counter {
    alloc: Global,
    blank: Blank,
}

// The linear model of the first sheet, with what the counter of forms begins with.
fn prepare_counted<L: Ledger>(counter: Counter, linked: &Linked<'_>) -> Result<Prepared, NoModel>
    requires name { counter.blank.name ≡ L.name }
    requires parts { counter.blank.parts ≡ L.parts }
    requires one { 0 < counter.blank.parts }
    requires some { 0 < length linked.now.book.now.sheets }
    requires references { AreReferencesOf linked.now.deps.now (book_of linked.now.book.now) }
    ensures prepares { Prepares linked.now.book.now 0 result }
    ensures model { IfOk result
        (λ p. ModelIsTheSheet linked.now.book.now (statement_of p.statement) p.model) }
    ensures said { IfErr result (StopIsListed linked.now.book.now) }
{
    let Counter { alloc, blank } = counter;
    let mut steps: Steps<L> = Steps::new(blank);
    let mut tables = FormTables::new(alloc)?;
    prepare(alloc, linked, SheetId(0), &mut tables, &[false], &mut steps)
}
