// Quick models that are opened.
ghost use Rattle.std.specs.Prelude.{◌≡◌, ◌≤◌, ◌<◌, ◌+◌, ◌++◌, IfErr, IfOk, length};
ghost use Rattle.std.specs.Result.{result_map_both};
ghost use Rattle.open_forms.specs.FromDepTable.{AreReferencesOf};
ghost use Rattle.open_forms.specs.FromExtractIncr.{no_forms};
ghost use Rattle.open_forms.specs.FromExtractIncr.{count_to_make};
ghost use Rattle.parameter_problems.specs.Opened.{opened};
ghost use Rattle.sheet_quick.specs.Inner.{FormsOr, HaveNumbers, IsQuickOf, IsStated, NamesOr, StandApart, cause_of};
ghost use Rattle.sheet_quick.specs.Opened.{IsOpen, quick_of};
ghost use Rattle.sheet_quick.specs.Opening.{CauseIsListed, MakesFew, Opens};
ghost use Rattle.solver_names.specs.Answers.{statement_of};
ghost use Rattle.solver_names.specs.Sides.{sides_in};
ghost use Rattle.workbook.specs.Kinds.{book_of};
ghost use Rattle.cell_refs.specs.declared.adj.TheConstants.{DECISIONS};

use crate::forms::forms_over;
use crate::parameters::{both, cells_named, parameters, values_in};
use crate::quick::SheetQuick;
use crate::stops::NoQuick;
use affine_forms::Form;
use cell_refs::SheetId;
use memory::Memory;
use model_building::conditions;
use open_forms::{Linked, Steps};
use quick_solve::QuickModel;
use solver_names::{NamesFault, Statement, side_trees, statement};
use std::alloc::Global;
use std::mem::replace;
use std::sync::ledger::Ledger;
use workbook::{Adj, Workbook};

// A fault of the names as the cause why there is no quick model.
fn cause_of(fault: NamesFault) -> NoQuick
    ensures { result ≡ cause_of fault }
{
    match fault {
        NamesFault::Memory => NoQuick::Memory,
        other => NoQuick::Names(other),
    }
}

// What the names of a sheet state, or the first fault in them.
fn statement_or_stop(alloc: Global, book: &Workbook, sheet: SheetId) -> Result<Statement, NoQuick>
    requires listed { sheet.0 < length book.now.sheets }
    ensures stated { NamesOr book.now sheet.0
        (result_map_both statement_of (λ stop. stop) result) }
    ensures sheet { IfOk result (λ s. s.sheet ≡ sheet) }
    ensures said { IfErr result (CauseIsListed book.now.sheets) }
{
    match statement(alloc, book, sheet) {
        Ok(stated) => Ok(stated),
        Err(fault) => Err(cause_of(fault)),
    }
}

// The forms of what is stated over the cells to be decided and, behind them, parameters.
fn forms_with<L: Ledger>(
    alloc: Global,
    linked: &Linked<'_>,
    of: &mut Statement,
    parameters: &Adj,
    extractions: &mut u64,
    steps: &mut Steps<L>,
) -> Result<(Form, Vec<(Form, Form)>), NoQuick>
    requires stated { IsStated linked.now.book.now (statement_of of.old) }
    requires references { AreReferencesOf linked.now.deps.now (book_of linked.now.book.now) }
    requires few { length of.old.adj + length parameters.now ≤ DECISIONS }
    requires apart { StandApart of.old.adj parameters.now }
    ensures forms { FormsOr linked.now.book.now (opened (statement_of of.old) parameters.now)
        (result_map_both (λ found. (found.0, found.1.items)) (λ stop. stop) result) }
    ensures same { statement_of of.new ≡ statement_of of.old }
    ensures said { IfErr result (CauseIsListed linked.now.book.now.sheets) }
    ensures counted { steps.old ≤ steps.new }
    ensures few { steps.new ≤ steps.old + count_to_make (book_of linked.now.book.now) (record {
      decisions = of.old.adj ++ parameters.now;
      sides = sides_in linked.now.book.now of.old.sheet.0;
      table = no_forms;
    }) }
{
    let sides = side_trees(alloc, linked.book, of)?;
    let all = both(&of.adj, parameters)?;
    let decisions = replace(&mut of.adj, all);
    let found = forms_over(alloc, linked, of, sides, extractions, steps);
    of.adj = decisions;
    found
}

// The quick model of these forms, with the numbers that the parameters say.
fn quick_over(
    alloc: Global,
    book: &Workbook,
    statement: Statement,
    parameters: Adj,
    objective: Form,
    sides: Vec<(Form, Form)>,
) -> Result<SheetQuick, Memory>
    requires stated { IsStated book.now (statement_of statement) }
    requires numbers { HaveNumbers book.now (opened (statement_of statement) parameters) objective
        sides.items }
    ensures { IfOk result
        (λ q. IsQuickOf book.now (statement_of statement) parameters (quick_of q)) }
{
    let conditions = conditions(alloc, &statement)?;
    let values = values_in(alloc, book, &parameters)?;
    let count = parameters.len() as u16;
    Ok(SheetQuick {
        statement,
        parameters,
        values,
        model: QuickModel::new(conditions, count, objective, sides),
    })
}

/// Takes the cells that a text names as parameters of a sheet: what its names state is found over its decision cells and these. The
/// forms are made for this command alone; each is one step.
pub fn open_quick<L: Ledger>(
    alloc: Global,
    linked: &Linked<'_>,
    sheet: SheetId,
    text: &str,
    extractions: &mut u64,
    steps: &mut Steps<L>,
) -> Result<SheetQuick, NoQuick>
    requires listed { sheet.0 < length linked.now.book.now.sheets }
    requires references { AreReferencesOf linked.now.deps.now (book_of linked.now.book.now) }
    ensures opens { Opens linked.now.book.now sheet.0 text.now result }
    ensures sheet { IfOk result (λ q. q.statement.sheet ≡ sheet) }
    ensures open { IfOk result (λ q. IsOpen linked.now.book.now (quick_of q)) }
    ensures said { IfErr result (CauseIsListed linked.now.book.now.sheets) }
    ensures counted { steps.old ≤ steps.new }
    ensures few { MakesFew linked.now.book.now sheet.0 text.now steps.old steps.new }
{
    let Some(cells) = cells_named(alloc, linked.book, sheet, text)? else {
        return Err(NoQuick::BadReference);
    };
    let mut statement = statement_or_stop(alloc, linked.book, sheet)?;
    let parameters = parameters(alloc, linked.book, &statement.adj, cells)?;
    let (objective, sides) = forms_with(
        alloc,
        linked,
        &mut statement,
        &parameters,
        extractions,
        steps,
    )?;
    linked.book.texts_are_listed();
    Ok(quick_over(alloc, linked.book, statement, parameters, objective, sides)?)
}
