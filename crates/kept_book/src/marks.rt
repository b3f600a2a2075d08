// Forms that follow what cells say, with the references of the workbook.
ghost use Rattle.std.specs.Prelude.{◌≡◌, OnErr};
ghost use Rattle.dep_table.specs.References.{AreReferencesOf};
ghost use Rattle.sheet_solving.specs.FromKeptForms.{all_forms};
ghost use Rattle.kept_book.specs.Inner.{WereKept};
ghost use Rattle.kept_book.specs.Kept.{IsFollowed, IsKept, written_cells};
ghost use Rattle.kept_book.specs.References.{HasFormula};
ghost use Rattle.sheet_solving.specs.FromKeptTables.{all_marked};
ghost use Rattle.recalculation.specs.Entries.{Book};
ghost use Rattle.workbook.specs.State.{State};

use crate::references::follow_all;
use cell_refs::Cell;
use commands::Answer;
use dep_table::Deps;
use memory::Memory;
use sheet_solving::FormTables;
use workbook::Workbook;

// Drops the forms that edits of these cells touch.
fn mark_all(tables: &mut FormTables, deps: &Deps, cells: &[Cell])
    ensures { (book : Book) → AreReferencesOf deps.now book
        → all_forms tables.new ≡ all_marked book cells.now (all_forms tables.old) }
{
    for cell in cells {
        tables.mark(deps, *cell);
    }
}

/// Brings references and forms up to date with what these cells say, by the references behind their edit. Where there is no memory
/// for that, nothing is kept any more.
pub(crate) fn follow(
    references: &mut Option<Deps>,
    tables: &mut FormTables,
    book: &Workbook,
    cells: &[Cell],
) -> Result<(), Memory>
    requires { WereKept cells.now references.old tables.old book.now }
    ensures kept { IsKept references.new (record { book = book.now; tables = tables.new }) }
    ensures followed { (before : State) → IsFollowed result cells.now
        (record { book = before; tables = tables.old })
        (record { book = book.now; tables = tables.new }) }
    ensures some { OnErr result (HasFormula cells.now book.now) }
{
    let Some(kept) = references.take() else {
        return Ok(());
    };
    let mut deps = kept;
    match follow_all(&mut deps, book, cells) {
        Ok(()) => {
            mark_all(tables, &deps, cells);
            *references = Some(deps);
            Ok(())
        }
        Err(memory) => {
            tables.clear();
            Err(memory)
        }
    }
}

// The cells that an answer edits.
fn written<'a>(decisions: &'a [Cell], answer: &Answer) -> &'a [Cell]
    ensures { result.now ≡ written_cells answer.now decisions.now }
{
    if let Answer::Optimal(_) = answer {
        return decisions;
    }
    &[]
}

/// Follows what a search has edited: the cells to be decided where it has found an optimum, and else none.
pub(crate) fn follow_answer(
    references: &mut Option<Deps>,
    tables: &mut FormTables,
    book: &Workbook,
    decisions: &[Cell],
    answer: &Answer,
) -> Result<(), Memory>
    requires { WereKept (written_cells answer.now decisions.now) references.old tables.old book.now }
    ensures kept { IsKept references.new (record { book = book.now; tables = tables.new }) }
    ensures followed { (before : State) → IsFollowed result
        (written_cells answer.now decisions.now)
        (record { book = before; tables = tables.old })
        (record { book = book.now; tables = tables.new }) }
{
    follow(references, tables, book, written(decisions, answer))
}
