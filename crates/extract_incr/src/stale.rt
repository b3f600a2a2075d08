// The form of one stale place.
ghost use Rattle.std.specs.Prelude.{◌≡◌, ◌<◌, ◌≤◌, ◌+◌, OnOk, IsSome, Some, false};
ghost use Rattle.needed_forms.specs.FromExtract.{HasForms, is_in_circle};
ghost use Rattle.needed_forms.specs.FromExtract.{form_at};
ghost use Rattle.needed_forms.specs.FromFormExtraction.{numbered_in};
ghost use Rattle.extract_incr.specs.Keeping.{AreKept, HaveOwnNumbers, IsStale, is_circular_place};
ghost use Rattle.extract_incr.specs.Settling.{Goes, IsTreeIn, kept_in, unmade};
ghost use Rattle.needed_forms.specs.FromSheetProblems.{form_at as form_of_place};
ghost use Rattle.workbook.specs.Kinds.{book_of};
ghost use Rattle.cell_refs.specs.declared.place.Place.TheVariants as place;

use formula_ast::Expr;
use memory::Memory;
use needed_forms::{CellForm, FormTable, Steps, form_of};
use std::alloc::Global;
use std::sync::ledger::Ledger;
use workbook::{Adj, Place, Workbook};

/// Makes and keeps the form of a stale place that isn't circular.
pub(crate) fn extract_stale<L: Ledger>(
    alloc: Global,
    book: &Workbook,
    adj: &Adj,
    sides: &[(u16, Expr)],
    place: Place,
    tree: &Expr,
    table: &mut FormTable,
    steps: &mut Steps<L>,
) -> Result<(), Memory>
    requires stale { IsStale (book_of book.now) (kept_in adj.now sides.now table.old) place }
    requires tree { IsTreeIn (book_of book.now) sides.now place tree.now }
    requires free { is_in_circle (book_of book.now) (numbered_in adj.now) place tree.now ≡ false }
    requires forms { HasForms (book_of book.now) (numbered_in adj.now) table.old tree.now }
    requires numbers { HaveOwnNumbers sides.now }
    requires kept { AreKept (book_of book.now) (kept_in adj.now sides.now table.old) }
    ensures goes { Goes (book_of book.now) (kept_in adj.now sides.now table.old)
        (kept_in adj.now sides.now table.new) }
    ensures there { OnOk result (IsSome (form_at table.new place)) }
    ensures counted { steps.old ≤ steps.new }
    ensures ok { OnOk result
        (steps.new + unmade (book_of book.now) (kept_in adj.now sides.now table.new)
        ≤ steps.old + unmade (book_of book.now) (kept_in adj.now sides.now table.old)) }
    ensures bound { steps.new
        ≤ steps.old + unmade (book_of book.now) (kept_in adj.now sides.now table.old) }
{
    let form = form_of(alloc, book, adj, place, tree, table, steps)?;
    keep(book, adj, sides, place, form, table)
}

/// Keeps the form of a stale place.
pub(crate) fn keep(
    book: &Workbook,
    adj: &Adj,
    sides: &[(u16, Expr)],
    place: Place,
    form: CellForm,
    table: &mut FormTable,
) -> Result<(), Memory>
    requires stale { IsStale (book_of book.now) (kept_in adj.now sides.now table.old) place }
    requires form { form_of_place (book_of book.now) sides.now adj.now place ≡ Some form }
    requires numbers { HaveOwnNumbers sides.now }
    requires kept { AreKept (book_of book.now) (kept_in adj.now sides.now table.old) }
    ensures goes { Goes (book_of book.now) (kept_in adj.now sides.now table.old)
        (kept_in adj.now sides.now table.new) }
    ensures one { OnOk result (is_circular_place (book_of book.now) sides.now adj.now place ≡ false
        → unmade (book_of book.now) (kept_in adj.now sides.now table.old)
        ≡ unmade (book_of book.now) (kept_in adj.now sides.now table.new) + 1) }
    ensures there { OnOk result (IsSome (form_at table.new place)) }
{
    table.put(place, form)?;
    Ok(())
}
