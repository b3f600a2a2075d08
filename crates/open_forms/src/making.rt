// Forms that no table keeps.
ghost use Rattle.std.specs.Prelude.{◌≡◌, ◌≤◌, ◌+◌, IfOk};
ghost use Rattle.dep_table.specs.References.{AreReferencesOf};
ghost use Rattle.extract_incr.specs.FromExtract.{no_forms};
ghost use Rattle.extract_incr.specs.Keeping.{AllAreKept, HaveOwnNumbers, count_to_make};
ghost use Rattle.sheet_linear_model.specs.FromKeptForms.{parts_of};
ghost use Rattle.workbook.specs.Kinds.{book_of};

use extract_incr::Forms;
use formula_ast::Expr;
use memory::Memory;
use sheet_linear_model::{Linked, Steps};
use std::alloc::Global;
use std::sync::ledger::Ledger;
use workbook::Adj;

/// All forms over some decision cells and sides, which are counted among those that were made. No table keeps them.
pub fn make_forms<L: Ledger>(
    alloc: Global,
    linked: &Linked<'_>,
    adj: &Adj,
    sides: Vec<(u16, Expr)>,
    steps: &mut Steps<L>,
    extractions: &mut u64,
) -> Result<Forms, Memory>
    requires references { AreReferencesOf linked.now.deps.now (book_of linked.now.book.now) }
    requires numbers { HaveOwnNumbers sides.items }
    ensures given { IfOk result (λ forms. parts_of forms
        ≡ record { decisions = adj.now; sides = sides.items }) }
    ensures full { IfOk result (AllAreKept (book_of linked.now.book.now)) }
    ensures counted { steps.old ≤ steps.new }
    ensures bound { steps.new ≤ steps.old + count_to_make (book_of linked.now.book.now)
        (record { decisions = adj.now; sides = sides.items; table = no_forms }) }
{
    let mut forms = Forms::open(alloc, adj, sides)?;
    let count = forms.settle(linked.book, linked.deps, steps)?;
    *extractions = extractions.saturating_add(count as u64);
    Ok(forms)
}
