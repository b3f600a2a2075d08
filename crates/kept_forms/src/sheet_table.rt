// The forms that are kept of a sheet.
ghost use Rattle.std.specs.Prelude.{◌≡◌, ◌≤◌, ◌+◌, ◌↔◌, ◌==◌, [], ◌∷◌, IsTrue, OnOk};
ghost use Rattle.dep_table.specs.References.{AreReferencesOf};
ghost use Rattle.extract_incr.specs.Keeping.{AllAreKept, AreKept, GrowsTo, count_to_make};
ghost use Rattle.kept_forms.specs.Tables.{forms_in};
ghost use Rattle.kept_tables.specs.Settled.{marked_in};
ghost use Rattle.recalculation.specs.Entries.{Book};
ghost use Rattle.workbook.specs.Kinds.{book_of};

use cell_refs::{Cell, SheetId};
use dep_table::Deps;
use extract_incr::{Forms, Steps};
use formula_ast::Expr;
use memory::Memory;
use same_trees::is_same;
use std::marker::Model;
use std::sync::ledger::Ledger;
use workbook::{Adj, Workbook};

/// A workbook and the references of its formulas.
#[derive(Drop)]
pub struct Linked<'a> {
    pub book: &'a Workbook,
    pub deps: &'a Deps,
}

/// The forms that are kept of a sheet.
#[derive(Drop)]
pub(crate) struct SheetTable {
    sheet: SheetId,
    forms: Forms,
}

impl Model for SheetTable {
    ghost use Rattle.std.specs.Prelude.{refl, ℕ, List};
    ghost use Rattle.std.specs.FinMap.{FinMap, code};
    ghost use Rattle.std.specs.Ordering.{nat_cmp};
    ghost use Rattle.std.specs.Coded.{code_by, codes, coded×, coded_list, coded_ℕ};
    ghost use Rattle.cell_refs.specs.Cells.{cell_cmp, coded_cell};
    ghost use Rattle.cell_refs.specs.declared.cell.Cell.{Cell};
    ghost use Rattle.formula_ast.specs.Code.{Mark, back, from_marks, to_marks};
    ghost use Rattle.formula_ast.specs.Tree.{Tree};
    ghost use Rattle.extract_incr.specs.FromFormExtraction.{CellForm};
    ghost use Rattle.kept_forms.specs.Tables.{SheetKept};

    ghost Value = { SheetKept };

    ghost coded = { code_by (ℕ × (List Cell
        × (List (ℕ × Tree) × (FinMap cell_cmp CellForm × FinMap nat_cmp CellForm))))
        (coded× coded_ℕ (coded× (coded_list coded_cell) (coded× (coded_list
        (coded× coded_ℕ (code_by (List Mark) (Prim.hlevel codes) to_marks from_marks back)))
        (coded× (code coded_cell (Prim.hlevel codes)) (code coded_ℕ (Prim.hlevel codes))))))
        (λ t. (t.sheet, (t.kept.decisions, (t.kept.sides, (t.kept.table.cells, t.kept.table.sides)))))
        (λ p. record {
          sheet = p.0;
          kept = record {
            decisions = p.1.0;
            sides = p.1.1.0;
            table = record { cells = p.1.1.1.0; sides = p.1.1.1.1 };
          };
        }) (λ _. refl) };

    ghost view = { λ t. record { sheet = t.sheet.0; kept = t.forms } };
}

impl SheetTable {
    /// The forms of a sheet.
    pub(crate) fn new(sheet: SheetId, forms: Forms) -> SheetTable
        ensures { result ≡ record { sheet = sheet.0; kept = forms } }
    {
        SheetTable { sheet, forms }
    }

    /// Their sheet.
    pub(crate) fn sheet(&self) -> SheetId
        ensures { result.0 ≡ self.now.sheet }
    {
        self.sheet
    }

    /// Whether they are those of the sheet.
    pub(crate) fn is_of(&self, sheet: SheetId) -> bool
        ensures { result ≡ (self.now.sheet == sheet.0) }
    {
        self.sheet.0 == sheet.0
    }

    /// The forms.
    pub(crate) fn forms(&self) -> &Forms
        ensures { result.now ≡ self.now.kept }
    {
        &self.forms
    }

    /// Whether they were made for these decision cells and sides.
    pub(crate) fn is_for(&self, adj: &Adj, sides: &[(u16, Expr)]) -> bool
        ensures { IsTrue result
            ↔ ((self.now.kept.decisions ≡ adj.now) × (self.now.kept.sides ≡ sides.now)) }
    {
        are_same_cells(self.forms.decisions().cells(), adj.cells())
            && are_same_sides(self.forms.sides(), sides)
    }

    /// Makes the forms that are missing, and answers how many these were.
    pub(crate) fn settle<L: Ledger>(
        &mut self,
        linked: &Linked<'_>,
        steps: &mut Steps<L>,
    ) -> Result<usize, Memory>
        requires references { AreReferencesOf linked.now.deps.now (book_of linked.now.book.now) }
        requires kept { AreKept (book_of linked.now.book.now) self.old.kept }
        ensures sheet { self.new.sheet ≡ self.old.sheet }
        ensures settled { OnOk result (AllAreKept (book_of linked.now.book.now) self.new.kept) }
        ensures kept { AreKept (book_of linked.now.book.now) self.new.kept }
        ensures grown { GrowsTo self.old.kept self.new.kept }
        ensures counted { steps.old ≤ steps.new }
        ensures bound { steps.new
            ≤ steps.old + count_to_make (book_of linked.now.book.now) self.old.kept }
    {
        self.forms.settle(linked.book, linked.deps, steps)
    }

    /// Drops the forms of the places that an edit of a cell touches; none where the cell is to be decided.
    pub(crate) fn mark(&mut self, deps: &Deps, cell: Cell)
        ensures forms { (book : Book) → AreReferencesOf deps.now book
            → forms_in self.new ≡ marked_in book (cell ∷ []) (forms_in self.old) }
        ensures sheet { self.new.sheet ≡ self.old.sheet }
    {
        if self.forms.decisions().find(cell).is_some() {
            return;
        }
        self.forms.mark(deps, cell);
    }
}

// Whether two lists of cells are equal.
fn are_same_cells(one: &[Cell], other: &[Cell]) -> bool
    ensures { IsTrue result ↔ (one.now ≡ other.now) }
{
    one == other
}

// Whether two lists of sides are equal.
fn are_same_sides(one: &[(u16, Expr)], other: &[(u16, Expr)]) -> bool
    ensures { IsTrue result ↔ (one.now ≡ other.now) }
{
    if one.len() != other.len() {
        return false;
    }
    for (place, side) in one.iter().enumerate() {
        if !is_same_side(side, &other[place]) {
            return false;
        }
    }
    true
}

// Whether two sides are equal.
fn is_same_side(one: &(u16, Expr), other: &(u16, Expr)) -> bool
    ensures { IsTrue result ↔ (one.now ≡ other.now) }
{
    one.0 == other.0 && is_same(&one.1, &other.1)
}
