// The forms that are kept of several sheets.
ghost use Rattle.std.specs.Prelude.{◌≡◌, ◌<◌, ◌≤◌, ◌+◌, ◌-◌, [], ◌∷◌, ℕ, Bool, IfOk, OnErr, OnOk, Some, false, length, option_map, slice_get};
ghost use Rattle.dep_table.specs.References.{AreReferencesOf};
ghost use Rattle.extract_incr.specs.FromExtract.{no_forms};
ghost use Rattle.extract_incr.specs.Keeping.{AllAreKept, AreKept, HaveOwnNumbers, count_to_make};
ghost use Rattle.kept_forms.specs.Inner.{Goes, IsBegun};
ghost use Rattle.kept_forms.specs.Settling.{Settles, Stops};
ghost use Rattle.kept_forms.specs.Tables.{AreTables, SheetKept, all_forms, is_searching, kept_of, parts_of, settled_of, sheets_in};
ghost use Rattle.kept_tables.specs.Settled.{AreRight, all_marked};
ghost use Rattle.kept_tables.specs.Steps.{MakesFew};
ghost use Rattle.kept_tables.specs.Tables.{has_sheet, is_for_once};
ghost use Rattle.recalculation.specs.Entries.{Book};
ghost use Rattle.workbook.specs.Kinds.{book_of};

use crate::places::{MOST_TABLES, first_idle, is_full, mark_all, place_of};
use crate::sheet_table::{Linked, SheetTable};
use cell_refs::{Cell, SheetId};
use dep_table::Deps;
use extract_incr::{Forms, Steps};
use formula_ast::Expr;
use memory::Memory;
use std::alloc::Global;
use std::marker::Model;
use std::sync::ledger::Ledger;
use workbook::Adj;

/// Of each sheet with kept forms, in the order in which they were opened: the forms for the decision cells and the sides that its
/// names gave.
#[derive(Drop)]
pub struct FormTables {
    alloc: Global,
    tables: Vec<SheetTable>,
    extractions: u64,
}

impl Model for FormTables {
    ghost use Rattle.std.specs.Prelude.{refl, ℕ, List};
    ghost use Rattle.std.specs.FinMap.{FinMap, code};
    ghost use Rattle.std.specs.Ordering.{nat_cmp};
    ghost use Rattle.std.specs.Coded.{code_by, codes, coded×, coded_list, coded_ℕ};
    ghost use Rattle.cell_refs.specs.Cells.{cell_cmp, coded_cell};
    ghost use Rattle.cell_refs.specs.declared.cell.Cell.{Cell};
    ghost use Rattle.formula_ast.specs.Code.{Mark, back, from_marks, to_marks};
    ghost use Rattle.formula_ast.specs.Tree.{Tree};
    ghost use Rattle.extract_incr.specs.FromFormExtraction.{CellForm};
    ghost use Rattle.kept_forms.specs.Tables.{AreTables, SheetKept};

    ghost Value = { List SheetKept };

    ghost coded = { coded_list (code_by (ℕ × (List Cell
        × (List (ℕ × Tree) × (FinMap cell_cmp CellForm × FinMap nat_cmp CellForm))))
        (coded× coded_ℕ (coded× (coded_list coded_cell) (coded× (coded_list
        (coded× coded_ℕ (code_by (List Mark) (Prim.hlevel codes) to_marks from_marks back)))
        (coded× (code coded_cell (Prim.hlevel codes)) (code coded_ℕ (Prim.hlevel codes))))))
        (λ t. (t.sheet, (t.kept.decisions, (t.kept.sides, (t.kept.table.cells, t.kept.table.sides)))))
        (λ p. record {
          sheet = p.0;
          kept = record {
            decisions = p.1.0;
            sides = p.1.1.0;
            table = record { cells = p.1.1.1.0; sides = p.1.1.1.1 };
          };
        }) (λ _. refl)) };

    ghost view = { λ f. f.tables.items };

    ghost invariant = { λ f. AreTables f.tables.items };
}

impl FormTables {
    /// No table yet. It takes the memory of as many as there will ever be, and of one more while another is dropped.
    pub fn new(alloc: Global) -> Result<FormTables, Memory>
        ensures { IfOk result (λ tables. tables ≡ []) }
    {
        let tables = Vec::with_capacity(alloc, MOST_TABLES + 1)?;
        Ok(FormTables {
            alloc,
            tables,
            extractions: 0,
        })
    }

    /// There are at most eight, and no two are of one sheet.
    pub fn are_tables(&self)
        ensures { AreTables self.now }
    {
        // (reading a field lends the proof of what holds of all such tables)
        let _count = self.tables.len();
    }

    /// The forms that are kept of a sheet.
    pub fn get(&self, sheet: SheetId) -> Option<&Forms>
        ensures { option_map (λ forms. forms.now) result ≡ kept_of self.now sheet.0 }
    {
        match place_of(&self.tables, sheet) {
            Some(place) => Some(self.tables[place].forms()),
            None => None,
        }
    }

    /// The forms of a sheet after they were settled, with what that answered.
    pub fn settled<'a>(&'a self, sheet: SheetId, once: &'a Option<Forms>) -> Option<&'a Forms>
        ensures { option_map (λ forms. forms.now) result
            ≡ settled_of self.now sheet.0 once.now }
    {
        match once {
            Some(forms) => Some(forms),
            None => self.get(sheet),
        }
    }

    /// How many forms were made, at most the greatest number that there is.
    pub fn extractions(&self) -> u64 {
        self.extractions
    }

    /// Drops all tables.
    pub fn clear(&mut self)
        ensures { self.new ≡ [] }
    {
        self.tables.clear();
    }

    /// Drops the forms of the places that an edit of a cell touches, but for the tables over which the cell is to be decided. It takes
    /// no memory.
    pub fn mark(&mut self, deps: &Deps, cell: Cell)
        ensures { (book : Book) → AreReferencesOf deps.now book
            → all_forms self.new ≡ all_marked book (cell ∷ []) (all_forms self.old) }
    {
        mark_all(&mut self.tables, deps, cell);
    }

    /// Makes the forms of a sheet that are missing, over the decision cells and the sides that its names give. They stay in the sheet's
    /// table, where those that were made for other decision cells or sides give way, or in a new one; the ninth drops the one that was
    /// opened first among those whose sheet has no open search. Where each has one, the forms are handed out, made for the command
    /// alone. Before anything is dropped the memory for marks is taken.
    pub fn settle<L: Ledger>(
        &mut self,
        linked: &Linked<'_>,
        sheet: SheetId,
        adj: &Adj,
        sides: Vec<(u16, Expr)>,
        searching: &[bool],
        steps: &mut Steps<L>,
    ) -> Result<Option<Forms>, Memory>
        requires references { AreReferencesOf linked.now.deps.now (book_of linked.now.book.now) }
        requires numbers { HaveOwnNumbers sides.items }
        requires right { AreRight (book_of linked.now.book.now) (all_forms self.old) }
        requires listed { sheet.0 < length searching.now }
        ensures settled { IfOk result (Settles (book_of linked.now.book.now)
            (is_searching searching.now) sheet.0
            (record { decisions = adj.now; sides = sides.items }) self.old self.new) }
        ensures memory { OnErr result (Stops (book_of linked.now.book.now)
            (is_searching searching.now) sheet.0
            (record { decisions = adj.now; sides = sides.items }) self.old self.new) }
        ensures right { AreRight (book_of linked.now.book.now) (all_forms self.new) }
        ensures counted { steps.old ≤ steps.new }
        ensures few { MakesFew (book_of linked.now.book.now) (all_forms self.old) sheet.0
            (record { decisions = adj.now; sides = sides.items }) (steps.new - steps.old) }
    {
        if self.is_for_once(sheet, searching) {
            let forms = made(self.alloc, linked, adj, sides, steps, &mut self.extractions)?;
            return Ok(Some(forms));
        }
        let place = self.begin(sheet, adj, sides, searching)?;
        self.settle_at(place, linked, steps)?;
        Ok(None)
    }

    // Whether forms of the sheet would be made for the command alone.
    fn is_for_once(&self, sheet: SheetId, searching: &[bool]) -> bool
        ensures { result ≡ is_for_once (is_searching searching.now) (sheets_in self.now) sheet.0 }
    {
        match place_of(&self.tables, sheet) {
            Some(_) => false,
            None => is_full(&self.tables, searching),
        }
    }

    // Finds or puts the table of the sheet for these decision cells and sides.
    fn begin(
        &mut self,
        sheet: SheetId,
        adj: &Adj,
        sides: Vec<(u16, Expr)>,
        searching: &[bool],
    ) -> Result<usize, Memory>
        requires numbers { HaveOwnNumbers sides.items }
        requires kept { is_for_once (is_searching searching.now) (sheets_in self.old) sheet.0
            ≡ false }
        ensures begun { IfOk result (IsBegun (is_searching searching.now) sheet.0
            (record { decisions = adj.now; sides = sides.items }) self.old self.new) }
        ensures memory { OnErr result (self.new ≡ self.old) }
    {
        match place_of(&self.tables, sheet) {
            Some(place) => self.renew(place, adj, sides),
            None => {
                let forms = Forms::open(self.alloc, adj, sides)?;
                self.add(SheetTable::new(sheet, forms), searching)
            }
        }
    }

    // Has the table at a place be one for these decision cells and sides.
    fn renew(&mut self, place: usize, adj: &Adj, sides: Vec<(u16, Expr)>) -> Result<usize, Memory>
        requires numbers { HaveOwnNumbers sides.items }
        requires there { place < length self.old }
        ensures begun { IfOk result (λ at. (t : SheetKept) → slice_get self.old place ≡ Some t
            → (s : ℕ → Bool) → IsBegun s t.sheet
            (record { decisions = adj.now; sides = sides.items }) self.old self.new at) }
        ensures memory { OnErr result (self.new ≡ self.old) }
    {
        let table = &self.tables[place];
        if table.is_for(adj, &sides) {
            return Ok(place);
        }
        let sheet = table.sheet();
        let forms = Forms::open(self.alloc, adj, sides)?;
        self.tables[place] = SheetTable::new(sheet, forms);
        Ok(place)
    }

    // Puts a table of a further sheet last. Where there are eight, one is dropped.
    fn add(&mut self, table: SheetTable, searching: &[bool]) -> Result<usize, Memory>
        requires new { has_sheet (sheets_in self.old) table.sheet ≡ false }
        requires kept { is_for_once (is_searching searching.now) (sheets_in self.old) table.sheet
            ≡ false }
        requires none { table.kept.table ≡ no_forms }
        ensures begun { IfOk result (IsBegun (is_searching searching.now) table.sheet
            (parts_of table.kept) self.old self.new) }
        ensures memory { OnErr result (self.new ≡ self.old) }
    {
        let count = self.tables.len();
        let idle = first_idle(&self.tables, searching);
        self.tables.push(table)?;
        if count < MOST_TABLES {
            return Ok(count);
        }
        match idle {
            Some(place) => drop(self.tables.remove(place)),
            None => unreachable!(),
        }
        Ok(count - 1)
    }

    // Makes the forms that are missing in the table at a place.
    fn settle_at<L: Ledger>(
        &mut self,
        place: usize,
        linked: &Linked<'_>,
        steps: &mut Steps<L>,
    ) -> Result<(), Memory>
        requires references { AreReferencesOf linked.now.deps.now (book_of linked.now.book.now) }
        requires there { place < length self.old }
        requires kept { (t : SheetKept) → slice_get self.old place ≡ Some t
            → AreKept (book_of linked.now.book.now) t.kept }
        ensures goes { Goes (book_of linked.now.book.now) place self.old self.new }
        ensures tables { AreTables self.new }
        ensures settled { OnOk result ((t : SheetKept) → slice_get self.new place ≡ Some t
            → AllAreKept (book_of linked.now.book.now) t.kept) }
        ensures counted { steps.old ≤ steps.new }
        ensures bound { (t : SheetKept) → slice_get self.old place ≡ Some t → steps.new
            ≤ steps.old + count_to_make (book_of linked.now.book.now) t.kept }
    {
        let table = &mut self.tables[place];
        let count = table.settle(linked, steps)?;
        self.extractions = self.extractions.saturating_add(count as u64);
        Ok(())
    }
}

// All forms over some decision cells and sides, which are counted among those that were made.
fn made<L: Ledger>(
    alloc: Global,
    linked: &Linked<'_>,
    adj: &Adj,
    sides: Vec<(u16, Expr)>,
    steps: &mut Steps<L>,
    extractions: &mut u64,
) -> Result<Forms, Memory>
    requires references { AreReferencesOf linked.now.deps.now (book_of linked.now.book.now) }
    requires numbers { HaveOwnNumbers sides.items }
    ensures given { IfOk result (λ forms. parts_of forms
        ≡ record { decisions = adj.now; sides = sides.items }) }
    ensures full { IfOk result (AllAreKept (book_of linked.now.book.now)) }
    ensures counted { steps.old ≤ steps.new }
    ensures bound { steps.new ≤ steps.old + count_to_make (book_of linked.now.book.now)
        (record { decisions = adj.now; sides = sides.items; table = no_forms }) }
{
    let mut forms = Forms::open(alloc, adj, sides)?;
    let count = forms.settle(linked.book, linked.deps, steps)?;
    *extractions = extractions.saturating_add(count as u64);
    Ok(forms)
}
