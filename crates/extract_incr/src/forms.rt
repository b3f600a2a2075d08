// Forms that are kept.
ghost use Rattle.std.specs.Prelude.{◌≡◌, ◌≤◌, ◌+◌, All, IfOk, None, OnErr, option_map};
ghost use Rattle.dep_table.specs.References.{AreReferencesOf};
ghost use Rattle.needed_forms.specs.FromExtract.{form_at, no_forms};
ghost use Rattle.needed_forms.specs.FromFormNeeds.{IsRefusal};
ghost use Rattle.kept_marks.specs.Marks.{without_marked};
ghost use Rattle.extract_incr.specs.Keeping.{AllAreKept, AreKept, GrowsTo, HaveOwnNumbers, asked_from, count_to_make, stale_count};
ghost use Rattle.needed_forms.specs.FromNeededCells.{IsRoot};
ghost use Rattle.recalculation.specs.Entries.{Book};
ghost use Rattle.needed_forms.specs.FromSheetProblems.{tree_of};
ghost use Rattle.kept_marks.specs.FromTouchedPlaces.{touches};
ghost use Rattle.workbook.specs.Kinds.{book_of};
ghost use Rattle.cell_refs.specs.declared.place.Place.{Place};

use crate::marking::{SideAreas, areas_of, take_cells, take_sides};
use crate::settle::settle;
use cell_refs::Cell;
use column_strips::Marks;
use dep_table::Deps;
use formula_ast::Expr;
use memory::Memory;
use needed_forms::{CellForm, FormRefusal, FormTable, Steps, first_refusal};
use std::alloc::Global;
use std::marker::Model;
use std::sync::ledger::Ledger;
use workbook::{Adj, Place, Workbook};

/// The forms of some formula cells and of some sides, over the cells to be decided. The areas of the sides and the marks are there
/// so that a mark needs no memory.
#[derive(Drop)]
pub struct Forms {
    alloc: Global,
    adj: Adj,
    sides: Vec<(u16, Expr)>,
    table: FormTable,
    areas: Vec<SideAreas>,
    marks: Marks,
}

impl Model for Forms {
    ghost use Rattle.std.specs.Prelude.{refl, ℕ, List};
    ghost use Rattle.std.specs.FinMap.{FinMap, code};
    ghost use Rattle.std.specs.Ordering.{nat_cmp};
    ghost use Rattle.std.specs.Coded.{code_by, codes, coded×, coded_list, coded_ℕ};
    ghost use Rattle.cell_refs.specs.Cells.{cell_cmp, coded_cell};
    ghost use Rattle.cell_refs.specs.declared.cell.Cell.{Cell};
    ghost use Rattle.formula_ast.specs.Code.{Mark, back, from_marks, to_marks};
    ghost use Rattle.formula_ast.specs.Tree.{Tree};
    ghost use Rattle.needed_forms.specs.FromFormExtraction.{CellForm};
    ghost use Rattle.extract_incr.specs.Keeping.{HaveOwnNumbers, Kept};
    ghost use Rattle.extract_incr.specs.Marking.{AreAreasOf};

    ghost Value = { Kept };

    ghost coded = { code_by (List Cell
        × (List (ℕ × Tree) × (FinMap cell_cmp CellForm × FinMap nat_cmp CellForm)))
        (coded× (coded_list coded_cell) (coded× (coded_list
        (coded× coded_ℕ (code_by (List Mark) (Prim.hlevel codes) to_marks from_marks back)))
        (coded× (code coded_cell (Prim.hlevel codes)) (code coded_ℕ (Prim.hlevel codes)))))
        (λ k. (k.decisions, (k.sides, (k.table.cells, k.table.sides)))) (λ p. record {
          decisions = p.0;
          sides = p.1.0;
          table = record { cells = p.1.1.0; sides = p.1.1.1 };
        }) (λ _. refl) };

    ghost view = { λ f. record { decisions = f.adj; sides = f.sides.items; table = f.table } };

    ghost invariant = { λ f. HaveOwnNumbers f.sides.items
        × AreAreasOf f.areas.items f.sides.items };
}

impl Forms {
    /// No form is kept yet. It takes all the memory that marks will ever need.
    pub fn open(alloc: Global, adj: &Adj, sides: Vec<(u16, Expr)>) -> Result<Forms, Memory>
        requires numbers { HaveOwnNumbers sides.items }
        ensures { IfOk result (λ forms. forms
            ≡ record { decisions = adj.now; sides = sides.items; table = no_forms }) }
    {
        let adj = adj.copy()?;
        let areas = areas_of(alloc, &sides)?;
        let marks = Marks::new(alloc)?;
        Ok(Forms {
            alloc,
            adj,
            sides,
            table: FormTable::new(alloc),
            areas,
            marks,
        })
    }

    /// Drops the forms of the places that an edit of a cell touches: of the cell, of the cells that reach it, and of the sides that refer
    /// to one of these. It takes no memory.
    pub fn mark(&mut self, deps: &Deps, cell: Cell)
        ensures forms { (book : Book) → AreReferencesOf deps.now book → (p : Place)
            → form_at self.new.table p ≡ without_marked
            (touches book (tree_of self.old.sides) cell) (form_at self.old.table) p }
        ensures decisions { self.new.decisions ≡ self.old.decisions }
        ensures sides { self.new.sides ≡ self.old.sides }
    {
        self.marks.clear();
        deps.affected(cell, &mut self.marks);
        let cells = self.marks.cells();
        take_cells(cells, &mut self.table);
        take_sides(&self.areas, cells, &mut self.table);
    }

    /// Makes the forms of all stale places, each once, and answers how many places were stale. A form is a step, but for those of
    /// circular places, which are known. With want of memory what was made stays.
    pub fn settle<L: Ledger>(
        &mut self,
        book: &Workbook,
        deps: &Deps,
        steps: &mut Steps<L>,
    ) -> Result<usize, Memory>
        requires references { AreReferencesOf deps.now (book_of book.now) }
        requires kept { AreKept (book_of book.now) self.old }
        ensures settled { IfOk result (λ n. AllAreKept (book_of book.now) self.new) }
        ensures count { IfOk result (λ n. n ≡ stale_count (book_of book.now) self.old) }
        ensures kept { AreKept (book_of book.now) self.new }
        ensures grown { GrowsTo self.old self.new }
        ensures counted { steps.old ≤ steps.new }
        ensures bound { steps.new ≤ steps.old + count_to_make (book_of book.now) self.old }
    {
        let before = self.table.len();
        settle(
            self.alloc,
            book,
            deps,
            &self.adj,
            &self.sides,
            &mut self.table,
            steps,
        )?;
        Ok(self.table.len() - before)
    }

    /// The cells to be decided.
    pub fn decisions(&self) -> &Adj
        ensures { result.now ≡ self.now.decisions }
    {
        &self.adj
    }

    /// The sides.
    pub fn sides(&self) -> &[(u16, Expr)]
        ensures { result.now ≡ self.now.sides }
    {
        &self.sides
    }

    /// The form of a place, where one is kept.
    pub fn get(&self, place: Place) -> Option<&CellForm>
        ensures { option_map (λ form. form.now) result ≡ form_at self.now.table place }
    {
        self.table.get(place)
    }

    /// The first refusal over the places that a model of these roots needs. `None` where there is none.
    pub fn refusal(&self, book: &Workbook, roots: &[Place]) -> Result<Option<FormRefusal>, Memory>
        requires settled { AllAreKept (book_of book.now) self.now }
        requires roots { All (IsRoot self.now.sides) roots.now }
        ensures { IfOk result (IsRefusal (asked_from (book_of book.now) self.now roots.now)) }
    {
        first_refusal(self.alloc, book, &self.adj, &self.sides, &self.table, roots)
    }
}
