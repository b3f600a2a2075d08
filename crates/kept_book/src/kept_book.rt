// A workbook of which references and forms are kept.
ghost use Rattle.std.specs.Prelude.{◌≡◌, ◌<◌, ◌≤◌, ◌-◌, [], ◌∷◌, ℕ, IfErr, IfOk, IfSome, OnErr, false, length, option_map};
ghost use Rattle.commands.specs.Lines.{CanBeSaid};
ghost use Rattle.cell_refs.specs.declared.units.TheConstants.{MOST_UNITS};
ghost use Rattle.sheet_solving.specs.FromKeptForms.{all_forms, is_searching};
ghost use Rattle.kept_book.specs.Kept.{AreMarked, IsFollowed, NamesKept, SetsKept, UnnamesKept, written_cells};
ghost use Rattle.sheet_solving.specs.FromKeptTables.{AreRight};
ghost use Rattle.recalc.specs.Showing.{IsShown};
ghost use Rattle.search_bounds.specs.Choices.{IsBounded};
ghost use Rattle.search_bounds.specs.Enough.{enough_for};
ghost use Rattle.sheet_solving.specs.FromSheetLinearModel.{CountsFew, Prepares, SettlesForms, StopIsListed, parts_in, prepared_of};
ghost use Rattle.sheet_solving.specs.FromSheetLinearModel.{IsPrepared, Prepared as OfSheet};
ghost use Rattle.sheet_solving.specs.FromSheetProblems.{ModelIsTheSheet};
ghost use Rattle.sheet_solving.specs.Searches.{GoesFurther, task_from, whole_task};
ghost use Rattle.sheet_solving.specs.Solving.{HasBudgetLeft, Slices, Solves};
ghost use Rattle.solver_names.specs.Answers.{statement_of};
ghost use Rattle.sheet_solving.specs.FromStatementLaws.{IsWhole};
ghost use Rattle.workbook.specs.Edits.{after_set, is_outside};
ghost use Rattle.workbook.specs.Kinds.{book_of};

use crate::marks::{follow, follow_answer};
use crate::references::references_of;
use cell_refs::{Cell, SheetId, SheetNames};
use commands::{Answer, MOST_UNITS};
use dep_table::Deps;
use memory::Memory;
use node_pick::Picker;
use recalc::{Shown, value};
use sheet_solving::{
    Allowed, FormTables, Linked, NoModel, OpenSearch, Prepared, Steps, prepare, slice, solve,
};
use solver_names::Statement;
use std::alloc::Global;
use std::marker::Model;
use std::sync::ledger::Ledger;
use workbook::{EditFault, Workbook};

/// A workbook, the references of its formulas from the first time on that they are wanted, and the forms of at most eight of its
/// sheets. They follow each edit; where there is no memory for that, they are dropped, and found or made again when they are wanted.
#[derive(Drop)]
pub struct KeptBook {
    alloc: Global,
    book: Workbook,
    references: Option<Deps>,
    tables: FormTables,
}

impl Model for KeptBook {
    ghost use Rattle.std.specs.Coded.{codes, coded_ℕ};
    ghost use Rattle.std.specs.FinMap.{code};
    ghost use Rattle.cell_refs.specs.Cells.{coded_cell};
    ghost use Rattle.formula_ast.specs.Code.{Mark};
    ghost use Rattle.kept_book.specs.Codes.{kept_code, tables_code};
    ghost use Rattle.kept_book.specs.Kept.{IsKept, KeptState};

    ghost Value = { KeptState };

    ghost coded = { kept_code (tables_code (Prim.hlevel codes)
        (code coded_cell (Prim.hlevel codes)) (code coded_ℕ (Prim.hlevel codes))) };

    ghost view = { λ k. record { book = k.book; tables = k.tables } };

    ghost invariant = { λ k. IsKept k.references (record { book = k.book; tables = k.tables }) };
}

// ---- what is read
impl KeptBook {
    /// A workbook of which nothing is kept yet.
    pub fn new(alloc: Global, book: Workbook) -> Result<KeptBook, Memory>
        ensures { IfOk result (λ k. k ≡ record { book = book; tables = [] }) }
    {
        let tables = FormTables::new(alloc)?;
        Ok(KeptBook {
            alloc,
            book,
            references: None,
            tables,
        })
    }

    /// The workbook itself.
    pub fn workbook(&self) -> &Workbook
        ensures { result.now ≡ self.now.book }
    {
        &self.book
    }

    /// The names of its sheets.
    pub fn sheets(&self) -> &SheetNames
        ensures { result.now ≡ self.now.book.sheets }
    {
        self.book.sheets()
    }

    /// Each form that is kept is that of its place.
    pub fn forms_are_right(&self)
        ensures { AreRight (book_of self.now.book) (all_forms self.now.tables) }
    {
        // (this reading lends the proof of what holds of all that is kept)
        let _book = self.book.sheets();
    }

    /// How many forms were made, over all commands.
    pub fn extractions(&self) -> u64 {
        self.tables.extractions()
    }

    /// The value of a cell, or the wide cell.
    pub fn value(&mut self, cell: Cell) -> Result<Shown, Memory>
        ensures shown { IfOk result (IsShown (book_of self.old.book) cell) }
        ensures same { self.new ≡ self.old }
    {
        let references = references_of(self.references.take(), self.alloc, &self.book)?;
        let shown = value(self.alloc, &self.book, &references, cell);
        self.references = Some(references);
        shown
    }

    /// The linear model of a sheet, over the forms that are kept and those that are missing, which are made and kept.
    pub fn prepare<L: Ledger>(
        &mut self,
        sheet: SheetId,
        searching: &[bool],
        steps: &mut Steps<L>,
    ) -> Result<Prepared, NoModel>
        requires listed { sheet.0 < length self.old.book.sheets }
        requires searching { sheet.0 < length searching.now }
        ensures prepares { Prepares self.old.book sheet.0 result }
        ensures model { IfOk result
            (λ p. ModelIsTheSheet self.old.book (statement_of p.statement) p.model) }
        ensures whole { IfOk result (λ p. IsWhole self.old.book (statement_of p.statement)) }
        ensures said { IfErr result (StopIsListed self.old.book) }
        ensures same { self.new.book ≡ self.old.book }
        ensures settles { SettlesForms self.old.book (is_searching searching.now) sheet.0
            result self.old.tables self.new.tables }
        ensures counted { steps.old ≤ steps.new }
        ensures few { CountsFew self.old.book self.old.tables sheet.0
            (parts_in self.old.book sheet.0) (steps.new - steps.old) }
    {
        let references = references_of(self.references.take(), self.alloc, &self.book)?;
        let linked = Linked {
            book: &self.book,
            deps: &references,
        };
        let prepared = prepare(
            self.alloc,
            &linked,
            sheet,
            &mut self.tables,
            searching,
            steps,
        );
        self.references = Some(references);
        prepared
    }
}

// ---- edits
impl KeptBook {
    /// Puts a text into a cell. The inner answer is want of memory to follow the edit once it was made.
    pub fn set(&mut self, cell: Cell, text: &str) -> Result<Result<(), Memory>, EditFault>
        requires listed { cell.sheet.0 < length self.old.book.sheets }
        ensures { SetsKept self.old cell text.now result self.new }
    {
        self.book.set(cell, text)?;
        Ok(follow(&mut self.references, &mut self.tables, &self.book, &[cell]))
    }

    /// Takes away the text of a cell.
    pub fn clear(&mut self, cell: Cell)
        requires listed { cell.sheet.0 < length self.old.book.sheets }
        requires inside { is_outside cell ≡ false }
        ensures book { self.new.book ≡ after_set self.old.book cell [] }
        ensures marked { AreMarked (cell ∷ []) self.old self.new }
    {
        self.book.clear(cell);
        match follow(&mut self.references, &mut self.tables, &self.book, &[cell]) {
            Ok(()) => {}
            Err(_) => unreachable!(),
        }
    }

    /// Gives a name a text, for a sheet or for the whole workbook. The inner answer is want of memory to follow the edit once it was
    /// made.
    pub fn name(
        &mut self,
        sheet: Option<SheetId>,
        name: &str,
        text: &str,
    ) -> Result<Result<(), Memory>, EditFault>
        requires listed { IfSome sheet (λ s. s.0 < length self.old.book.sheets) }
        ensures { NamesKept self.old (option_map (λ s. s.0) sheet) name.now text.now
            result self.new }
    {
        let cells = self.book.name(sheet, name, text)?;
        Ok(follow(&mut self.references, &mut self.tables, &self.book, &cells))
    }

    /// Takes away a name of a sheet or of the whole workbook. The inner answer is want of memory to follow the edit once it was made.
    pub fn unname(
        &mut self,
        sheet: Option<SheetId>,
        name: &str,
    ) -> Result<Result<(), Memory>, Memory>
        requires listed { IfSome sheet (λ s. s.0 < length self.old.book.sheets) }
        ensures { UnnamesKept self.old (option_map (λ s. s.0) sheet) name.now result self.new }
    {
        let cells = self.book.unname(sheet, name)?;
        Ok(follow(&mut self.references, &mut self.tables, &self.book, &cells))
    }
}

// ---- searches, whose optimum is written into the cells to be decided
impl KeptBook {
    /// Solves the model of a sheet. The second answer is want of memory to follow the optimum once it was written.
    pub fn solve(
        &mut self,
        of: Prepared,
        budget: u64,
        pick: &mut Box<dyn Picker>,
    ) -> Result<(Answer, Result<(), Memory>), Memory>
        requires budget { budget ≤ MOST_UNITS }
        requires prepared { (sheet : ℕ) × IsPrepared self.old.book sheet (prepared_of of) }
        requires model { ModelIsTheSheet self.old.book (statement_of of.statement) of.model }
        requires whole { IsWhole self.old.book (statement_of of.statement) }
        ensures solves { IfOk result
            (λ s. Solves (whole_task (rule pick.old) budget) self.old.book
            (statement_of of.statement) of.model s.0 self.new.book) }
        ensures follows { IfOk result
            (λ s. IsFollowed s.1 (written_cells s.0 of.statement.adj) self.old self.new) }
        ensures said { IfOk result (λ s. CanBeSaid self.old.book.sheets s.0) }
        ensures sheets { self.new.book.sheets ≡ self.old.book.sheets }
        ensures memory { OnErr result (self.new ≡ self.old) }
        ensures enough { IsBounded of.model → enough_for of.model ≤ budget
            → IfOk result (λ s. HasBudgetLeft s.0) }
        ensures rule { rule pick.new ≡ rule pick.old }
    {
        let decisions = of.statement.adj.copy()?;
        let answer = solve(self.alloc, &mut self.book, of, budget, pick)?;
        let cells = decisions.cells();
        let followed = follow_answer(
            &mut self.references,
            &mut self.tables,
            &self.book,
            cells,
            &answer,
        );
        Ok((answer, followed))
    }

    /// Goes on with a search of the model of a sheet. The second answer is want of memory to follow the optimum once it was written.
    pub fn slice(
        &mut self,
        statement: &Statement,
        search: &mut OpenSearch,
        allowed: Allowed,
        pick: &mut Box<dyn Picker>,
    ) -> Result<(Answer, Result<(), Memory>), Memory>
        requires budget { allowed.budget ≤ MOST_UNITS }
        requires prepared { (sheet : ℕ) × (p : OfSheet) × IsPrepared self.old.book sheet p
            × (p.statement ≡ statement_of statement.now) × (p.model ≡ search.old.model) }
        requires model { ModelIsTheSheet self.old.book
            (statement_of statement.now) search.old.model }
        requires whole { IsWhole self.old.book (statement_of statement.now) }
        ensures slices { IfOk result (λ s. Slices (task_from (rule pick.old) search.old
            allowed.units allowed.budget) self.old.book (statement_of statement.now)
            search.old.model s.0 search.new self.new.book) }
        ensures follows { IfOk result
            (λ s. IsFollowed s.1 (written_cells s.0 statement.now.adj) self.old self.new) }
        ensures said { IfOk result (λ s. CanBeSaid self.old.book.sheets s.0) }
        ensures sheets { self.new.book.sheets ≡ self.old.book.sheets }
        ensures memory { OnErr result (self.new ≡ self.old) }
        ensures further { GoesFurther (task_from (rule pick.old) search.old
            allowed.units allowed.budget) search.old.model search.new }
        ensures rule { rule pick.new ≡ rule pick.old }
    {
        let answer = slice(self.alloc, &mut self.book, statement, search, allowed, pick)?;
        let cells = statement.adj.cells();
        let followed = follow_answer(
            &mut self.references,
            &mut self.tables,
            &self.book,
            cells,
            &answer,
        );
        Ok((answer, followed))
    }
}
