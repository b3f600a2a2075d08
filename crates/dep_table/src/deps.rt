// The references of the formulas of a workbook.
ghost use Rattle.std.specs.Prelude.{◌≡◌, ◌≢◌, ◌<◌, ◌⊎◌, Bool, IfNone, IfOk, IfSome, OnErr, OnOk, Some, false, length, map, option_map, slice_get, slice_index, slice_index_or, true, vec_len, ℕ, ⊤};
ghost use Rattle.std.specs.FinMap as map;
ghost use Rattle.std.specs.FinSet as set;
ghost use Rattle.cell_refs.specs.declared.cell.Cell.{Cell};
ghost use Rattle.cell_refs.specs.declared.limits.TheConstants.{TEXTS};
ghost use Rattle.column_strips.specs.Strips.{AreStrips};
ghost use Rattle.formula_ast.specs.Measures.{references_of};
ghost use Rattle.dep_table.specs.Affected.{AreAffected};
ghost use Rattle.recalculation.specs.Entries.{Book};
ghost use Rattle.recalculation.specs.Walks.{is_circular};
ghost use Rattle.workbook.specs.Kinds.{book_of};
ghost use Rattle.column_strips.specs.declared.formulas.Formula.{Formula};
ghost use Rattle.dep_table.specs.Edges.{edge};
ghost use Rattle.dep_table.specs.Formulas.{AreSorted, IsWanted, references_in};
ghost use Rattle.dep_table.specs.Order.{HasCircular, HasFree, IsOrder, Reaches};
ghost use Rattle.dep_table.specs.References.{AreReferencesOf};
ghost use Rattle.dep_table.specs.Spreading.{IsClosed};
ghost use Rattle.dep_table.specs.Tour.{mark_at};

use crate::CellSet;
use crate::open::formulas_of;
use crate::reached::reached_from;
use crate::tour::{Mark, tour_wanted};
use cell_refs::{Cell, SheetId};
use column_strips::{Formula, Marks, ReferenceTable, Strip};
use formula_ast::Expr;
use sheet_model::Memory;
use std::alloc::Global;
use std::marker::Model;
use workbook::Workbook;

/// The areas to which each formula of a workbook refers.
#[derive(Drop)]
pub struct Deps {
    kept: ReferenceTable,
}

impl Model for Deps {
    ghost use Rattle.column_strips.specs.Codes.{references_code};
    ghost use Rattle.column_strips.specs.Formulas.{References};

    ghost Value = { References };

    ghost coded = { references_code };

    ghost view = { λ d. d.kept };
}

/// The circular cells, and the other formula cells, each after those to which it refers.
#[derive(Drop)]
pub struct Tour {
    pub circular: CellSet,
    pub order: Vec<Cell>,
}

impl Deps {
    /// The references of a workbook.
    pub fn open(alloc: Global, book: &Workbook) -> Result<Deps, Memory>
        ensures { IfOk result (λ d. AreReferencesOf d (book_of book.now)) }
    {
        let formulas = formulas_of(alloc, book)?;
        let kept = ReferenceTable::of(alloc, formulas)?;
        Ok(Deps { kept })
    }

    /// For how many cells it keeps areas.
    pub fn len(&self) -> usize
        ensures { result ≡ map.len self.now }
    {
        self.kept.len()
    }

    /// Keeps the areas to which a tree refers for a cell, in the place of those that were kept for it.
    pub fn put(&mut self, cell: Cell, tree: &Expr) -> Result<(), Memory>
        requires { (map.contains_key self.old cell ≡ true) ⊎ (map.len self.old < TEXTS) }
        ensures ok { OnOk result (self.new ≡ map.insert self.old cell (references_of tree.now)) }
        ensures err { OnErr result (self.new ≡ self.old) }
    {
        let alloc = self.kept.allocator();
        let Ok(areas) = tree.references(alloc) else {
            return Err(Memory);
        };
        self.kept.put(cell, areas)
    }

    /// Drops what is kept for a cell.
    pub fn take(&mut self, cell: Cell)
        ensures { self.new ≡ map.remove self.old cell }
    {
        self.kept.take(cell);
    }

    /// The strips of a column: the rows of it to which formulas refer, by the formulas' cells, first rows and last rows.
    pub fn strips(&self, sheet: SheetId, col: u16) -> &[Strip]
        ensures { AreStrips self.now sheet.0 col result.now }
    {
        self.kept.strips(sheet, col)
    }

    /// Marks a cell and the cells that reach it: those whose formulas refer to it, those whose formulas refer to these, and so
    /// on, in each workbook that has these references.
    pub fn affected(&self, from: Cell, marks: &mut Marks)
        requires { marks.old ≡ set.empty }
        ensures { (book : Book) → AreReferencesOf self.now book
            → AreAffected book from (set.contains marks.new) }
    {
        self.kept.affected(from, marks);
    }

    /// The circular cells where the leaves refer to nothing, as in each workbook that has these references.
    pub fn circular(&self, leaves: &CellSet) -> Result<CellSet, Memory>
        ensures { IfOk result (λ found. (book : Book) → AreReferencesOf self.now book
            → (a : Cell) → set.contains found a ≡ is_circular book (set.contains leaves.now) a) }
    {
        let tour = self.tour(leaves)?;
        Ok(tour.circular)
    }

    /// The circular cells, and the other formula cells, each after those to which it refers, as in each workbook that has these
    /// references.
    pub fn tour(&self, leaves: &CellSet) -> Result<Tour, Memory>
        ensures circular { IfOk result (λ t. (book : Book) → AreReferencesOf self.now book
            → (a : Cell) → set.contains t.circular a
            ≡ is_circular book (set.contains leaves.now) a) }
        ensures order { IfOk result (λ t. (book : Book) → AreReferencesOf self.now book
            → IsOrder book (set.contains leaves.now) t.order.items) }
        ensures all { IfOk result (λ t. (book : Book) → AreReferencesOf self.now book
            → HasFree book (set.contains leaves.now) (λ a. ⊤) t.order.items) }
    {
        let alloc = self.kept.allocator();
        let formulas = self.kept.formulas();
        let flags = flags_of(alloc, formulas, leaves)?;
        let wanted = vec![in alloc; true; formulas.len()]?;
        let tour = tour_of(alloc, formulas, &flags, &wanted)?;
        Ok(tour)
    }

    /// A tour where those formula cells alone are wanted to which references lead from a cell. Others may be in it as well.
    pub fn tour_from(&self, leaves: &CellSet, from: Cell) -> Result<Tour, Memory>
        ensures circular { IfOk result (λ t. (book : Book) → AreReferencesOf self.now book
            → HasCircular book (set.contains leaves.now)
            (Reaches book (set.contains leaves.now) from) (set.contains t.circular)) }
        ensures order { IfOk result (λ t. (book : Book) → AreReferencesOf self.now book
            → IsOrder book (set.contains leaves.now) t.order.items) }
        ensures all { IfOk result (λ t. (book : Book) → AreReferencesOf self.now book
            → HasFree book (set.contains leaves.now)
            (Reaches book (set.contains leaves.now) from) t.order.items) }
    {
        let alloc = self.kept.allocator();
        let formulas = self.kept.formulas();
        let flags = flags_of(alloc, formulas, leaves)?;
        let wanted = wanted_from(alloc, formulas, &flags, from)?;
        let tour = tour_of(alloc, formulas, &flags, &wanted)?;
        Ok(tour)
    }
}

// A tour of the formulas that are wanted, by their cells.
fn tour_of(
    alloc: Global,
    formulas: &[Formula],
    leaves: &[bool],
    wanted: &[bool],
) -> Result<Tour, Memory>
    requires sorted { AreSorted formulas.now }
    requires leaves { length leaves.now ≡ length formulas.now }
    requires wanted { length wanted.now ≡ length formulas.now }
    ensures circular { IfOk result (λ t. (book : Book) (is_leaf : Cell → Bool)
        → AreReferencesOf (references_in formulas.now) book
        → leaves.now ≡ map (λ (f : Formula). is_leaf f.cell) formulas.now
        → HasCircular book is_leaf (IsWanted formulas.now wanted.now) (set.contains t.circular)) }
    ensures order { IfOk result (λ t. (book : Book) (is_leaf : Cell → Bool)
        → AreReferencesOf (references_in formulas.now) book
        → leaves.now ≡ map (λ (f : Formula). is_leaf f.cell) formulas.now
        → IsOrder book is_leaf t.order.items
        × HasFree book is_leaf (IsWanted formulas.now wanted.now) t.order.items) }
{
    let toured = tour_wanted(alloc, formulas, leaves, wanted)?;
    let circular = circular_cells(alloc, formulas, &toured.marks)?;
    let order = cells_at(alloc, formulas, &toured.order)?;
    Ok(Tour { circular, order })
}

// For each formula, whether references lead to it from a cell.
fn wanted_from(
    alloc: Global,
    formulas: &[Formula],
    leaves: &[bool],
    from: Cell,
) -> Result<Vec<bool>, Memory>
    requires sorted { AreSorted formulas.now }
    requires leaves { length leaves.now ≡ length formulas.now }
    ensures length { IfOk result (λ wanted. length wanted.items ≡ length formulas.now) }
    ensures from { IfOk result (λ wanted. (i : ℕ) (f : Formula) → slice_get formulas.now i
        ≡ Some f → f.cell ≡ from
        → slice_index_or wanted.items i false ≡ true) }
    ensures closed { IfOk result (λ wanted. IsClosed (edge formulas.now leaves.now) wanted.items) }
{
    let Some(place) = place_of(formulas, from) else {
        return Ok(vec![in alloc; false; formulas.len()]?);
    };
    let wanted = reached_from(alloc, formulas, leaves, place)?;
    Ok(wanted)
}

// The place of the formula of a cell.
fn place_of(formulas: &[Formula], cell: Cell) -> Option<usize>
    ensures none { IfNone result ((i : ℕ) (f : Formula) → slice_get formulas.now i
        ≡ Some f → f.cell ≢ cell) }
    ensures some { IfSome result (λ i. (f : Formula) × (slice_get formulas.now i ≡ Some f)
        × (f.cell ≡ cell)) }
{
    for place in 0..formulas.len() {
        if formulas[place].cell.cmp(&cell).is_eq() {
            return Some(place);
        }
    }
    None
}

// For each formula, whether its cell is among the leaves.
fn flags_of(alloc: Global, formulas: &[Formula], leaves: &CellSet) -> Result<Vec<bool>, Memory>
    ensures { IfOk result (λ flags. flags.items
        ≡ map (λ (f : Formula). set.contains leaves.now f.cell) formulas.now) }
{
    let mut flags = Vec::new(alloc);
    for formula in formulas {
        flags.push(leaves.has(formula.cell))?;
    }
    Ok(flags)
}

// The cells of the formulas whose marks say that they are circular.
fn circular_cells(alloc: Global, formulas: &[Formula], marks: &[Mark]) -> Result<CellSet, Memory>
    requires { length marks.now ≡ length formulas.now }
    ensures sound { IfOk result (λ found. (a : Cell) → set.contains found a ≡ true
        → (i : ℕ) × (f : Formula) × (slice_get formulas.now i ≡ Some f) × (f.cell ≡ a)
        × (mark_at marks.now i ≡ Mark.Circular)) }
    ensures complete { IfOk result (λ found. (i : ℕ) (f : Formula)
        → slice_get formulas.now i ≡ Some f
        → mark_at marks.now i ≡ Mark.Circular → set.contains found f.cell ≡ true) }
{
    let mut found = CellSet::new(alloc);
    for place in 0..formulas.len() {
        let Mark::Circular = marks[place] else {
            continue;
        };
        found.add(formulas[place].cell)?;
    }
    Ok(found)
}

// The cells at some places.
fn cells_at(alloc: Global, formulas: &[Formula], places: &[usize]) -> Result<Vec<Cell>, Memory>
    requires { (p : ℕ) → p < length places.now → slice_index places.now p < length formulas.now }
    ensures count { IfOk result (λ found. vec_len found ≡ length places.now) }
    ensures each { IfOk result (λ found. (p : ℕ) → p < length places.now
        → slice_get found.items p ≡ option_map (λ (f : Formula). f.cell)
        (slice_get formulas.now (slice_index places.now p))) }
{
    let mut found = Vec::new(alloc);
    for &place in places {
        found.push(formulas[place].cell)?;
    }
    Ok(found)
}
