// The values of cells by rounds over all formulas, as their definition says them: a plain program beside the definition.
ghost use Rattle.std.specs.Prelude.{◌≡◌, IfOk, IfSome, OnOk, Some, length, option_map, slice_get, true, ℕ};
ghost use Rattle.std.specs.FinSet as set;
ghost use Rattle.cell_refs.specs.Areas.{cells_of};
ghost use Rattle.cell_refs.specs.declared.cell.Cell.{Cell};
ghost use Rattle.cell_refs.specs.declared.error_kind.ErrorKind.TheVariants as kind;
ghost use Rattle.dep_table.specs.References.{AreReferencesOf};
ghost use Rattle.recalculation.specs.Entries.{entry, no_overriding, nothing};
ghost use Rattle.recalculation.specs.Looks.{elements};
ghost use Rattle.recalculation.specs.Narrow.{known, known_over};
ghost use Rattle.recalculation.specs.Walks.{is_circular, is_formula};
ghost use Rattle.recalc.specs.Rounds.{HasValue, IsRound};
ghost use Rattle.sheet_model.specs.declared.value.Value.TheVariants.{Error};
ghost use Rattle.workbook.specs.Kinds.{book_of};

use crate::rows::{Row, put};
use crate::seen::Seen;
use cell_refs::{Area, Cell, ErrorKind};
use dep_table::{CellSet, Deps};
use evaluation::{Cells, evaluate};
use sheet_model::{Memory, Value};
use std::alloc::Global;
use std::collections::BTreeMap;
use workbook::Workbook;

/// The narrow value of a cell, if it has one, by one round more over all formulas than there are texts. It takes as many
/// evaluations of each formula, and serves to compute what the definition says on small workbooks: tests alone call it.
pub fn known_in_rounds(
    alloc: Global,
    book: &Workbook,
    deps: &Deps,
    cell: Cell,
) -> Result<Option<Value>, Memory>
    requires { AreReferencesOf deps.now (book_of book.now) }
    ensures { IfOk result (λ value. value ≡ known (book_of book.now) no_overriding cell) }
{
    let tour = deps.tour(&CellSet::new(alloc))?;
    let mut formulas = tour.circular.cells(alloc)?;
    formulas.extend_from_slice(&tour.order)?;
    let mut rows = round(alloc, book, &formulas, &tour.circular, &AllCircular)?;
    for _ in 0..book.texts() {
        let before = Seen { book, rows: &rows };
        let after = round(alloc, book, &formulas, &tour.circular, &before)?;
        rows = after;
    }
    Seen { book, rows: &rows }.value(alloc, cell)
}

// The values of all formulas over those of the round before.
fn round<C: Cells>(
    alloc: Global,
    book: &Workbook,
    formulas: &[Cell],
    circular: &CellSet,
    before: &C,
) -> Result<BTreeMap<Cell, Row>, Memory>
    requires circular { (a : Cell) → set.contains circular.now a
        ≡ is_circular (book_of book.now) nothing a }
    requires formulas { (p : ℕ) (a : Cell) → slice_get formulas.now p ≡ Some a
        → is_formula (entry (book_of book.now) a) ≡ true }
    requires all { (a : Cell) → is_formula (entry (book_of book.now) a) ≡ true
        → (p : ℕ) × (slice_get formulas.now p ≡ Some a) }
    ensures { IfOk result (λ rows. IsRound (book_of book.now) (C.known before.now) rows.entries) }
{
    let mut rows = BTreeMap::new(alloc);
    for &cell in formulas {
        put_value(alloc, book, circular, before, cell, &mut rows)?;
    }
    Ok(rows)
}

// Puts the value of a formula over those of the round before.
fn put_value<C: Cells>(
    alloc: Global,
    book: &Workbook,
    circular: &CellSet,
    before: &C,
    cell: Cell,
    rows: &mut BTreeMap<Cell, Row>,
) -> Result<(), Memory>
    requires circular { (a : Cell) → set.contains circular.now a
        ≡ is_circular (book_of book.now) nothing a }
    requires formula { is_formula (entry (book_of book.now) cell) ≡ true }
    ensures kept { OnOk result ((a : Cell) → HasValue (book_of book.now) (C.known before.now)
        rows.old.entries a → HasValue (book_of book.now) (C.known before.now) rows.new.entries a) }
    ensures put { OnOk result
        (HasValue (book_of book.now) (C.known before.now) rows.new.entries cell) }
{
    let value = formula_value(alloc, book, circular, before, cell)?;
    let row = Row {
        value,
        is_wide: false,
        looks: Vec::new(alloc),
    };
    put(rows, cell, row)?;
    Ok(())
}

// The value of a formula over those of the round before.
fn formula_value<C: Cells>(
    alloc: Global,
    book: &Workbook,
    circular: &CellSet,
    before: &C,
    cell: Cell,
) -> Result<Option<Value>, Memory>
    requires circular { (a : Cell) → set.contains circular.now a
        ≡ is_circular (book_of book.now) nothing a }
    requires formula { is_formula (entry (book_of book.now) cell) ≡ true }
    ensures { IfOk result (λ value. value
        ≡ known_over (book_of book.now) no_overriding (C.known before.now) cell) }
{
    if circular.has(cell) {
        return Ok(Some(Value::Error(ErrorKind::Circular)));
    }
    let Some(tree) = book.tree(cell) else {
        unreachable!();
    };
    let value = evaluate(alloc, before, tree)?.to_value(alloc)?;
    Ok(value)
}

/// Before the first round each cell counts as circular.
#[derive(Drop)]
struct AllCircular;

impl Cells for AllCircular {
    ghost known = { λ _ _. Some (Error kind.Circular) };

    fn value(&self, _alloc: Global, _cell: Cell) -> Result<Option<Value>, Memory>
        ensures { IfOk result (λ value. value ≡ Some (Error kind.Circular)) }
    {
        Ok(Some(Value::Error(ErrorKind::Circular)))
    }

    fn values(&self, alloc: Global, area: &Area) -> Result<Option<Vec<Value>>, Memory>
        ensures values { IfOk result (λ found. option_map (λ values. values.items) found
            ≡ elements (λ _. Some (Error kind.Circular)) (cells_of area.now)) }
        ensures count { IfOk result (λ found.
            IfSome found (λ values. length values.items ≡ length (cells_of area.now))) }
    {
        let mut values = Vec::new(alloc);
        for _ in 0..area.len() {
            values.push(Value::Error(ErrorKind::Circular))?;
        }
        Ok(Some(values))
    }
}
