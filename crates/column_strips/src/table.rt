// The table of references.
ghost use Rattle.std.specs.Prelude.{◌≡◌, ◌⊎◌, ◌<◌, ◌≤◌, IfOk, OnErr, OnOk, true, ℕ};
ghost use Rattle.std.specs.FinMap as map;
ghost use Rattle.std.specs.List.{list_any};
ghost use Rattle.cell_refs.specs.declared.limits.TheConstants.{TEXTS};
ghost use Rattle.column_strips.specs.declared.strip.Strip.{Strip};
ghost use Rattle.column_strips.specs.Columns.{AllRising, strips_in};
ghost use Rattle.column_strips.specs.Formulas.{AreSorted, references_in};
ghost use Rattle.column_strips.specs.Kept.{makes};
ghost use Rattle.column_strips.specs.Strips.{AreStrips, has_strip};

use crate::columns::{add_areas, make_room, place_of};
use crate::formulas::Formula;
use crate::kept::{put_formula, take_formula};
use crate::strip::Strip;
use cell_refs::{Area, COLUMNS, Cell, SheetId, TEXTS};
use memory::Memory;
use std::alloc::Global;
use std::marker::Model;

/// The areas to which formulas refer, by the formulas' cells and by the columns that the areas cover.
#[derive(Drop)]
pub struct ReferenceTable {
    formulas: Vec<Formula>,
    columns: Vec<Vec<Strip>>,
}

impl Model for ReferenceTable {
    ghost use Rattle.column_strips.specs.Codes.{references_code};
    ghost use Rattle.column_strips.specs.Formulas.{References, references_in};
    ghost use Rattle.column_strips.specs.Kept.{AreKept};

    ghost Value = { References };

    ghost coded = { references_code };

    ghost view = { λ t. references_in t.formulas.items };

    ghost invariant = { λ t. AreKept t.formulas.items t.columns.items };
}

impl ReferenceTable {
    /// The table of some formulas. There is no room for more than cells can have a text.
    pub fn of(alloc: Global, formulas: Vec<Formula>) -> Result<ReferenceTable, Memory>
        requires { AreSorted formulas.items }
        ensures { IfOk result (λ t. t ≡ references_in formulas.items) }
    {
        if formulas.len() > TEXTS {
            return Err(Memory);
        }
        let columns = columns_of(alloc, &formulas)?;
        Ok(ReferenceTable { formulas, columns })
    }

    /// The formulas, by sheet, row and column.
    pub fn formulas(&self) -> &[Formula]
        ensures all { references_in result.now ≡ self.now }
        ensures sorted { AreSorted result.now }
        ensures few { map.len self.now ≤ TEXTS }
    {
        self.formulas.as_slice()
    }

    /// How many cells it keeps areas for.
    pub fn len(&self) -> usize
        ensures { result ≡ map.len self.now }
    {
        self.formulas.len()
    }

    /// Where its memory comes from.
    pub fn allocator(&self) -> Global {
        *self.formulas.allocator()
    }

    /// The strips of a column: the rows of it to which formulas refer, by the formulas' cells, first rows and last rows.
    pub fn strips(&self, sheet: SheetId, col: u16) -> &[Strip]
        ensures { AreStrips self.now sheet.0 col result.now }
    {
        let columns = self.columns.as_slice();
        if col >= COLUMNS {
            return &[];
        }
        let place = place_of(sheet, col);
        if place >= columns.len() {
            return &[];
        }
        columns[place].as_slice()
    }

    /// Keeps the areas to which the formula of a cell refers, in the place of those that were kept for it.
    pub fn put(&mut self, cell: Cell, areas: Vec<Area>) -> Result<(), Memory>
        requires { (map.contains_key self.old cell ≡ true) ⊎ (map.len self.old < TEXTS) }
        ensures ok { OnOk result (self.new ≡ map.insert self.old cell areas.items) }
        ensures err { OnErr result (self.new ≡ self.old) }
    {
        let alloc = self.allocator();
        make_room(alloc, &mut self.columns, &areas)?;
        self.formulas.reserve(1)?;
        take_formula(&mut self.formulas, &mut self.columns, cell);
        put_formula(
            &mut self.formulas,
            &mut self.columns,
            Formula { cell, areas },
        );
        Ok(())
    }

    /// Drops what is kept for a cell.
    pub fn take(&mut self, cell: Cell)
        ensures { self.new ≡ map.remove self.old cell }
    {
        take_formula(&mut self.formulas, &mut self.columns, cell);
    }
}

// The columns with the strips of some formulas.
fn columns_of(alloc: Global, formulas: &[Formula]) -> Result<Vec<Vec<Strip>>, Memory>
    ensures rising { IfOk result (λ columns. AllRising columns.items) }
    ensures strips { IfOk result (λ columns. (sheet column : ℕ) (s : Strip)
        → has_strip (strips_in columns.items sheet column) s
        ≡ list_any (makes sheet column s) formulas.now) }
{
    let mut columns = Vec::new(alloc);
    for formula in formulas {
        let areas = formula.areas.as_slice();
        make_room(alloc, &mut columns, areas)?;
        add_areas(&mut columns, formula.cell, areas);
    }
    Ok(columns)
}
