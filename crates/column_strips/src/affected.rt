// The cells from whose formulas references lead to a cell.
ghost use Rattle.std.specs.Prelude.{◌≡◌, ◌+◌, ◌<◌, ◌≤◌, Some, length, slice_get, true, vec_capacity, ℕ};
ghost use Rattle.std.specs.FinMap as map;
ghost use Rattle.std.specs.FinSet as set;
ghost use Rattle.cell_refs.specs.declared.cell.Cell.{Cell};
ghost use Rattle.cell_refs.specs.declared.limits.TheConstants.{ROWS, TEXTS};
ghost use Rattle.column_strips.specs.Affected.{AreAffected, AreDone, AreFormulas, IsAtOrReaches, IsFollowed, IsSpreading, has_cell, refers_in};
ghost use Rattle.column_strips.specs.Marks.{AreMarks, HasSpace};
ghost use Rattle.column_strips.specs.Rows.{AreAhead, IsSought, in_column};

use crate::gather::{add_beside, gather, has_flag};
use crate::marks::{Marks, mark};
use crate::rows::{add_row, meets};
use crate::table::ReferenceTable;
use cell_refs::{Cell, ROWS};
use std::collections::HashSet;

// In a column with fewer strips each cell is followed by itself.
const FEW: usize = 128;

impl ReferenceTable {
    /// Marks a cell and the cells that reach it: those whose formulas refer to it, those whose formulas refer to these, and so on.
    pub fn affected(&self, from: Cell, marks: &mut Marks)
        requires { marks.old ≡ set.empty }
        ensures { AreAffected (refers_in self.now) from (set.contains marks.new) }
    {
        let _ = self.formulas();
        marks.done.clear();
        mark(&mut marks.cells, &mut marks.seen, from);
        self.spread(
            from,
            &mut marks.cells,
            &mut marks.seen,
            &mut marks.rows,
            &mut marks.done,
        );
    }

    // Follows each cell of the list in turn, which grows.
    fn spread(
        &self,
        from: Cell,
        cells: &mut Vec<Cell>,
        seen: &mut HashSet<Cell>,
        rows: &mut Vec<u16>,
        done: &mut Vec<bool>,
    )
        requires marks { AreMarks cells.old seen.old }
        requires space { HasSpace rows.old done.old }
        requires few { map.len self.now ≤ TEXTS }
        requires formulas { AreFormulas self.now cells.old.items }
        requires spreading { IsSpreading (refers_in self.now) from cells.old.items 0 }
        requires done { AreDone (refers_in self.now) cells.old.items done.old.items }
        ensures marks { AreMarks cells.new seen.new }
        ensures space { HasSpace rows.new done.new }
        ensures spread { IsSpreading (refers_in self.now) from cells.new.items
            (length cells.new.items) }
    {
        let mut next = 0;
        while next < cells.len() {
            self.follow_next(from, next, cells, seen, rows, done);
            next += 1;
        }
    }

    // Follows the cell at a place of the list, if it hasn't been followed before its turn; where its column has many strips, it is
    // followed together with other cells of the column.
    fn follow_next(
        &self,
        from: Cell,
        next: usize,
        cells: &mut Vec<Cell>,
        seen: &mut HashSet<Cell>,
        rows: &mut Vec<u16>,
        done: &mut Vec<bool>,
    )
        requires next { next < length cells.old.items }
        requires marks { AreMarks cells.old seen.old }
        requires space { HasSpace rows.old done.old }
        requires few { map.len self.now ≤ TEXTS }
        requires formulas { AreFormulas self.now cells.old.items }
        requires spreading { IsSpreading (refers_in self.now) from cells.old.items next }
        requires done { AreDone (refers_in self.now) cells.old.items done.old.items }
        ensures marks { AreMarks cells.new seen.new }
        ensures space { HasSpace rows.new done.new }
        ensures formulas { AreFormulas self.now cells.new.items }
        ensures longer { length cells.old.items ≤ length cells.new.items }
        ensures spreading { IsSpreading (refers_in self.now) from cells.new.items (next + 1) }
        ensures done { AreDone (refers_in self.now) cells.new.items done.new.items }
    {
        if has_flag(done, next) {
            return;
        }
        let to = cells[next];
        let strips = self.strips(to.sheet, to.col).len();
        if strips < FEW || to.row >= ROWS {
            self.follow(to, cells, seen);
            return;
        }
        let end = next + strips.min(cells.len() - next);
        rows.clear();
        add_row(rows, to.row);
        gather(cells, next + 1, end, to, rows, done);
        self.follow_rows(from, to, cells, seen, rows);
    }

    // Marks the cells whose formulas refer to one of some rows of a column. The rows of those that stand in that column are added.
    fn follow_rows(
        &self,
        from: Cell,
        to: Cell,
        cells: &mut Vec<Cell>,
        seen: &mut HashSet<Cell>,
        rows: &mut Vec<u16>,
    )
        requires marks { AreMarks cells.old seen.old }
        requires few { map.len self.now ≤ TEXTS }
        requires formulas { AreFormulas self.now cells.old.items }
        requires sound { (c : Cell) → has_cell cells.old.items c ≡ true
            → IsAtOrReaches (refers_in self.now) from c }
        requires ahead { AreAhead rows.old.items }
        requires room { ROWS ≤ vec_capacity rows.old }
        requires rows { (r : ℕ) → IsSought rows.old.items r
            → has_cell cells.old.items (in_column to r) ≡ true }
        ensures marks { AreMarks cells.new seen.new }
        ensures formulas { AreFormulas self.now cells.new.items }
        ensures room { ROWS ≤ vec_capacity rows.new }
        ensures kept { (p : ℕ) (c : Cell) → slice_get cells.old.items p ≡ Some c
            → slice_get cells.new.items p ≡ Some c }
        ensures sound { (c : Cell) → has_cell cells.new.items c ≡ true
            → IsAtOrReaches (refers_in self.now) from c }
        ensures all { (r : ℕ) (c : Cell) → IsSought rows.old.items r
            → refers_in self.now c (in_column to r) ≡ true
            → has_cell cells.new.items c ≡ true }
    {
        let strips = self.strips(to.sheet, to.col);
        for strip in strips {
            if !meets(rows, *strip) {
                continue;
            }
            mark(cells, seen, strip.cell);
            let _ = add_beside(rows, strip.cell, to);
        }
    }

    // Marks the cells whose formulas refer to a cell.
    fn follow(&self, to: Cell, cells: &mut Vec<Cell>, seen: &mut HashSet<Cell>)
        requires marks { AreMarks cells.old seen.old }
        requires few { map.len self.now ≤ TEXTS }
        requires formulas { AreFormulas self.now cells.old.items }
        ensures marks { AreMarks cells.new seen.new }
        ensures formulas { AreFormulas self.now cells.new.items }
        ensures followed { IsFollowed (refers_in self.now) to cells.old.items cells.new.items }
    {
        let strips = self.strips(to.sheet, to.col);
        for strip in strips {
            if !strip.has_row(to.row) {
                continue;
            }
            mark(cells, seen, strip.cell);
        }
    }
}
