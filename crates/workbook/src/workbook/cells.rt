// What is read of a workbook.
ghost use Rattle.std.specs.Prelude.{◌≡◌, All, IfOk, MatchOption, None, Some, option_map};
ghost use Rattle.recalculation.specs.Entries.{entry};
ghost use Rattle.workbook.specs.Contents.{IsLast, IsNext, content_of, kind_of, tree_of};
ghost use Rattle.workbook.specs.Kinds.{book_of};
ghost use Rattle.workbook.specs.State.{text_count, text_of};
ghost use Rattle.workbook.specs.TextCells.{AreTextCells, IsRead, listed_cells};

use crate::{Kind, TextCell, Workbook};
use cell_refs::{Cell, SheetId, SheetNames};
use formula_ast::Expr;
use memory::Memory;
use std::alloc::Global;
use std::ops::Bound;

impl Workbook {
    /// The text of a cell; empty where it has none.
    pub fn content(&self, cell: Cell) -> &str
        ensures { result.now ≡ content_of self.now.contents cell }
    {
        match self.cells.get(&cell) {
            Some(held) => held.text.as_str(),
            None => "",
        }
    }

    /// The kind of a cell's text.
    pub fn kind(&self, cell: Cell) -> Kind
        ensures { result ≡ kind_of (entry (book_of self.now) cell) }
    {
        match self.cells.get(&cell) {
            Some(held) => held.kind(),
            None => Kind::Empty,
        }
    }

    /// The tree of a cell's formula, with what names stand for in their places.
    pub fn tree(&self, cell: Cell) -> Option<&Expr>
        ensures { option_map (λ t. t.now) result ≡ tree_of (entry (book_of self.now) cell) }
    {
        match self.cells.get(&cell) {
            Some(held) => held.tree(),
            None => None,
        }
    }

    /// The text for which a name stands, on the sheet or in the whole workbook.
    pub fn text_of(&self, sheet: Option<SheetId>, name: &str) -> Option<&str>
        ensures { option_map (λ t. t.now) result
            ≡ text_of self.now.names (option_map (λ s. s.0) sheet) name.now }
    {
        self.names.find(sheet, name)
    }

    /// The names of the sheets, in their order.
    pub fn sheets(&self) -> &SheetNames
        ensures { result.now ≡ self.now.sheets }
    {
        &self.sheets
    }

    /// How many cells have a text.
    pub fn texts(&self) -> usize
        ensures { result ≡ text_count self.now.contents }
    {
        self.cells.len()
    }

    /// The cells with a text, by sheet, row and column, each with its text, its kind and its tree.
    pub fn text_cells(&self, alloc: Global) -> Result<Vec<TextCell<'_>>, Memory>
        ensures listed { IfOk result (λ v. AreTextCells self.now.contents (listed_cells v.items)) }
        ensures read { IfOk result (λ v. All (IsRead self.now) v.items) }
    {
        let cells = self.cells.iter().map(|(cell, held)| held.read(*cell));
        Ok(cells.collect(alloc)?)
    }

    /// The next cell with a text, by sheet, row and column: the first of all, or the first behind a cell.
    pub fn next_cell(&self, after: Option<Cell>) -> Option<Cell>
        ensures { MatchOption result (IsLast self.now.contents after)
            (λ cell. IsNext self.now.contents after cell) }
    {
        match after {
            Some(cell) => self.cell_behind(cell),
            None => self.first_cell(),
        }
    }

    // The first cell with a text.
    fn first_cell(&self) -> Option<Cell>
        ensures { MatchOption result (IsLast self.now.contents None)
            (λ cell. IsNext self.now.contents None cell) }
    {
        match self.cells.first_key_value() {
            Some((cell, _)) => Some(*cell),
            None => None,
        }
    }

    // The first cell with a text behind another.
    fn cell_behind(&self, after: Cell) -> Option<Cell>
        ensures { MatchOption result (IsLast self.now.contents (Some after))
            (λ cell. IsNext self.now.contents (Some after) cell) }
    {
        let behind = (Bound::Excluded(after), Bound::Unbounded);
        match self.cells.range(behind).next() {
            Some((cell, _)) => Some(*cell),
            None => None,
        }
    }
}
