// Texts put into several cells.
ghost use Rattle.std.specs.Prelude.{◌≡◌, All, MatchResult, None, Some, length, map, string_bytes, zip};
ghost use Rattle.std.specs.List.{IsDistinct};
ghost use Rattle.cell_refs.specs.Cells.{is_same_cell};
ghost use Rattle.cell_refs.specs.Listed.{IsListed};
ghost use Rattle.workbook.specs.Several.{IsField, SetsAll, first_without_room, with_texts};
ghost use Rattle.workbook.specs.State.{formula_count};

use super::{is_one_more, is_one_now};
use crate::several::put_each;
use crate::words::{is_formula, one};
use crate::{AllFault, Workbook};
use cell_refs::{Adj, Cell, FORMULAS, TEXTS};

impl Workbook {
    /// Puts a text into each cell, in their order, once there is room for all of them. After a fault nothing has changed.
    pub fn set_all(&mut self, at: &Adj, texts: &[String]) -> Result<(), AllFault>
        requires each { length texts.now ≡ length at.now }
        requires listed { All (IsListed self.old.sheets) at.now }
        requires fields { All (λ text. IsField (string_bytes text)) texts.now }
        ensures { SetsAll self.old (zip at.now (map string_bytes texts.now)) result self.new }
    {
        at.cells_are_distinct();
        let cells = at.cells();
        let formulas = match self.formulas_with(cells, texts) {
            Ok(formulas) => formulas,
            Err(cell) => return Err(AllFault::NoRoom(cell)),
        };
        let Ok(()) = put_each(
            self.alloc,
            &self.sheets,
            &self.names,
            &mut self.users,
            &mut self.cells,
            cells,
            texts,
        ) else {
            return Err(AllFault::Memory);
        };
        self.formulas = formulas;
        Ok(())
    }

    // How many texts begin a formula with these in their cells, as far as there are both; or the first cell whose text has no room.
    fn formulas_with(&self, mut cells: &[Cell], mut texts: &[String]) -> Result<usize, Cell>
        requires { IsDistinct is_same_cell cells.now }
        ensures { MatchResult result (λ formulas.
            (first_without_room self.now.contents (zip cells.now (map string_bytes texts.now))
            ≡ None)
            × (formulas ≡ formula_count
            (with_texts self.now.contents (zip cells.now (map string_bytes texts.now)))))
            (λ cell. first_without_room self.now.contents
            (zip cells.now (map string_bytes texts.now)) ≡ Some cell) }
    {
        let mut count = self.cells.len();
        let mut formulas = self.formulas;
        while let [cell, later_cells @ ..] = cells {
            let [text, later_texts @ ..] = texts else {
                return Ok(formulas);
            };
            let is_new = !self.cells.contains_key(cell);
            let was_one = self.has_formula(*cell);
            if is_one_more(count, TEXTS, is_new) {
                return Err(*cell);
            }
            if is_one_more(formulas, FORMULAS, is_one_now(text.as_str(), was_one)) {
                return Err(*cell);
            }
            count += one(is_new);
            formulas = formulas + one(is_formula(text.as_str())) - one(was_one);
            cells = later_cells;
            texts = later_texts;
        }
        Ok(formulas)
    }
}
