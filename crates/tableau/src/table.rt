// The rows of a dictionary with its two objectives.
ghost use Rattle.std.specs.Prelude.{◌≡◌, ◌≢◌, ◌<◌, suc, [], length, MatchResult, slice_index_or};
ghost use Rattle.fractions.specs.Rational.{zero_ℚ};
ghost use Rattle.fractions.specs.Vectors.{at};
ghost use Rattle.dictionaries.specs.Dictionary.{solved_row};
ghost use Rattle.tableau.specs.Table.{IsTable, IsNarrowTable, table_after};

use crate::objectives::{change_both, restore_both};
use crate::row::Row;
use crate::rows::change_rows;
use frac128::Wide;
use std::marker::Model;

/// The rows, and the rows of the two objectives.
#[derive(Drop)]
pub struct Table {
    rows: Vec<Row>,
    objective: Row,
    auxiliary: Row,
}

impl Model for Table {
    ghost use Rattle.tableau.specs.Table.{Numbers};

    ghost Value = { Numbers };

    ghost view = { λ t.
        record { rows = t.rows.items; objective = t.objective; auxiliary = t.auxiliary } };
}

impl Table {
    pub fn new(rows: Vec<Row>, objective: Row, auxiliary: Row) -> Table
        ensures { result
            ≡ record { rows = rows.items; objective = objective; auxiliary = auxiliary } }
    {
        Table {
            rows,
            objective,
            auxiliary,
        }
    }

    pub fn row(&self, row: usize) -> &Row
        requires { row < length self.now.rows }
        ensures { result.now ≡ slice_index_or self.now.rows row [] }
    {
        &self.rows[row]
    }

    pub fn objective(&self) -> &Row
        ensures { result.now ≡ self.now.objective }
    {
        &self.objective
    }

    pub fn auxiliary(&self) -> &Row
        ensures { result.now ≡ self.now.auxiliary }
    {
        &self.auxiliary
    }

    /// Lets `by`, to which the leaving row is solved, come in for the variable of the column, and take the leaving row's place.
    /// Where a number would not be narrow, nothing has changed.
    pub fn change(
        &mut self,
        leaving: usize,
        col: u16,
        by: &mut Row,
        spare: &mut Row,
    ) -> Result<(), Wide>
        requires leaving { leaving < length self.old.rows }
        requires place { suc col < length by.old }
        requires pivot { at (slice_index_or self.old.rows leaving []) (suc col) ≢ zero_ℚ }
        requires solved { by.old ≡ solved_row (slice_index_or self.old.rows leaving []) (suc col) }
        requires entry { at by.old (suc col) ≢ zero_ℚ }
        requires shaped { IsTable self.old (length self.old.rows) (length by.old) }
        requires room { length spare.old ≡ length by.old }
        ensures made { MatchResult result
            (λ _. (self.new ≡ table_after self.old leaving (suc col) by.old)
            × IsNarrowTable self.old leaving (suc col) by.old)
            (λ _. (self.new ≡ self.old) × ¬ (IsNarrowTable self.old leaving (suc col) by.old)) }
        ensures size { length by.new ≡ length by.old }
        ensures room { length spare.new ≡ length by.old }
    {
        match change_both(
            &mut self.objective,
            &mut self.auxiliary,
            &self.rows[leaving],
            col,
            by,
            spare,
        ) {
            Ok(()) => {}
            Err(fault) => return Err(fault),
        }
        match change_rows(&mut self.rows, leaving, col, by, spare) {
            Ok(()) => Ok(()),
            Err(fault) => {
                restore_both(
                    &mut self.objective,
                    &mut self.auxiliary,
                    &self.rows[leaving],
                    col,
                    spare,
                );
                Err(fault)
            }
        }
    }
}
