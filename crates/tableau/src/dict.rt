ghost use Rattle.std.specs.Prelude.{◌≡◌, ◌≢◌, ◌<◌, ◌+◌, ◌^◌, ℕ, suc, [], length, All, MatchResult, IfOk, slice_index};
ghost use Rattle.fractions.specs.Vectors.{at};
ghost use Rattle.dictionaries.specs.Dictionary.{Dictionary, IsPlace, IsShaped, pivoted, row_of};
ghost use Rattle.dictionaries.specs.Narrow.{IsNarrowPivot};
ghost use Rattle.tableau.specs.Entries.{AreEntries};

use crate::numbers::solve_for;
use crate::row::Row;
use crate::table::Table;
use frac128::{Frac, Wide};
use memory::Memory;
use std::alloc::Global;
use std::marker::Model;

/// A dictionary, with a row to which the leaving one is solved and a spare one, in which each row that a pivot changes is
/// made. Each row has room for an entry in every column, so that a pivot takes no memory.
#[derive(Drop)]
pub struct Dict {
    basic: Vec<u16>,
    nonbasic: Vec<u16>,
    table: Table,
    solved: Row,
    spare: Row,
}

impl Model for Dict {
    ghost use Rattle.dictionaries.specs.Dictionary.{Dictionary, IsShaped};

    ghost Value = { Dictionary };

    ghost use Rattle.tableau.specs.Fields.{dictionary_of, IsRoomy};

    ghost view = { dictionary_of };

    ghost invariant = { IsRoomy };
}

impl Dict {
    /// The dictionary of these parts.
    pub(crate) fn of_parts(
        alloc: Global,
        basic: Vec<u16>,
        nonbasic: Vec<u16>,
        table: Table,
    ) -> Result<Dict, Memory>
        requires shaped { IsShaped (record {
          basic = basic.items;
          nonbasic = nonbasic.items;
          rows = table.rows;
          objective = table.objective;
          auxiliary = table.auxiliary;
        }) }
        requires high { length basic.items < 2 ^ 16 }
        requires small { length nonbasic.items < 2 ^ 16 }
        ensures { IfOk result (λ d. d ≡ record {
          basic = basic.items;
          nonbasic = nonbasic.items;
          rows = table.rows;
          objective = table.objective;
          auxiliary = table.auxiliary;
        }) }
    {
        let solved = Row::blank(alloc, nonbasic.len())?;
        let spare = Row::blank(alloc, nonbasic.len())?;
        Ok(Dict {
            basic,
            nonbasic,
            table,
            solved,
            spare,
        })
    }

    /// Exchanges the basic variable of the row and the non-basic one of the column. Only rows with an entry in that
    /// column, and in them the columns where the leaving row has one, are worked out.
    pub fn pivot(&mut self, row: u16, col: u16) -> Result<(), Wide>
        requires { IsPlace self.old row col }
        ensures { MatchResult result (λ _. (self.new ≡ pivoted self.old row col)
            × IsNarrowPivot self.old row col)
            (λ _. (self.new ≡ self.old) × ¬ (IsNarrowPivot self.old row col)) }
    {
        let row = row as usize;
        match solve_for(self.table.row(row), col, &mut self.solved) {
            Ok(()) => {}
            Err(fault) => return Err(fault),
        }
        match self
            .table
            .change(row, col, &mut self.solved, &mut self.spare)
        {
            Ok(()) => {}
            Err(fault) => return Err(fault),
        }
        let col = col as usize;
        let leaving = self.basic[row];
        self.basic[row] = self.nonbasic[col];
        self.nonbasic[col] = leaving;
        Ok(())
    }

    /// How many rows there are.
    pub fn height(&self) -> u16
        ensures value { result ≡ length self.now.basic }
        ensures shaped { IsShaped self.now }
    {
        self.basic.len() as u16
    }

    /// How many columns there are.
    pub fn width(&self) -> u16
        ensures value { result ≡ length self.now.nonbasic }
        ensures shaped { IsShaped self.now }
    {
        self.nonbasic.len() as u16
    }

    /// The basic variable of the row.
    pub fn basic(&self, row: u16) -> u16
        requires { row < length self.now.basic }
        ensures { result ≡ slice_index self.now.basic row }
    {
        self.basic[row as usize]
    }

    /// The basic variables, row by row.
    pub fn basis(&self) -> &[u16]
        ensures { result.now ≡ self.now.basic }
    {
        &self.basic
    }

    /// The non-basic variable of the column.
    pub fn column(&self, col: u16) -> u16
        requires { col < length self.now.nonbasic }
        ensures { result ≡ slice_index self.now.nonbasic col }
    {
        self.nonbasic[col as usize]
    }

    /// The entries of the row that aren't 0, each with its column, in order of column.
    pub fn kept(&self, row: u16) -> &[(u16, Frac)]
        requires { row < length self.now.basic }
        ensures { AreEntries (row_of self.now row) result.now }
    {
        self.table.row(row as usize).kept()
    }

    /// The entry of the row at the column, which is sought by halves.
    pub fn entry(&self, row: u16, col: u16) -> Frac
        requires row { row < length self.now.basic }
        requires column { col < length self.now.nonbasic }
        ensures { result ≡ at (row_of self.now row) (suc col) }
    {
        self.table.row(row as usize).entry(col)
    }

    /// The constant of the row.
    pub fn rest(&self, row: u16) -> Frac
        requires { row < length self.now.basic }
        ensures { result ≡ at (row_of self.now row) 0 }
    {
        self.table.row(row as usize).rest()
    }

    /// The objective's row.
    pub fn objective(&self) -> &Row
        ensures { result.now ≡ self.now.objective }
    {
        self.table.objective()
    }

    /// The row of the objective of phase 1.
    pub fn auxiliary(&self) -> &Row
        ensures { result.now ≡ self.now.auxiliary }
    {
        self.table.auxiliary()
    }
}
