ghost use Rattle.std.specs.Prelude.{◌≡◌, ◌≢◌, ◌<◌, ◌≤◌, ◌+◌, ◌^◌, ℕ, suc, ◌∷◌, length, replicate, slice_set, IfOk};
ghost use Rattle.fractions.specs.Rational.{zero_ℚ};
ghost use Rattle.fractions.specs.Vectors.{at};
ghost use Rattle.tableau.specs.Entries.{AreEntries};
ghost use Rattle.tableau.specs.Runs.{IsRun, IsRunPut};

use crate::entries::{place_of, put, put_last, put_run};
use frac128::Frac;
use memory::Memory;
use std::alloc::Global;
use std::marker::Model;

/// A constant, and then one entry per column. The entries that aren't 0 are kept, with room for one in each column.
#[derive(Drop)]
pub struct Row {
    rest: Frac,
    columns: usize,
    kept: Vec<(u16, Frac)>,
}

impl Model for Row {
    ghost use Rattle.std.specs.Prelude.{List};
    ghost use Rattle.fractions.specs.Rational.{ℚ};
    ghost use Rattle.tableau.specs.Rows.{IsKept, row_of};

    ghost Value = { List ℚ };

    ghost view = { row_of };

    ghost invariant = { IsKept };
}

impl Row {
    /// A row of zeros.
    pub(crate) fn blank(alloc: Global, columns: usize) -> Result<Row, Memory>
        requires { columns < 2 ^ 16 }
        ensures { IfOk result (λ r. r ≡ replicate (suc columns) zero_ℚ) }
    {
        let kept = Vec::with_capacity(alloc, columns)?;
        Ok(Row {
            rest: Frac::zero(),
            columns,
            kept,
        })
    }

    /// One more than the columns.
    pub fn len(&self) -> usize
        ensures { result ≡ length self.now }
    {
        self.columns + 1
    }

    /// The entries that aren't 0, each with its column, in order of column.
    pub fn kept(&self) -> &[(u16, Frac)]
        ensures { AreEntries self.now result.now }
    {
        &self.kept
    }

    /// The entry at the column, with its place among those that are kept. It is found at once where that is the guess.
    pub(crate) fn near(&self, col: u16, guess: usize) -> (Frac, usize)
        requires { suc col < length self.now }
        ensures { result.0 ≡ at self.now (suc col) }
    {
        match place_of(&self.kept, col, guess) {
            Ok(place) => (self.kept[place].1, place),
            Err(place) => (Frac::zero(), place),
        }
    }

    /// The entry at the column, which is sought by halves.
    pub fn entry(&self, col: u16) -> Frac
        requires { suc col < length self.now }
        ensures { result ≡ at self.now (suc col) }
    {
        self.near(col, 0).0
    }

    /// The constant.
    pub fn rest(&self) -> Frac
        requires { 0 < length self.now }
        ensures { result ≡ at self.now 0 }
    {
        self.rest
    }

    /// Sets the entry of the column, of which the place among those that are kept is guessed.
    pub(crate) fn put(&mut self, col: u16, number: Frac, guess: usize)
        requires { suc col < length self.old }
        ensures { self.new ≡ slice_set self.old (suc col) number }
    {
        put(&mut self.kept, self.columns, col, number, guess);
    }

    /// Sets the entry of a column behind those that are kept, as any column may be.
    pub(crate) fn append(&mut self, col: u16, number: Frac)
        requires { suc col < length self.old }
        ensures { self.new ≡ slice_set self.old (suc col) number }
    {
        put_last(&mut self.kept, self.columns, col, number);
    }

    /// Sets the entries of a run of columns. They are put at once where only earlier columns are kept.
    pub(crate) fn put_run(&mut self, run: &[(u16, Frac)])
        requires { IsRun (length self.old) run.now }
        ensures { IsRunPut run.now self.old self.new }
    {
        put_run(&mut self.kept, self.columns, run);
    }

    /// Sets the constant.
    pub(crate) fn set_rest(&mut self, number: Frac)
        ensures { self.new ≡ slice_set self.old 0 number }
    {
        self.rest = number;
    }

    /// Becomes a row of zeros.
    pub(crate) fn clear(&mut self)
        ensures { self.new ≡ replicate (length self.old) zero_ℚ }
    {
        self.rest = Frac::zero();
        self.kept.clear();
    }
}
