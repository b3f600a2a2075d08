// Rectangles of values.
ghost use Rattle.std.specs.Prelude.{◌≡◌, ◌<◌, ◌+◌, ◌*◌, IfOk, IfNone, IfSome, Some, length, slice_get};
ghost use Rattle.sheet_model.specs.Grids.{IsFull};

use crate::value::Value;
use memory::Memory;
use std::alloc::Global;
use std::marker::Model;

/// Values in rows and columns, row by row: at least one row, at least one column, and a value in each place.
#[derive(Debug, Drop)]
pub struct Grid {
    rows: u32,
    cols: u32,
    items: Vec<Value>,
}

impl Model for Grid {
    ghost use Rattle.sheet_model.specs.Grids.{Rectangle, IsFull};

    ghost Value = { Rectangle };

    ghost view = { λ g. record { rows = g.rows; columns = g.cols; items = g.items.items } };

    ghost invariant = { λ g.
        IsFull (record { rows = g.rows; columns = g.cols; items = g.items.items }) };
}

impl Grid {
    /// The grid of these values, row by row; none where there is no row or no column, or another number of values.
    pub fn new(rows: u32, cols: u32, items: Vec<Value>) -> Option<Grid>
        ensures found { IfSome result (λ g. IsFull g
            × (g ≡ record { rows = rows; columns = cols; items = items.items })) }
        ensures none { IfNone result
            (IsFull (record { rows = rows; columns = cols; items = items.items }) → ⊥) }
    {
        if rows == 0 || cols == 0 || items.len() as u64 != rows as u64 * cols as u64 {
            return None;
        }
        Some(Grid { rows, cols, items })
    }

    /// How many rows it has.
    pub fn rows(&self) -> u32
        ensures count { result ≡ self.now.rows }
        ensures some { 0 < result }
    {
        self.rows
    }

    /// How many columns it has.
    pub fn cols(&self) -> u32
        ensures count { result ≡ self.now.columns }
        ensures some { 0 < result }
    {
        self.cols
    }

    /// All values, row by row.
    pub fn items(&self) -> &[Value]
        ensures items { result.now ≡ self.now.items }
        ensures full { IsFull self.now }
    {
        &self.items
    }

    /// The value at a row and a column, each from 0.
    pub fn at(&self, row: u32, col: u32) -> &Value
        requires row { row < self.now.rows }
        requires column { col < self.now.columns }
        ensures { slice_get self.now.items (row * self.now.columns + col) ≡ Some result.now }
    {
        &self.items[row as usize * self.cols as usize + col as usize]
    }

    /// The grid of the same size with these values.
    pub(crate) fn with_items(&self, items: Vec<Value>) -> Grid
        requires { length items.items ≡ length self.now.items }
        ensures { result
            ≡ record { rows = self.now.rows; columns = self.now.columns; items = items.items } }
    {
        Grid {
            rows: self.rows,
            cols: self.cols,
            items,
        }
    }

    /// An equal grid.
    pub fn copy(&self, alloc: Global) -> Result<Grid, Memory>
        ensures { IfOk result (λ g. g ≡ self.now) }
    {
        let mut items = Vec::new(alloc);
        for item in self.items.iter() {
            items.push(item.copy(alloc)?)?;
        }
        Ok(Grid {
            rows: self.rows,
            cols: self.cols,
            items,
        })
    }
}

/// An argument of a function or one side of an operator: a single value, or the values of an area or of an array.
#[derive(Debug, Drop)]
pub enum Arg {
    One(Value),
    Area(Grid),
}
