// What a value is while some decisions are open.
ghost use Rattle.std.specs.Prelude.{◌≡◌, ◌<◌, ◌+◌, ◌*◌, IfOk, IfNone, IfSome, IsTrue, Some, length, map, slice_get};
ghost use Rattle.form_values.specs.Entries.{entry, test};
ghost use Rattle.form_values.specs.Grids.{IsFull};
ghost use Rattle.form_values.specs.Known.{all_known, is_known, known_arg, value_in, values_in};
ghost use Rattle.form_values.specs.declared.abs.Abs.TheVariants.{Known};
ghost use Rattle.form_values.specs.Meaning.{elements_of};

use crate::open_form::Open;
use affine_forms::{Form, Rel};
use memory::Memory;
use sheet_model::{Arg, Grid, Value};
use std::alloc::Global;
use std::marker::Model;

/// A value: the same under every assignment, a form with at least one term, or whether such a form is in a relation to 0.
#[derive(Drop)]
pub enum Abs {
    Known(Value),
    Affine(Open),
    Test(Open, Rel),
}

impl Abs {
    /// A form as a value: without terms it is a known number.
    pub fn entry(form: Form) -> Abs
        ensures { result ≡ entry form }
    {
        if form.terms().is_empty() {
            Abs::Known(Value::Number(form.base()))
        } else {
            Abs::Affine(Open { form })
        }
    }

    /// Whether a form is in a relation to 0, as a value: without terms it is a known logical.
    pub fn test(relation: Rel, form: Form) -> Abs
        ensures { result ≡ test relation form }
    {
        if form.terms().is_empty() {
            Abs::Known(Value::Logical(relation.holds(form.base())))
        } else {
            Abs::Test(Open { form }, relation)
        }
    }

    /// Whether it is the same under every assignment.
    pub fn is_known(&self) -> bool
        ensures { result ≡ is_known self.now }
    {
        match self {
            Abs::Known(_) => true,
            Abs::Affine(_) | Abs::Test(_, _) => false,
        }
    }

    /// An equal value.
    pub fn copy(&self, alloc: Global) -> Result<Abs, Memory>
        ensures { IfOk result (λ a. a ≡ self.now) }
    {
        match self {
            Abs::Known(value) => Ok(Abs::Known(value.copy(alloc)?)),
            Abs::Affine(open) => Ok(Abs::Affine(open.copy()?)),
            Abs::Test(open, relation) => Ok(Abs::Test(open.copy()?, *relation)),
        }
    }
}

/// Values in rows and columns, row by row: at least one row, at least one column, and a value in each place.
#[derive(Drop)]
pub struct AbsGrid {
    rows: u32,
    cols: u32,
    items: Vec<Abs>,
}

impl Model for AbsGrid {
    ghost use Rattle.form_values.specs.Grids.{Raster, IsFull};

    ghost Value = { Raster };

    ghost view = { λ g. record { rows = g.rows; columns = g.cols; items = g.items.items } };

    ghost invariant = { λ g.
        IsFull (record { rows = g.rows; columns = g.cols; items = g.items.items }) };
}

impl AbsGrid {
    /// The grid of these values, row by row; none where there is no row or no column, or another number of values.
    pub fn new(rows: u32, cols: u32, items: Vec<Abs>) -> Option<AbsGrid>
        ensures found { IfSome result (λ g. IsFull g
            × (g ≡ record { rows = rows; columns = cols; items = items.items })) }
        ensures none { IfNone result
            (IsFull (record { rows = rows; columns = cols; items = items.items }) → ⊥) }
    {
        if rows == 0 || cols == 0 || items.len() as u64 != rows as u64 * cols as u64 {
            return None;
        }
        Some(AbsGrid { rows, cols, items })
    }

    /// How many rows it has.
    pub fn rows(&self) -> u32
        ensures count { result ≡ self.now.rows }
        ensures some { 0 < result }
    {
        self.rows
    }

    /// How many columns it has.
    pub fn cols(&self) -> u32
        ensures count { result ≡ self.now.columns }
        ensures some { 0 < result }
    {
        self.cols
    }

    /// All values, row by row.
    pub fn items(&self) -> &[Abs]
        ensures items { result.now ≡ self.now.items }
        ensures full { IsFull self.now }
    {
        &self.items
    }

    /// The value at a row and a column, each from 0.
    pub fn at(&self, row: u32, col: u32) -> &Abs
        requires row { row < self.now.rows }
        requires column { col < self.now.columns }
        ensures { slice_get self.now.items (row * self.now.columns + col) ≡ Some result.now }
    {
        &self.items[row as usize * self.cols as usize + col as usize]
    }

    /// The grid of the same size with these values.
    pub fn with_items(&self, items: Vec<Abs>) -> AbsGrid
        requires { length items.items ≡ length self.now.items }
        ensures { result
            ≡ record { rows = self.now.rows; columns = self.now.columns; items = items.items } }
    {
        AbsGrid {
            rows: self.rows,
            cols: self.cols,
            items,
        }
    }

    /// An equal grid.
    pub fn copy(&self, alloc: Global) -> Result<AbsGrid, Memory>
        ensures { IfOk result (λ g. g ≡ self.now) }
    {
        let mut items = Vec::new(alloc);
        for item in self.items.iter() {
            items.push(item.copy(alloc)?)?;
        }
        Ok(AbsGrid {
            rows: self.rows,
            cols: self.cols,
            items,
        })
    }
}

/// An argument: a single value, or those of a reference or an array.
#[derive(Drop)]
pub enum AbsArg {
    One(Abs),
    Area(AbsGrid),
}

impl AbsArg {
    /// Its elements, row by row.
    pub fn elements(&self) -> &[Abs]
        ensures { result.now ≡ elements_of self.now }
    {
        match self {
            AbsArg::One(value) => std::slice::from_ref(value),
            AbsArg::Area(grid) => grid.items(),
        }
    }

    /// Whether each element is the same under every assignment.
    pub fn is_known(&self) -> bool
        ensures { result ≡ all_known self.now }
    {
        self.elements().iter().all(|item| item.is_known())
    }

    /// A known argument.
    pub fn of_known(alloc: Global, arg: Arg) -> Result<AbsArg, Memory>
        ensures { IfOk result (λ a. a ≡ known_arg arg) }
    {
        match arg {
            Arg::One(value) => Ok(AbsArg::One(Abs::Known(value))),
            Arg::Area(grid) => Ok(AbsArg::Area(known_grid(alloc, &grid)?)),
        }
    }

    /// Its known values; in the place of another there is an empty one.
    pub fn values(&self, alloc: Global) -> Result<Arg, Memory>
        ensures { IfOk result (λ v. v ≡ values_in self.now) }
    {
        match self {
            AbsArg::One(value) => Ok(Arg::One(value_in(alloc, value)?)),
            AbsArg::Area(grid) => Ok(Arg::Area(values_in(alloc, grid)?)),
        }
    }

    /// An equal argument.
    pub fn copy(&self, alloc: Global) -> Result<AbsArg, Memory>
        ensures { IfOk result (λ a. a ≡ self.now) }
    {
        match self {
            AbsArg::One(value) => Ok(AbsArg::One(value.copy(alloc)?)),
            AbsArg::Area(grid) => Ok(AbsArg::Area(grid.copy(alloc)?)),
        }
    }
}

// A grid of known values.
fn known_grid(alloc: Global, grid: &Grid) -> Result<AbsGrid, Memory>
    ensures { IfOk result (λ g. g ≡ record {
      rows = grid.now.rows;
      columns = grid.now.columns;
      items = map Known grid.now.items;
    }) }
{
    let mut items = Vec::new(alloc);
    for value in grid.items() {
        items.push(Abs::Known(value.copy(alloc)?))?;
    }
    Ok(AbsGrid {
        rows: grid.rows(),
        cols: grid.cols(),
        items,
    })
}

// The known value, and an empty one in the place of another.
fn value_in(alloc: Global, value: &Abs) -> Result<Value, Memory>
    ensures { IfOk result (λ v. v ≡ value_in value.now) }
{
    match value {
        Abs::Known(known) => known.copy(alloc),
        Abs::Affine(_) | Abs::Test(_, _) => Ok(Value::Empty),
    }
}

// A grid of these.
fn values_in(alloc: Global, grid: &AbsGrid) -> Result<Grid, Memory>
    ensures { IfOk result (λ g. g ≡ record {
      rows = grid.now.rows;
      columns = grid.now.columns;
      items = map value_in grid.now.items;
    }) }
{
    let mut items = Vec::new(alloc);
    for value in grid.items() {
        items.push(value_in(alloc, value)?)?;
    }
    let Some(values) = Grid::new(grid.rows(), grid.cols(), items) else {
        unreachable!()
    };
    Ok(values)
}
