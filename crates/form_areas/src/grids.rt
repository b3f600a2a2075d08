// Grids, of which a single value is one of one row and one column.
ghost use Rattle.std.specs.Prelude.{◌≡◌, ◌<◌, ◌*◌, ◌+◌};
ghost use Rattle.form_table.specs.Products.{is_of_size};
ghost use Rattle.form_table.specs.Wanted.{grid_of};
ghost use Rattle.form_values.specs.Grids.{IsFull};
ghost use Rattle.form_values.specs.declared.abs.AbsArg.TheVariants.{Area};

use form_values::{Abs, AbsArg, AbsGrid};

/// How many rows and columns an argument has, at least one of each.
pub fn size_of(arg: &AbsArg) -> (u32, u32)
    ensures rows { result.0 ≡ (grid_of arg.now).rows }
    ensures columns { result.1 ≡ (grid_of arg.now).columns }
    ensures some_rows { 0 < result.0 }
    ensures some_columns { 0 < result.1 }
{
    match arg {
        AbsArg::One(_) => (1, 1),
        AbsArg::Area(grid) => (grid.rows(), grid.cols()),
    }
}

/// How many rows an argument has.
pub(crate) fn rows_of(arg: &AbsArg) -> u32
    ensures { result ≡ (grid_of arg.now).rows }
{
    match arg {
        AbsArg::One(_) => 1,
        AbsArg::Area(grid) => grid.rows(),
    }
}

/// How many columns an argument has.
pub(crate) fn columns_of(arg: &AbsArg) -> u32
    ensures { result ≡ (grid_of arg.now).columns }
{
    match arg {
        AbsArg::One(_) => 1,
        AbsArg::Area(grid) => grid.cols(),
    }
}

/// The elements, row by row, one in each place.
pub(crate) fn full_elements(arg: &AbsArg) -> &[Abs]
    ensures items { result.now ≡ (grid_of arg.now).items }
    ensures full { IsFull (grid_of arg.now) }
{
    match arg {
        AbsArg::One(_) => arg.elements(),
        AbsArg::Area(grid) => grid.items(),
    }
}

/// Whether two arguments have as many rows and as many columns.
pub(crate) fn is_of_size(first: &AbsArg, other: &AbsArg) -> bool
    ensures { result ≡ is_of_size (grid_of first.now) (grid_of other.now) }
{
    rows_of(first) == rows_of(other) && columns_of(first) == columns_of(other)
}

/// The place of a row and a column among the elements.
pub(crate) fn place_of(arg: &AbsArg, row: u32, column: u32) -> usize
    ensures { result ≡ row * (grid_of arg.now).columns + column }
{
    row as usize * columns_of(arg) as usize + column as usize
}

/// Values in rows and columns as an argument.
pub(crate) fn area(rows: u32, columns: u32, items: Vec<Abs>) -> AbsArg
    requires { IsFull (record { rows = rows; columns = columns; items = items.items }) }
    ensures { result ≡ Area (record { rows = rows; columns = columns; items = items.items }) }
{
    match AbsGrid::new(rows, columns, items) {
        Some(grid) => AbsArg::Area(grid),
        None => unreachable!(),
    }
}
