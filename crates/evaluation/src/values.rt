// What is known of the values of cells.
ghost use Rattle.std.specs.Prelude.{[], ◌∷◌, ◌≡◌, ◌<◌, ◌*◌, IfOk, IfSome, flat_map, length, map, option_map};
ghost use Rattle.cell_refs.specs.Areas.{cells_of};
ghost use Rattle.recalculation.specs.Looking.{are_known, known_or_empty};
ghost use Rattle.recalculation.specs.Looks.{elements};
ghost use Rattle.recalculation.specs.Evaluation.{grid_of_areas, values_in};
ghost use Rattle.evaluation.specs.Composed.{referred};
ghost use Rattle.evaluation.specs.Looked.{column_of_areas};
ghost use Rattle.sheet_model.specs.Operators.{single};
ghost use Rattle.sheet_model.specs.declared.grid.Arg.TheVariants.{Area as Elements};

use crate::cells::Cells;
use cell_grids::Reference;
use cell_refs::{Area, Cell};
use sheet_model::{Arg, Grid, Memory, Value};
use std::alloc::Global;

/// Whether the values of all of these cells are known.
pub(crate) fn all_known<C: Cells>(alloc: Global, cells: &C, of: &[Cell]) -> Result<bool, Memory>
    ensures { IfOk result (λ known. known ≡ are_known (C.known cells.now) of.now) }
{
    for cell in of {
        if cells.value(alloc, *cell)?.is_none() {
            return Ok(false);
        }
    }
    Ok(true)
}

/// The values of these cells, where all are known.
pub(crate) fn values_of<C: Cells>(
    alloc: Global,
    cells: &C,
    of: &[Cell],
) -> Result<Option<Vec<Value>>, Memory>
    ensures values { IfOk result (λ found. option_map (λ values. values.items) found
        ≡ elements (C.known cells.now) of.now) }
    ensures count { IfOk result (λ found.
        IfSome found (λ values. length values.items ≡ length of.now)) }
{
    let mut values = Vec::new(alloc);
    for cell in of {
        let Some(value) = cells.value(alloc, *cell)? else {
            return Ok(None);
        };
        values.push(value)?;
    }
    Ok(Some(values))
}

/// The values of these cells, and Empty where one isn't known.
pub(crate) fn filled_values<C: Cells>(
    alloc: Global,
    cells: &C,
    of: &[Cell],
) -> Result<Vec<Value>, Memory>
    ensures { IfOk result (λ values. values.items
        ≡ map (known_or_empty (C.known cells.now)) of.now) }
{
    let mut values = Vec::new(alloc);
    for cell in of {
        values.push(cells.value(alloc, *cell)?.unwrap_or(Value::Empty))?;
    }
    Ok(values)
}

/// The values of a reference to some areas, where all are known; out of memory where there are too many.
pub(crate) fn known_grid<C: Cells>(
    alloc: Global,
    cells: &C,
    areas: &[Area],
) -> Result<Option<Arg>, Memory>
    requires { 0 < length areas.now }
    ensures { IfOk result (λ found. found
        ≡ (referred (C.known cells.now) (grid_of_areas areas.now)).outcome) }
{
    if let [area] = areas {
        return area_grid(alloc, cells, area);
    }
    column_grid(alloc, cells, areas)
}

// The values of an area in its rows and columns.
#[tactic(auto, using(crate::proofs::Elements::elements_are))]
fn area_grid<C: Cells>(alloc: Global, cells: &C, area: &Area) -> Result<Option<Arg>, Memory>
    ensures { IfOk result (λ found. found
        ≡ (referred (C.known cells.now) (grid_of_areas (area.now ∷ []))).outcome) }
{
    let Some(values) = cells.values(alloc, area)? else {
        return Ok(None);
    };
    let rows = area.bottom() as u32 - area.top() as u32 + 1;
    let cols = area.right() as u32 - area.left() as u32 + 1;
    Ok(Some(in_grid(rows, cols, values)))
}

// The values of some areas in one column.
#[tactic(auto, using(crate::proofs::Elements::elements_are))]
fn column_grid<C: Cells>(alloc: Global, cells: &C, areas: &[Area]) -> Result<Option<Arg>, Memory>
    requires { 0 < length areas.now }
    ensures { IfOk result (λ found. found
        ≡ (referred (C.known cells.now) (column_of_areas areas.now)).outcome) }
{
    let Some(values) = values_of_areas(alloc, cells, areas)? else {
        return Ok(None);
    };
    let Ok(rows) = u32::try_from(values.len()) else {
        return Err(Memory);
    };
    Ok(Some(in_grid(rows, 1, values)))
}

// The values of the cells of some areas, where all are known. Those of each area are asked for together.
fn values_of_areas<C: Cells>(
    alloc: Global,
    cells: &C,
    areas: &[Area],
) -> Result<Option<Vec<Value>>, Memory>
    ensures { IfOk result (λ found. option_map (λ values. values.items) found
        ≡ elements (C.known cells.now) (flat_map cells_of areas.now)) }
{
    let mut values = Vec::new(alloc);
    for area in areas {
        match cells.values(alloc, area)? {
            Some(mut more) => values.append(&mut more)?,
            None => return Ok(None),
        }
    }
    Ok(Some(values))
}

/// The values of a reference, and Empty where one isn't known.
pub(crate) fn filled_grid<C: Cells>(
    alloc: Global,
    cells: &C,
    reference: &Reference,
) -> Result<Arg, Memory>
    ensures { IfOk result (λ grid. grid
        ≡ Elements (values_in (known_or_empty (C.known cells.now)) reference.now)) }
{
    let values = filled_values(alloc, cells, reference.cells())?;
    Ok(in_grid(reference.rows(), reference.cols(), values))
}

// Values in so many rows and columns.
fn in_grid(rows: u32, cols: u32, values: Vec<Value>) -> Arg
    requires some_rows { 0 < rows }
    requires some_columns { 0 < cols }
    requires count { length values.items ≡ rows * cols }
    ensures { result
        ≡ Elements (record { rows = rows; columns = cols; items = values.items }) }
{
    match Grid::new(rows, cols, values) {
        Some(grid) => Arg::Area(grid),
        None => unreachable!(),
    }
}

/// Values, if there are any, in so many rows and columns, and a single one where there is one.
pub(crate) fn single_grid(rows: u32, cols: u32, values: Option<Vec<Value>>) -> Option<Arg>
    requires some_rows { 0 < rows }
    requires some_columns { 0 < cols }
    requires count { IfSome values (λ v. length v.items ≡ rows * cols) }
    ensures { result ≡ option_map
        (λ items. single (Elements (record { rows = rows; columns = cols; items = items })))
        (option_map (λ v. v.items) values) }
{
    match values {
        Some(values) => Some(one_or_grid(rows, cols, values)),
        None => None,
    }
}

// The same of values that there are.
fn one_or_grid(rows: u32, cols: u32, values: Vec<Value>) -> Arg
    requires some_rows { 0 < rows }
    requires some_columns { 0 < cols }
    requires count { length values.items ≡ rows * cols }
    ensures { result
        ≡ single (Elements (record { rows = rows; columns = cols; items = values.items })) }
{
    let mut values = values;
    if values.len() == 1 {
        if let Some(value) = values.pop() {
            return Arg::One(value);
        }
    }
    in_grid(rows, cols, values)
}
