// What SUMIF looks at.
ghost use Rattle.std.specs.Prelude.{[], ◌∷◌, ◌≡◌, ◌≢◌, ◌++◌, IfOk, OnOk, length};
ghost use Rattle.cell_refs.specs.declared.error_kind.ErrorKind.{ErrorKind};
ghost use Rattle.recalculation.specs.Looking.{by_value, met_cells};
ghost use Rattle.recalculation.specs.Looks.{outcomes, summed_looks, sumif_looks, then_cells};
ghost use Rattle.sheet_funcs.specs.Arguments.{elements_of, grid_of, no_error, value_of};
ghost use Rattle.sheet_funcs.specs.Criteria.{met};
ghost use Rattle.sheet_model.specs.Grids.{IsFull};
ghost use Rattle.sheet_model.specs.declared.value.Value.TheVariants.{Error};

use crate::looked::Looks;
use crate::looks::arguments::all_looks;
use crate::part::Part;
use cell_grids::Reference;
use cell_refs::Cell;
use sheet_funcs::{meets, value_or_error};
use sheet_model::{Arg, Memory, Value};
use std::alloc::Global;

/// What SUMIF looks at: the tested grid and the criterion, and then of a reference the cells that are summed.
pub(crate) fn sumif_looks(alloc: Global, args: &[Part]) -> Result<Looks, Memory>
    ensures { IfOk result (λ looks. looks ≡ sumif_looks by_value args.now) }
{
    let [tested, criterion, summed] = args else {
        return all_looks(alloc, args);
    };
    let Some(areas) = &summed.reference else {
        return all_looks(alloc, args);
    };
    let grid = areas.grid(alloc)?;
    let mut looks = tested.looks.copy(alloc)?;
    looks.extend(&criterion.looks)?;
    push_summed(&grid, tested, criterion, &mut looks)?;
    Ok(looks)
}

// Puts behind other cells those that are summed, where the tested grid and the criterion have values.
fn push_summed(
    grid: &Reference,
    tested: &Part,
    criterion: &Part,
    to: &mut Looks,
) -> Result<(), Memory>
    ensures { OnOk result (to.new ≡ to.old ++ then_cells
        (outcomes (tested.now ∷ criterion.now ∷ [])) (summed_looks by_value grid.now)) }
{
    let Some(tested) = &tested.outcome else {
        return Ok(());
    };
    let Some(criterion) = &criterion.outcome else {
        return Ok(());
    };
    push_met(grid, tested, criterion, to)
}

// Puts behind other cells those in the places where a grid of the same size meets the criterion.
fn push_met(grid: &Reference, tested: &Arg, criterion: &Arg, to: &mut Looks) -> Result<(), Memory>
    ensures { OnOk result (to.new ≡ to.old
        ++ met_cells grid.now (grid_of tested.now) (no_error (value_of criterion.now))) }
{
    let Ok(criterion) = value_or_error(criterion) else {
        return Ok(());
    };
    let (rows, cols) = size_of(tested);
    if rows != grid.rows() || cols != grid.cols() {
        return Ok(());
    }
    push_met_among(criterion, elements_of(tested), grid.cells(), to)
}

// Puts behind other cells those in the places where a value meets the criterion.
fn push_met_among(
    criterion: &Value,
    tested: &[Value],
    cells: &[Cell],
    to: &mut Looks,
) -> Result<(), Memory>
    requires count { length tested.now ≡ length cells.now }
    requires criterion { (k : ErrorKind) → criterion.now ≢ Error k }
    ensures { OnOk result (to.new ≡ to.old ++ met criterion.now tested.now cells.now) }
{
    for (place, value) in tested.iter().enumerate() {
        if meets(value, criterion) {
            to.push(cells[place])?;
        }
    }
    Ok(())
}

// How many rows and columns an argument has.
fn size_of(arg: &Arg) -> (u32, u32)
    ensures rows { result.0 ≡ (grid_of arg.now).rows }
    ensures columns { result.1 ≡ (grid_of arg.now).columns }
{
    match arg {
        Arg::One(_) => (1, 1),
        Arg::Area(grid) => (grid.rows(), grid.cols()),
    }
}

// All elements of an argument, row by row.
fn elements_of(arg: &Arg) -> &[Value]
    ensures items { result.now ≡ elements_of arg.now }
    ensures full { IsFull (grid_of arg.now) }
{
    match arg {
        Arg::One(value) => std::slice::from_ref(value),
        Arg::Area(grid) => grid.items(),
    }
}
