// What INDEX looks at, and its value.
ghost use Rattle.std.specs.Prelude.{◌≡◌, ◌<◌, ◌++◌, IfOk, None, length};
ghost use Rattle.cell_grids.specs.Full.{IsFullGrid};
ghost use Rattle.evaluation.specs.Composed.{index_outcome, picked_outcome};
ghost use Rattle.formula_ast.specs.Functions.{Takes};
ghost use Rattle.formula_ast.specs.declared.func.Func.TheVariants as func;
ghost use Rattle.recalculation.specs.Looking.{by_value};
ghost use Rattle.recalculation.specs.Looks.{index_looks, picked_cells};
ghost use Rattle.sheet_funcs.specs.Picks.{pick_of};
ghost use Rattle.sheet_funcs.specs.Within.{IsWithin};
ghost use Rattle.sheet_funcs.specs.declared.pick.Pick.TheVariants.{Part as Picked};

use crate::calls::whole_part;
use crate::cells::Cells;
use crate::looked::Looks;
use crate::looks::arguments::{all_looks, outcomes, push_all};
use crate::part::Part;
use crate::values::{single_grid, values_of};
use cell_grids::Reference;
use cell_refs::{Cell, ErrorKind};
use formula_ast::Func;
use sheet_funcs::{Pick, index_at};
use sheet_model::{Arg, Memory, Value};
use std::alloc::Global;

/// A call of INDEX: of a reference it looks at its places, and then at the cells that they pick.
pub(crate) fn index_part<C: Cells>(alloc: Global, cells: &C, args: &[Part]) -> Result<Part, Memory>
    requires { Takes func.Index (length args.now) }
    ensures { IfOk result (λ part. part ≡ record {
      looks = index_looks by_value args.now;
      outcome = index_outcome (C.known cells.now) args.now;
      reference = None;
    }) }
{
    let [source, places @ ..] = args else {
        return whole_part(alloc, Func::Index, args);
    };
    let Some(areas) = &source.reference else {
        return whole_part(alloc, Func::Index, args);
    };
    let looks = all_looks(alloc, places)?;
    let Some(at) = outcomes(alloc, places)? else {
        return Ok(Part::without(looks));
    };
    let grid = areas.grid(alloc)?;
    let pick = pick_at(&grid, &at);
    picked_part(alloc, cells, &grid, looks, pick)
}

// What these places pick; other than one or two pick nothing.
fn pick_at(grid: &Reference, at: &[Arg]) -> Pick
    ensures pick { result ≡ pick_of grid.now.rows grid.now.columns at.now }
    ensures within { IsWithin grid.now.rows grid.now.columns result }
{
    if at.len() != 1 && at.len() != 2 {
        return Pick::Fault(ErrorKind::Value);
    }
    index_at(grid.rows(), grid.cols(), at)
}

/// A call that looks at some cells and then at those that it picks.
pub(crate) fn picked_part<C: Cells>(
    alloc: Global,
    cells: &C,
    grid: &Reference,
    looks: Looks,
    pick: Pick,
) -> Result<Part, Memory>
    requires { IsWithin grid.now.rows grid.now.columns pick }
    ensures { IfOk result (λ part. part ≡ record {
      looks = looks ++ picked_cells grid.now pick;
      outcome = picked_outcome (C.known cells.now) grid.now pick;
      reference = None;
    }) }
{
    let mut looks = looks;
    let picked = grid.cells_in(alloc, pick)?;
    let outcome = picked_outcome(alloc, cells, grid, pick, &picked)?;
    push_all(&picked, &mut looks)?;
    Ok(Part {
        looks,
        outcome,
        reference: None,
    })
}

// The value of what is picked.
fn picked_outcome<C: Cells>(
    alloc: Global,
    cells: &C,
    grid: &Reference,
    pick: Pick,
    picked: &[Cell],
) -> Result<Option<Arg>, Memory>
    requires full { IsFullGrid grid.now }
    requires within { IsWithin grid.now.rows grid.now.columns pick }
    requires cells { picked.now ≡ picked_cells grid.now pick }
    ensures { IfOk result (λ outcome. outcome ≡ picked_outcome (C.known cells.now) grid.now pick) }
{
    match pick {
        Pick::Part(top, left, bottom, right) => {
            part_outcome(alloc, cells, grid, top, left, bottom, right, picked)
        }
        Pick::Fault(kind) => Ok(Some(Arg::One(Value::Error(kind)))),
    }
}

// The value of a part of a reference.
fn part_outcome<C: Cells>(
    alloc: Global,
    cells: &C,
    grid: &Reference,
    top: u32,
    left: u32,
    bottom: u32,
    right: u32,
    picked: &[Cell],
) -> Result<Option<Arg>, Memory>
    requires full { IsFullGrid grid.now }
    requires within { IsWithin grid.now.rows grid.now.columns (Picked top left bottom right) }
    requires cells { picked.now ≡ picked_cells grid.now (Picked top left bottom right) }
    ensures { IfOk result (λ outcome. outcome
        ≡ picked_outcome (C.known cells.now) grid.now (Picked top left bottom right)) }
{
    prove!(bottom < grid.rows() && right < grid.cols());
    let values = values_of(alloc, cells, picked)?;
    Ok(single_grid(bottom + 1 - top, right + 1 - left, values))
}
