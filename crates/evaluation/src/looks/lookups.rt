// What VLOOKUP and HLOOKUP look at, and their values.
ghost use Rattle.std.specs.Prelude.{◌≡◌, ◌<◌, ◌++◌, ◌∷◌, IfOk, None, if◌then◌else◌, length};
ghost use Rattle.std.specs.Option.{option_and_then};
ghost use Rattle.evaluation.specs.Composed.{lookup_outcome, narrow_called, picked_outcome, record_outcome};
ghost use Rattle.formula_ast.specs.Functions.{Takes};
ghost use Rattle.formula_ast.specs.declared.func.Func.TheVariants as func;
ghost use Rattle.recalculation.specs.Looking.{by_value};
ghost use Rattle.recalculation.specs.Looks.{all_looks, exchanged, lookup_looks, outcomes, picked_cells, record_looks, then_cells};
ghost use Rattle.sheet_funcs.specs.Lookups.{record_pick};
ghost use Rattle.sheet_funcs.specs.Within.{IsWithin};

use crate::calls::{narrow_called, whole_part};
use crate::cells::Cells;
use crate::looked::Looks;
use crate::looks::arguments::{outcomes, push_all, push_looks};
use crate::looks::picks::picked_part;
use crate::part::Part;
use crate::values::values_of;
use cell_grids::Reference;
use cell_refs::ErrorKind;
use formula_ast::Func;
use sheet_funcs::{Pick, record_at};
use sheet_model::{Arg, Memory, Value};
use std::alloc::Global;

/// A call of VLOOKUP, or of HLOOKUP, with rows and columns exchanged: of a reference it looks at its other arguments and the keys,
/// and then at the cell that is found.
pub(crate) fn lookup_part<C: Cells>(
    alloc: Global,
    cells: &C,
    args: &[Part],
    across: bool,
) -> Result<Part, Memory>
    requires { Takes (if across then func.HLookup else func.VLookup) (length args.now) }
    ensures { IfOk result (λ part. part ≡ record {
      looks = lookup_looks by_value (C.known cells.now) (if across
          then exchanged else (λ g. g)) args.now;
      outcome = lookup_outcome (C.known cells.now) (if across then func.HLookup
          else func.VLookup) (if across then exchanged else (λ g. g)) args.now;
      reference = None;
    }) }
{
    let [key, table, rest @ ..] = args else {
        return whole_part(alloc, lookup(across), args);
    };
    let Some(areas) = &table.reference else {
        let looks = looks_of_all(alloc, table, key, rest)?;
        let outcome = narrow_called(alloc, lookup(across), outcomes(alloc, args)?)?;
        return Ok(Part {
            looks,
            outcome,
            reference: None,
        });
    };
    let grid = areas.grid(alloc)?;
    if across {
        return record_part(alloc, cells, &grid.transpose(alloc)?, key, rest);
    }
    record_part(alloc, cells, &grid, key, rest)
}

// The function.
fn lookup(across: bool) -> Func
    ensures { result ≡ (if across then func.HLookup else func.VLookup) }
{
    if across { Func::HLookup } else { Func::VLookup }
}

// All that a table, a key and further arguments look at, in this order.
fn looks_of_all(alloc: Global, table: &Part, key: &Part, rest: &[Part]) -> Result<Looks, Memory>
    ensures { IfOk result (λ looks. looks ≡ all_looks (table.now ∷ key.now ∷ rest.now)) }
{
    let mut looks = table.looks.copy(alloc)?;
    looks.extend(&key.looks)?;
    push_looks(rest, &mut looks)?;
    Ok(looks)
}

// A lookup of a key in the rows of a reference.
fn record_part<C: Cells>(
    alloc: Global,
    cells: &C,
    grid: &Reference,
    key: &Part,
    rest: &[Part],
) -> Result<Part, Memory>
    ensures { IfOk result (λ part. part ≡ record {
      looks = record_looks by_value (C.known cells.now) grid.now (key.now ∷ rest.now);
      outcome = record_outcome (C.known cells.now) grid.now (key.now ∷ rest.now);
      reference = None;
    }) }
{
    let mut looks = key.looks.copy(alloc)?;
    push_looks(rest, &mut looks)?;
    let keys = grid.first_column(alloc)?;
    push_all(&keys, &mut looks)?;
    let Some(values) = values_of(alloc, cells, &keys)? else {
        return Ok(Part::without(looks));
    };
    found_part(alloc, cells, grid, looks, &values, key, rest)
}

// The same of the values of the keys.
fn found_part<C: Cells>(
    alloc: Global,
    cells: &C,
    grid: &Reference,
    looks: Looks,
    keys: &[Value],
    key: &Part,
    rest: &[Part],
) -> Result<Part, Memory>
    requires { length keys.now ≡ grid.now.rows }
    ensures { IfOk result (λ part. part ≡ record {
      looks = looks ++ then_cells (outcomes (key.now ∷ rest.now))
          (λ args. picked_cells grid.now (record_pick grid.now.columns keys.now args));
      outcome = option_and_then (λ args. picked_outcome (C.known cells.now) grid.now
          (record_pick grid.now.columns keys.now args)) (outcomes (key.now ∷ rest.now));
      reference = None;
    }) }
{
    let Some(key) = &key.outcome else {
        return Ok(Part::without(looks));
    };
    let Some(others) = outcomes(alloc, rest)? else {
        return Ok(Part::without(looks));
    };
    picked_part(
        alloc,
        cells,
        grid,
        looks,
        pick_by_key(grid, keys, key, &others),
    )
}

// What is found by a key and further arguments.
fn pick_by_key(grid: &Reference, keys: &[Value], key: &Arg, others: &[Arg]) -> Pick
    requires { length keys.now ≡ grid.now.rows }
    ensures pick { result ≡ record_pick grid.now.columns keys.now (key.now ∷ others.now) }
    ensures within { IsWithin grid.now.rows grid.now.columns result }
{
    prove!(grid.rows() <= u32::MAX);
    let [place, rest @ ..] = others else {
        return Pick::Fault(ErrorKind::Value);
    };
    record_at(keys, grid.cols(), key, place, rest)
}
