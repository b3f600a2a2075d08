// Calls of functions.
ghost use Rattle.std.specs.Prelude.{[], ◌∷◌, ◌≡◌, IfOk, IfSome, None, Some, false, length, option_map, pos};
ghost use Rattle.formula_ast.specs.Functions.{Takes};
ghost use Rattle.formula_ast.specs.declared.func.Func.TheVariants as func;
ghost use Rattle.evaluation.specs.Composed.{all_filled, call_part, filled_or, filled_outcome, narrow_called, size_outcome};
ghost use Rattle.recalculation.specs.Looking.{by_value};
ghost use Rattle.recalculation.specs.Looks.{all_looks, both, call_looks, outcomes, size_looks};
ghost use Rattle.fractions.specs.Whole.{whole_ℚ};
ghost use Rattle.sheet_funcs.specs.Table.{is_choosing};
ghost use Rattle.sheet_model.specs.declared.value.Value.TheVariants.{Number};
ghost use Rattle.sheet_model.specs.declared.grid.Arg.TheVariants.{One};

use crate::cells::Cells;
use crate::choices::choosing_part;
use crate::copy::copy_of;
use crate::looked::Looks;
use crate::looks::arguments::{all_looks, outcomes};
use crate::looks::criteria::sumif_looks;
use crate::looks::lookups::lookup_part;
use crate::looks::picks::index_part;
use crate::operators::narrow_answer;
use crate::part::Part;
use crate::values::{all_known, filled_grid};
use formula_ast::Func;
use frac128::Frac;
use sheet_funcs::call;
use sheet_model::{Arg, Memory, Value};
use std::alloc::Global;

/// A call of a function.
pub(crate) fn call_part<C: Cells>(
    alloc: Global,
    cells: &C,
    function: Func,
    args: Vec<Part>,
) -> Result<Part, Memory>
    requires { Takes function (length args.items) }
    ensures { IfOk result (λ part. part ≡ call_part (C.known cells.now) function args.items) }
{
    match function {
        Func::If => choosing_part(alloc, Func::If, &args),
        Func::IfError => choosing_part(alloc, Func::IfError, &args),
        Func::Choose => choosing_part(alloc, Func::Choose, &args),
        Func::Index => index_part(alloc, cells, &args),
        Func::VLookup => lookup_part(alloc, cells, &args, false),
        Func::HLookup => lookup_part(alloc, cells, &args, true),
        Func::SumIf => sumif_part(alloc, cells, &args),
        Func::Rows => rows_part(alloc, &args),
        Func::Columns => columns_part(alloc, &args),
        _ => whole_call(alloc, function, args),
    }
}

// A call of SUMIF.
fn sumif_part<C: Cells>(alloc: Global, cells: &C, args: &[Part]) -> Result<Part, Memory>
    requires { Takes func.SumIf (length args.now) }
    ensures { IfOk result (λ part. part ≡ call_part (C.known cells.now) func.SumIf args.now) }
{
    let looks = sumif_looks(alloc, args)?;
    let outcome = filled_outcome(alloc, cells, Func::SumIf, args, &looks)?;
    Ok(Part {
        looks,
        outcome,
        reference: None,
    })
}

// A call of ROWS, which needs no value of a reference.
fn rows_part(alloc: Global, args: &[Part]) -> Result<Part, Memory>
    requires { Takes func.Rows (length args.now) }
    ensures { IfOk result (λ part. part ≡ record {
      looks = size_looks args.now;
      outcome = size_outcome func.Rows (λ g. g.rows) args.now;
      reference = None;
    }) }
{
    let [part] = args else {
        return whole_part(alloc, Func::Rows, args);
    };
    match &part.reference {
        Some(referred) => Ok(Part::plain(alloc, number(referred.grid(alloc)?.rows()))),
        None => whole_part(alloc, Func::Rows, args),
    }
}

// A call of COLUMNS.
fn columns_part(alloc: Global, args: &[Part]) -> Result<Part, Memory>
    requires { Takes func.Columns (length args.now) }
    ensures { IfOk result (λ part. part ≡ record {
      looks = size_looks args.now;
      outcome = size_outcome func.Columns (λ g. g.columns) args.now;
      reference = None;
    }) }
{
    let [part] = args else {
        return whole_part(alloc, Func::Columns, args);
    };
    match &part.reference {
        Some(referred) => Ok(Part::plain(alloc, number(referred.grid(alloc)?.cols()))),
        None => whole_part(alloc, Func::Columns, args),
    }
}

// A whole number.
fn number(n: u32) -> Arg
    ensures { result ≡ One (Number (whole_ℚ (pos n))) }
{
    Arg::One(Value::Number(Frac::from_whole(n as i64)))
}

// A call of a function that looks at all of its arguments. One argument alone, as in a sum of an area, is taken without a copy.
fn whole_call(alloc: Global, function: Func, args: Vec<Part>) -> Result<Part, Memory>
    requires takes { Takes function (length args.items) }
    requires whole { is_choosing function ≡ false }
    ensures { IfOk result (λ part. part ≡ record {
      looks = all_looks args.items;
      outcome = narrow_called function (outcomes args.items);
      reference = None;
    }) }
{
    let mut args = args;
    if args.len() == 1 {
        if let Some(part) = args.pop() {
            return single_call(alloc, function, part);
        }
    }
    whole_part(alloc, function, &args)
}

// The same of one argument.
fn single_call(alloc: Global, function: Func, part: Part) -> Result<Part, Memory>
    requires takes { Takes function 1 }
    requires whole { is_choosing function ≡ false }
    ensures { IfOk result (λ call. call ≡ record {
      looks = all_looks (part ∷ []);
      outcome = narrow_called function (outcomes (part ∷ []));
      reference = None;
    }) }
{
    let Part {
        looks,
        outcome,
        reference: _,
    } = part;
    let outcome = narrow_called(alloc, function, in_list(alloc, outcome)?)?;
    Ok(Part {
        looks,
        outcome,
        reference: None,
    })
}

// A value, if there is one, as a list.
fn in_list(alloc: Global, value: Option<Arg>) -> Result<Option<Vec<Arg>>, Memory>
    ensures list { IfOk result (λ list. option_map (λ v. v.items) list ≡ both value (Some [])) }
    ensures count { IfOk result (λ list. IfSome list (λ v. length v.items ≡ 1)) }
{
    let Some(value) = value else {
        return Ok(None);
    };
    let mut list = Vec::new(alloc);
    list.push(value)?;
    Ok(Some(list))
}

/// A call of a function that looks at all of its arguments.
pub(crate) fn whole_part(alloc: Global, function: Func, args: &[Part]) -> Result<Part, Memory>
    requires takes { Takes function (length args.now) }
    requires whole { is_choosing function ≡ false }
    ensures { IfOk result (λ part. part ≡ record {
      looks = all_looks args.now;
      outcome = narrow_called function (outcomes args.now);
      reference = None;
    }) }
{
    let looks = all_looks(alloc, args)?;
    let outcome = narrow_called(alloc, function, outcomes(alloc, args)?)?;
    Ok(Part {
        looks,
        outcome,
        reference: None,
    })
}

// The value of a function that looks at some cells, where these are known, with what is known of its references.
fn filled_outcome<C: Cells>(
    alloc: Global,
    cells: &C,
    function: Func,
    args: &[Part],
    looks: &Looks,
) -> Result<Option<Arg>, Memory>
    requires takes { Takes function (length args.now) }
    requires whole { is_choosing function ≡ false }
    requires looks { looks.now ≡ call_looks by_value (C.known cells.now) function args.now }
    ensures { IfOk result (λ outcome. outcome
        ≡ filled_outcome (C.known cells.now) function args.now) }
{
    if !all_known(alloc, cells, &looks.cells(alloc)?)? {
        return Ok(None);
    }
    narrow_called(alloc, function, all_filled(alloc, cells, args)?)
}

/// What a function makes of its arguments, where all have a value.
pub(crate) fn narrow_called(
    alloc: Global,
    function: Func,
    args: Option<Vec<Arg>>,
) -> Result<Option<Arg>, Memory>
    requires takes { IfSome args (λ v. Takes function (length v.items)) }
    requires whole { is_choosing function ≡ false }
    ensures { IfOk result (λ outcome. outcome
        ≡ narrow_called function (option_map (λ v. v.items) args)) }
{
    match args {
        Some(args) => narrow_answer(call(alloc, function, &args)),
        None => Ok(None),
    }
}

// The values of some parts, of a reference those that are known.
fn all_filled<C: Cells>(
    alloc: Global,
    cells: &C,
    parts: &[Part],
) -> Result<Option<Vec<Arg>>, Memory>
    ensures values { IfOk result (λ found. option_map (λ v. v.items) found
        ≡ all_filled (C.known cells.now) parts.now) }
    ensures count { IfOk result (λ found. IfSome found (λ v. length v.items ≡ length parts.now)) }
{
    let mut values = Vec::new(alloc);
    for part in parts {
        let Some(value) = filled_or(alloc, cells, part)? else {
            return Ok(None);
        };
        values.push(value)?;
    }
    Ok(Some(values))
}

// The value of a part, of a reference what is known.
fn filled_or<C: Cells>(alloc: Global, cells: &C, part: &Part) -> Result<Option<Arg>, Memory>
    ensures { IfOk result (λ found. found
        ≡ filled_or (C.known cells.now) part.now.reference part.now.outcome) }
{
    if let Some(reference) = &part.reference {
        return Ok(Some(filled_grid(alloc, cells, &reference.grid(alloc)?)?));
    }
    match &part.outcome {
        Some(value) => Ok(Some(copy_of(alloc, value)?)),
        None => Ok(None),
    }
}
