// IF, IFERROR and CHOOSE: by their first argument they choose one of those behind it.
ghost use Rattle.std.specs.Prelude.{◌≡◌, ◌++◌, None, IfOk, option_map};
ghost use Rattle.evaluation.specs.Composed.{chosen_outcome, choosing_outcome};
ghost use Rattle.recalculation.specs.Evaluation.{at_chosen, choose_place, choose_without, chosen_place, if_place, if_without, iferror_place, is_one_error, without_choice};
ghost use Rattle.recalculation.specs.Looking.{by_value};
ghost use Rattle.recalculation.specs.Looks.{choosing_looks, looks_of};
ghost use Rattle.sheet_funcs.specs.Arguments.{value_of};
ghost use Rattle.sheet_funcs.specs.Criteria.{is_error};
ghost use Rattle.sheet_funcs.specs.Rounding.{place_of};
ghost use Rattle.sheet_model.specs.Conversions.{logical_in};
ghost use Rattle.sheet_model.specs.Operators.{single};

use crate::looked::Looks;
use crate::part::Part;
use cell_refs::ErrorKind;
use formula_ast::Func;
use sheet_funcs::{logical_of, place_of};
use sheet_model::{Arg, Memory, Value};
use std::alloc::Global;

/// A call: it looks at its first argument and then at the chosen one, and has the value of the chosen one.
#[tactic(auto, using(crate::proofs::Chosen::looks_are))]
pub(crate) fn choosing_part(alloc: Global, function: Func, args: &[Part]) -> Result<Part, Memory>
    ensures { IfOk result (λ part. part ≡ record {
      looks = choosing_looks by_value function args.now;
      outcome = choosing_outcome function args.now;
      reference = None;
    }) }
{
    let [first, others @ ..] = args else {
        return Ok(Part::plain(alloc, Arg::One(Value::Error(ErrorKind::Value))));
    };
    let looks = first.looks.copy(alloc)?;
    let Some(value) = &first.outcome else {
        return Ok(Part {
            looks,
            outcome: None,
            reference: None,
        });
    };
    chosen_part(alloc, function, looks, value, others)
}

// A call that looks at some cells and has a first argument of some value.
fn chosen_part(
    alloc: Global,
    function: Func,
    mut looks: Looks,
    first: &Arg,
    others: &[Part],
) -> Result<Part, Memory>
    ensures { IfOk result (λ part. part ≡ record {
      looks = looks ++ looks_of (at_chosen others.now (chosen_place function first.now));
      outcome = chosen_outcome (without_choice function first.now)
          (at_chosen others.now (chosen_place function first.now));
      reference = None;
    }) }
{
    let Some(part) = choice(function, first, others) else {
        let without = without_choice(alloc, function, first)?;
        return Ok(Part {
            looks,
            outcome: Some(without),
            reference: None,
        });
    };
    looks.extend(&part.looks)?;
    let outcome = single_outcome(alloc, part)?;
    Ok(Part {
        looks,
        outcome,
        reference: None,
    })
}

// The value of what is chosen, a single value where it has one element.
fn single_outcome(alloc: Global, part: &Part) -> Result<Option<Arg>, Memory>
    ensures { IfOk result (λ outcome. outcome ≡ option_map single part.now.outcome) }
{
    match part.outcome() {
        Some(value) => Ok(Some(single_of(alloc, value)?)),
        None => Ok(None),
    }
}

// The argument that is chosen, if there is one.
fn choice<'a>(function: Func, first: &Arg, others: &'a [Part]) -> Option<&'a Part>
    ensures { option_map (λ part. part.now) result
        ≡ at_chosen others.now (chosen_place function first.now) }
{
    match function {
        Func::If => by_test(first, others),
        Func::IfError => by_error(first, others),
        _ => by_place(first, others),
    }
}

// The first argument where a test holds, and the second where it doesn't.
fn by_test<'a>(test: &Arg, others: &'a [Part]) -> Option<&'a Part>
    ensures { option_map (λ part. part.now) result
        ≡ at_chosen others.now (if_place (logical_in (value_of test.now))) }
{
    match logical_of(test) {
        Ok(true) => others.first(),
        Ok(false) => others.get(1),
        Err(_) => None,
    }
}

// The first argument where another one is an error.
fn by_error<'a>(tried: &Arg, others: &'a [Part]) -> Option<&'a Part>
    ensures { option_map (λ part. part.now) result
        ≡ at_chosen others.now (iferror_place (is_one_error (single tried.now))) }
{
    if is_one_error(tried) {
        return others.first();
    }
    None
}

// The argument at a place, counted from 1.
fn by_place<'a>(place: &Arg, others: &'a [Part]) -> Option<&'a Part>
    ensures { option_map (λ part. part.now) result
        ≡ at_chosen others.now (choose_place (place_of place.now)) }
{
    let Ok(place) = place_of(place) else {
        return None;
    };
    at_place(others, place)
}

// The same of the number.
fn at_place(others: &[Part], place: i128) -> Option<&Part>
    ensures { option_map (λ part. part.now) result
        ≡ at_chosen others.now (choose_place (Ok place)) }
{
    if place < 1 || place > others.len() as i128 {
        return None;
    }
    Some(&others[(place - 1) as usize])
}

// Whether a value is an error, as a single value where it has one element.
fn is_one_error(arg: &Arg) -> bool
    ensures { result ≡ is_one_error (single arg.now) }
{
    match arg {
        Arg::One(value) => is_error(value),
        Arg::Area(grid) => match grid.items() {
            [value] => is_error(value),
            _ => false,
        },
    }
}

// Whether a single value is.
fn is_error(value: &Value) -> bool
    ensures { result ≡ is_error value.now }
{
    matches!(value, Value::Error(_))
}

// The value where no argument is there to be chosen.
fn without_choice(alloc: Global, function: Func, first: &Arg) -> Result<Arg, Memory>
    ensures { IfOk result (λ value. value ≡ without_choice function first.now) }
{
    match function {
        Func::If => Ok(Arg::One(without_branch(first))),
        Func::IfError => single_of(alloc, first),
        _ => Ok(Arg::One(without_place(first))),
    }
}

// The value of IF without a third argument, or where its test is an error.
fn without_branch(test: &Arg) -> Value
    ensures { result ≡ if_without (logical_in (value_of test.now)) }
{
    match logical_of(test) {
        Ok(_) => Value::Logical(false),
        Err(kind) => Value::Error(kind),
    }
}

// The value of CHOOSE without an argument at its place, or where its place is an error.
fn without_place(place: &Arg) -> Value
    ensures { result ≡ choose_without (place_of place.now) }
{
    match place_of(place) {
        Ok(_) => Value::Error(ErrorKind::Value),
        Err(kind) => Value::Error(kind),
    }
}

// An equal value, a single one where it has one element.
fn single_of(alloc: Global, value: &Arg) -> Result<Arg, Memory>
    ensures { IfOk result (λ one. one ≡ single value.now) }
{
    match value {
        Arg::One(value) => Ok(Arg::One(value.copy(alloc)?)),
        Arg::Area(grid) => match grid.items() {
            [value] => Ok(Arg::One(value.copy(alloc)?)),
            _ => Ok(Arg::Area(grid.copy(alloc)?)),
        },
    }
}
