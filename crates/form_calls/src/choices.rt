// IFERROR and CHOOSE, and what is chosen of the arguments behind the first.
ghost use Rattle.std.specs.Prelude.{◌≡◌, ◌++◌, IfOk, None, Some, map, option_map};
ghost use Rattle.std.specs.List.{list_all};
ghost use Rattle.form_calls.specs.Steps.{looks_of_chosen};
ghost use Rattle.form_extraction.specs.Calls.{by_error, by_place, choose_outcome, chosen_or, iferror_outcome, is_no_argument, is_no_choice_in};
ghost use Rattle.form_extraction.specs.Deciding.{by_form, is_known_error, place_in};
ghost use Rattle.form_extraction.specs.Parts.{argument};
ghost use Rattle.form_table.specs.Certain.{is_no_choice};
ghost use Rattle.form_table.specs.Wanted.{known_number, number_of, single, wanted};
ghost use Rattle.form_values.specs.declared.abs.Abs.TheVariants.{Affine, Known};
ghost use Rattle.formula_ast.specs.declared.func.Func.TheVariants as func;
ghost use Rattle.recalculation.specs.Evaluation.{at_chosen, choose_place, choose_without, iferror_place};
ghost use Rattle.recalculation.specs.Looks.{chosen_looks, choosing_looks};

use crate::ends::{error_part, miscounted_part, valueless_part};
use cell_refs::{Cell, ErrorKind, Span};
use form_extraction::{Outcome, Why};
use form_ops::{constant_of, value_of};
use form_parts::{Part, push_cells, single_of};
use form_values::{Abs, AbsArg, Open};
use memory::Memory;
use sheet_model::{Value, to_number};
use std::alloc::Global;

/// IFERROR: the first argument, or the second where that is an error. It looks at the first and then, of an error, at the second.
#[tactic(auto, using(crate::proofs::Outcomes::stays))]
pub(crate) fn iferror_part(alloc: Global, whole: Span, args: &[Part]) -> Result<Part, Memory>
    ensures { IfOk result (λ part. part ≡ record {
      span = whole;
      looks = choosing_looks by_form func.IfError (map argument args.now);
      outcome = iferror_outcome args.now;
      reference = None;
    }) }
{
    let [first, others @ ..] = args else {
        return miscounted_part(alloc, whole, args);
    };
    let looks = Vec::from_slice(alloc, first.looks())?;
    let Some(value) = first.value() else {
        return valueless_part(alloc, whole, looks, first);
    };
    tried_part(alloc, whole, looks, value, others)
}

// A call of IFERROR whose first argument has this value.
fn tried_part(
    alloc: Global,
    whole: Span,
    looks: Vec<Cell>,
    value: &AbsArg,
    others: &[Part],
) -> Result<Part, Memory>
    ensures { IfOk result (λ part. part ≡ record {
      span = whole;
      looks = looks.items ++ chosen_looks func.IfError (map argument others.now)
          (Some (iferror_place (is_known_error (single value.now))));
      outcome = by_error others.now (single value.now);
      reference = None;
    }) }
{
    let without = single_of(alloc, value)?;
    let chosen = if is_known_error(&without) {
        others.first()
    } else {
        None
    };
    chosen_part(alloc, whole, looks, chosen, without)
}

// Whether a value is an error, whatever the decisions are.
fn is_known_error(value: &AbsArg) -> bool
    ensures { result ≡ is_known_error value.now }
{
    matches!(value, AbsArg::One(Abs::Known(Value::Error(_))))
}

/// CHOOSE: the argument at the place that the first one says, counted from 1. It looks at the first and then at the chosen one; an
/// open place is refused, unless each argument is certainly the error that stands where none is chosen.
#[tactic(auto, using(crate::proofs::Outcomes::stays))]
pub(crate) fn choose_part(alloc: Global, whole: Span, args: &[Part]) -> Result<Part, Memory>
    ensures { IfOk result (λ part. part ≡ record {
      span = whole;
      looks = choosing_looks by_form func.Choose (map argument args.now);
      outcome = choose_outcome args.now;
      reference = None;
    }) }
{
    let [first, others @ ..] = args else {
        return miscounted_part(alloc, whole, args);
    };
    let looks = Vec::from_slice(alloc, first.looks())?;
    let Some(value) = first.value() else {
        return valueless_part(alloc, whole, looks, first);
    };
    placed_part(alloc, whole, looks, first, place_in(value), others)
}

// A call of CHOOSE with a place in its first argument, or none where the place is open.
fn placed_part(
    alloc: Global,
    whole: Span,
    looks: Vec<Cell>,
    first: &Part,
    place: Option<Result<i128, ErrorKind>>,
    others: &[Part],
) -> Result<Part, Memory>
    ensures { IfOk result (λ part. part ≡ record {
      span = whole;
      looks = looks.items
          ++ chosen_looks func.Choose (map argument others.now) (option_map choose_place place);
      outcome = by_place first.now others.now place;
      reference = None;
    }) }
{
    let Some(place) = place else {
        return Ok(open_part(whole, looks, first, others));
    };
    let without = AbsArg::One(Abs::Known(without_place(place)));
    chosen_part(alloc, whole, looks, at_place(others, place), without)
}

// A call of CHOOSE with an open place in its first argument: it is refused, unless each of the others is certainly the error that
// stands where none is chosen.
fn open_part(whole: Span, looks: Vec<Cell>, first: &Part, others: &[Part]) -> Part
    ensures { result ≡ record {
      span = whole;
      looks = looks.items;
      outcome = by_place first.now others.now None;
      reference = None;
    } }
{
    if are_no_arguments(others) {
        return error_part(whole, looks, ErrorKind::Value);
    }
    let undecided = Outcome::Refused(first.span(), Why::Undecided);
    Part::new(whole, looks, undecided, None)
}

// Whether each argument is the error that stands where none is chosen, without a look at a cell.
fn are_no_arguments(arguments: &[Part]) -> bool
    ensures { result ≡ list_all is_no_argument arguments.now }
{
    arguments.iter().all(|argument| is_no_argument(argument))
}

// Whether an argument is that error.
fn is_no_argument(argument: &Part) -> bool
    ensures { result ≡ is_no_argument argument.now }
{
    if argument.looks().is_empty() {
        return is_no_choice_in(argument.value());
    }
    false
}

// Whether there is a value and it is that error.
fn is_no_choice_in(value: Option<&AbsArg>) -> bool
    ensures { result ≡ is_no_choice_in (option_map (λ a. a.now) value.entry) }
{
    match value {
        Some(value) => is_no_choice(value),
        None => false,
    }
}

// Whether it is that error.
fn is_no_choice(value: &AbsArg) -> bool
    ensures { result ≡ is_no_choice value.now }
{
    match value.elements() {
        [Abs::Known(Value::Error(kind))] => matches!(kind, ErrorKind::Value),
        _ => false,
    }
}

// The known place that a value is, or the error in its stead.
fn place_in(value: &AbsArg) -> Option<Result<i128, ErrorKind>>
    ensures { result ≡ place_in (number_of value.now) (known_number (number_of value.now)) }
{
    match value_of(value) {
        Ok(Abs::Known(value)) => Some(known_place(value)),
        Ok(Abs::Affine(form)) => open_place(form),
        Ok(Abs::Test(_, _)) => None,
        Err(kind) => Some(Err(kind)),
    }
}

// The place that a known value is.
fn known_place(value: &Value) -> Result<i128, ErrorKind>
    ensures { Some result
        ≡ place_in (wanted (Known value.now)) (known_number (wanted (Known value.now))) }
{
    match to_number(value) {
        Ok(number) => Ok(number.floor()),
        Err(kind) => Err(kind),
    }
}

// The place that a form is, where it has no terms.
fn open_place(form: &Open) -> Option<Result<i128, ErrorKind>>
    ensures { result
        ≡ place_in (wanted (Affine form.now)) (known_number (wanted (Affine form.now))) }
{
    match constant_of(&form.form) {
        Some(number) => Some(Ok(number.floor())),
        None => None,
    }
}

// The argument at a place, counted from 1.
fn at_place(others: &[Part], place: Result<i128, ErrorKind>) -> Option<&Part>
    ensures { option_map (λ part. part.now) result ≡ at_chosen others.now (choose_place place) }
{
    let Ok(place) = place else {
        return None;
    };
    if place < 1 || place > others.len() as i128 {
        return None;
    }
    Some(&others[(place - 1) as usize])
}

// The value of CHOOSE without an argument at its place, or where its place is an error.
fn without_place(place: Result<i128, ErrorKind>) -> Value
    ensures { result ≡ choose_without place }
{
    match place {
        Ok(_) => Value::Error(ErrorKind::Value),
        Err(kind) => Value::Error(kind),
    }
}

/// A call with the chosen argument, as a single value where it has one element, or with another value where none is chosen.
#[tactic(auto, using(crate::proofs::Outcomes::stays))]
pub(crate) fn chosen_part(
    alloc: Global,
    whole: Span,
    mut looks: Vec<Cell>,
    chosen: Option<&Part>,
    without: AbsArg,
) -> Result<Part, Memory>
    ensures { IfOk result (λ part. part ≡ record {
      span = whole;
      looks = looks.items ++ looks_of_chosen (option_map (λ p. p.now) chosen.entry);
      outcome = chosen_or without (option_map (λ p. p.now) chosen.entry);
      reference = None;
    }) }
{
    let Some(part) = chosen else {
        return Ok(Part::new(whole, looks, Outcome::Gives(without), None));
    };
    push_cells(part.looks(), &mut looks)?;
    let Some(value) = part.value() else {
        return valueless_part(alloc, whole, looks, part);
    };
    let value = single_of(alloc, value)?;
    Ok(Part::new(whole, looks, Outcome::Gives(value), None))
}
