// The parts of SUMIF where not all of the summed grid is read: the places that meet the criterion, the sum of the elements there, and
// the error that is the first of these whatever the open elements of the tested grid hold.
ghost use Rattle.std.specs.Prelude.{◌≡◌, IfOk, None, map};
ghost use Rattle.std.specs.List.{filter_map, list_all};
ghost use Rattle.std.specs.Result.{result_map_both};
ghost use Rattle.affine_forms.specs.Answers as forms;
ghost use Rattle.affine_forms.specs.Steps.{total};
ghost use Rattle.form_table.specs.Criteria.{certain_beside, summed_error_by, summed_error, if_same, met_places, places_from, sum_of_elements};
ghost use Rattle.form_table.specs.Items.{form_in, item_at};
ghost use Rattle.form_table.specs.Lookups.{error_of, known_value};
ghost use Rattle.form_values.specs.Known.{is_known, value_in};
ghost use Rattle.form_values.specs.Trials.{Answers};
ghost use Rattle.form_values.specs.declared.abs.Abs.TheVariants.{Known};

use crate::conditional::{error_of, is_met};
use crate::items::{add_elements, error_among};
use affine_forms::{Form, FormStop};
use cell_refs::ErrorKind;
use form_ops::{as_entry, as_one, fault};
use form_values::{Abs, AbsArg, OpRefusal};
use frac128::Frac;
use memory::Memory;
use sheet_model::Value;
use std::alloc::Global;

/// The places, from 0, of the elements that meet a criterion; all of them and the criterion have to be known.
pub fn places_met(alloc: Global, tested: &[Abs], criterion: &Abs) -> Result<Vec<usize>, OpRefusal>
    requires { error_of criterion.now ≡ None }
    ensures { Answers (met_places tested.now criterion.now)
        (result_map_both (λ places. places.items) (λ refusal. refusal) result) }
{
    if !are_known(tested) {
        return Err(OpRefusal::Undecided(0));
    }
    let Abs::Known(criterion) = criterion else {
        return Err(OpRefusal::Undecided(1));
    };
    Ok(places_of(alloc, tested, criterion)?)
}

// Whether all elements are known.
fn are_known(items: &[Abs]) -> bool
    ensures { result ≡ list_all is_known items.now }
{
    items.iter().all(|item| item.is_known())
}

// The places of the known elements that meet a known criterion.
fn places_of(alloc: Global, tested: &[Abs], criterion: &Value) -> Result<Vec<usize>, Memory>
    requires { error_of (Known criterion.now) ≡ None }
    ensures { IfOk result (λ places. places.items
        ≡ places_from 0 criterion.now (map value_in tested.now)) }
{
    let mut places = Vec::new(alloc);
    for (place, item) in tested.iter().enumerate() {
        if is_met(criterion, item) {
            places.push(place)?;
        }
    }
    Ok(places)
}

/// The sum of the numbers of some elements, or the first error among them.
pub fn sum_elements(alloc: Global, items: &[Abs]) -> Result<AbsArg, OpRefusal>
    ensures { Answers (sum_of_elements items.now) result }
{
    if let Some(kind) = error_among(items) {
        return Ok(AbsArg::One(fault(kind)));
    }
    as_one(as_entry(total_of(alloc, items)))
}

// The sum of the numbers of some elements, from 0.
fn total_of(alloc: Global, items: &[Abs]) -> Result<Form, FormStop>
    ensures { forms.Answers (total (filter_map form_in (filter_map item_at items.now))) result }
{
    let mut total = Form::constant(alloc, Frac::zero());
    add_elements(&mut total, alloc, items)?;
    Ok(total)
}

/// The error that is the first among the summed elements whatever the open elements of the tested grid hold, if there is such a one.
pub fn summed_error(criterion: &Abs, summed: &[Abs], tested: &[Abs]) -> Option<ErrorKind>
    requires { error_of criterion.now ≡ None }
    ensures { result ≡ summed_error_by (known_value criterion.now) summed.now tested.now }
{
    let Abs::Known(criterion) = criterion else {
        return None;
    };
    summed_error_among(criterion, summed, tested)
}

// The same by a known criterion, from the last place to the first.
fn summed_error_among(criterion: &Value, summed: &[Abs], tested: &[Abs]) -> Option<ErrorKind>
    requires { error_of (Known criterion.now) ≡ None }
    ensures { result ≡ summed_error criterion.now summed.now tested.now }
{
    let mut certain = None;
    let mut place = summed.len().min(tested.len());
    while place > 0 {
        place -= 1;
        let error = error_of(&summed[place]);
        certain = certain_beside(criterion, &tested[place], error, certain);
    }
    certain
}

// What is certain from a place on, by what is certain of those that follow.
fn certain_beside(
    criterion: &Value,
    tested: &Abs,
    error: Option<ErrorKind>,
    later: Option<ErrorKind>,
) -> Option<ErrorKind>
    requires { error_of (Known criterion.now) ≡ None }
    ensures { result ≡ certain_beside criterion.now tested.now error later }
{
    let Some(kind) = error else {
        return later;
    };
    if !tested.is_known() {
        return if_same(kind, later);
    }
    if is_met(criterion, tested) {
        return error;
    }
    later
}

/// The error that follows, if it is this one.
pub(crate) fn if_same(kind: ErrorKind, later: Option<ErrorKind>) -> Option<ErrorKind>
    ensures { result ≡ if_same kind later }
{
    match later {
        Some(other) if kind == other => later,
        _ => None,
    }
}
