// What is made of two numbers.
ghost use Rattle.std.specs.Prelude.{◌≡◌, ◌≢◌, IfErr};
ghost use Rattle.cell_refs.specs.declared.error_kind.ErrorKind.{ErrorKind};
ghost use Rattle.form_ops.specs.Operands.{wanted_in};
ghost use Rattle.form_ops.specs.Pairings.{NeverAffine, certain_error, pairing_row};
ghost use Rattle.form_ops.specs.Refusals.{IsNoWant};
ghost use Rattle.form_table.specs.Operators.{power_row, product_row, quotient_row, raised_to};
ghost use Rattle.form_table.specs.Rounding.{round_row};
ghost use Rattle.form_table.specs.Wanted.{certain_by, form, known_number, on_both, on_forms, wanted};
ghost use Rattle.form_values.specs.Trials.{Answers};

use crate::number_tests::{are_equal, inverse, is_exponent, is_place, is_zero};
use crate::operand::{Operand, constant_of, known_number, operand_of};
use crate::results::{as_entry, fault};
use affine_forms::Form;
use cell_refs::ErrorKind;
use form_values::{Abs, OpRefusal};
use frac128::Frac;
use sheet_model::Value;
use std::alloc::Global;

/// What is done to two numbers.
#[derive(Clone, Copy)]
pub(crate) enum Pairing {
    Sum,
    Difference,
    Product,
    Quotient,
    Power,
    Remainder,
    Rounding,
}

/// What is made of two values where numbers are wanted.
pub(crate) fn on_values(
    alloc: Global,
    pairing: Pairing,
    first: &Abs,
    second: &Abs,
) -> Result<Abs, OpRefusal>
    ensures { Answers (on_forms (certain_error pairing) (pairing_row pairing)
        (wanted first.now) (wanted second.now)) result }
{
    on_operands(alloc, pairing, &operand_of(first), &operand_of(second))
}

/// What is made of what stands where two numbers are wanted: an error in the place of one, an error that is certain, or what the
/// numbers give.
pub(crate) fn on_operands(
    alloc: Global,
    pairing: Pairing,
    first: &Operand,
    second: &Operand,
) -> Result<Abs, OpRefusal>
    ensures answer { Answers (on_forms (certain_error pairing)
        (pairing_row pairing) (wanted_in first.now) (wanted_in second.now)) result }
    ensures in_place { NeverAffine pairing → IfErr result IsNoWant }
{
    if let Operand::Fault(kind) = first {
        return Ok(fault(*kind));
    }
    if let Operand::Fault(kind) = second {
        return Ok(fault(*kind));
    }
    if let Some(kind) = certain_by(pairing, second) {
        return Ok(fault(kind));
    }
    on_both(alloc, pairing, first, second)
}

// The error that the second number makes certain where it is known.
fn certain_by(pairing: Pairing, second: &Operand) -> Option<ErrorKind>
    ensures { result ≡ certain_by (certain_error pairing) (known_number (wanted_in second.now)) }
{
    match known_number(second) {
        Some(number) => certain_error(pairing, number),
        None => None,
    }
}

// The error that a second number makes certain.
fn certain_error(pairing: Pairing, number: Frac) -> Option<ErrorKind>
    ensures { result ≡ certain_error pairing number }
{
    match pairing {
        Pairing::Sum | Pairing::Difference | Pairing::Product => None,
        Pairing::Quotient | Pairing::Remainder => {
            if is_zero(number) {
                Some(ErrorKind::Div0)
            } else {
                None
            }
        }
        Pairing::Power => {
            if is_exponent(number) {
                None
            } else {
                Some(ErrorKind::Num)
            }
        }
        Pairing::Rounding => {
            if is_place(number.floor()) {
                None
            } else {
                Some(ErrorKind::Num)
            }
        }
    }
}

// What is made of two that have no error in their places.
fn on_both(
    alloc: Global,
    pairing: Pairing,
    first: &Operand,
    second: &Operand,
) -> Result<Abs, OpRefusal>
    ensures answer { Answers
        (on_both (pairing_row pairing) (wanted_in first.now) (wanted_in second.now)) result }
    ensures in_place { NeverAffine pairing → IfErr result IsNoWant }
{
    match first {
        Operand::Known(number) => {
            on_second(alloc, pairing, &Form::constant(alloc, *number), second)
        }
        Operand::Open(form) => on_second(alloc, pairing, form, second),
        Operand::Test | Operand::Fault(_) => Err(OpRefusal::Undecided(0)),
    }
}

// What is made of a form and of what stands where a second number is wanted.
fn on_second(
    alloc: Global,
    pairing: Pairing,
    first: &Form,
    second: &Operand,
) -> Result<Abs, OpRefusal>
    ensures answer { Answers
        (on_both (pairing_row pairing) (form first.now) (wanted_in second.now)) result }
    ensures in_place { NeverAffine pairing → IfErr result IsNoWant }
{
    match second {
        Operand::Known(number) => pair_result(pairing, first, &Form::constant(alloc, *number)),
        Operand::Open(form) => pair_result(pairing, first, form),
        Operand::Test | Operand::Fault(_) => Err(OpRefusal::Undecided(1)),
    }
}

// What is made of two forms.
fn pair_result(pairing: Pairing, first: &Form, second: &Form) -> Result<Abs, OpRefusal>
    ensures answer { Answers (pairing_row pairing first.now second.now) result }
    ensures in_place { NeverAffine pairing → IfErr result IsNoWant }
{
    match pairing {
        Pairing::Sum => as_entry(first.add(second)),
        Pairing::Difference => as_entry(first.sub(second)),
        Pairing::Product => product(first, second),
        Pairing::Quotient => quotient(first, second),
        Pairing::Power => power(first, second),
        Pairing::Remainder => Err(OpRefusal::Break),
        Pairing::Rounding => rounding(first),
    }
}

// The product: a known number scales the other factor.
fn product(first: &Form, second: &Form) -> Result<Abs, OpRefusal>
    ensures { Answers (product_row first.now second.now) result }
{
    match (constant_of(first), constant_of(second)) {
        (Some(number), _) => as_entry(second.scale(number)),
        (None, Some(number)) => as_entry(first.scale(number)),
        (None, None) => Err(OpRefusal::Break),
    }
}

// The quotient by a known number.
fn quotient(first: &Form, second: &Form) -> Result<Abs, OpRefusal>
    ensures { Answers (quotient_row first.now second.now) result }
{
    match constant_of(second) {
        Some(number) => as_entry(first.scale(inverse(number))),
        None => Err(OpRefusal::Break),
    }
}

// The power by a known exponent.
fn power(first: &Form, second: &Form) -> Result<Abs, OpRefusal>
    ensures { Answers (power_row first.now second.now) result }
{
    let exponent = constant_of(second);
    power_of(first, exponent)
}

// A form to a power: only the powers 0 and 1 are affine.
fn power_of(first: &Form, exponent: Option<Frac>) -> Result<Abs, OpRefusal>
    ensures { Answers (raised_to first.now exponent) result }
{
    match exponent {
        Some(number) if is_zero(number) => Ok(Abs::Known(Value::Number(Frac::one()))),
        Some(number) if are_equal(number, Frac::one()) => Ok(Abs::entry(first.copy()?)),
        _ => Err(OpRefusal::Break),
    }
}

// A form that is rounded to an open number of places.
fn rounding(first: &Form) -> Result<Abs, OpRefusal>
    ensures answer { (second : _) → Answers (round_row first.now second) result }
    ensures in_place { IfErr result IsNoWant }
{
    match constant_of(first) {
        Some(_) => Err(OpRefusal::Undecided(1)),
        None => Err(OpRefusal::Break),
    }
}
