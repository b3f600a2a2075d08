// Numbers where numbers are wanted.
ghost use Rattle.std.specs.Prelude.{◌≡◌, option_map};
ghost use Rattle.form_ops.specs.Operands.{form_in, wanted_in};
ghost use Rattle.form_table.specs.Operators.{comparable};
ghost use Rattle.form_table.specs.Wanted.{constant_of, known_number, wanted};

use affine_forms::Form;
use cell_refs::ErrorKind;
use form_values::Abs;
use frac128::Frac;
use sheet_model::{Value, to_number};
use std::alloc::Global;

/// A number: one that is known, or an open form.
#[derive(Drop)]
pub enum Number<'a> {
    Known(Frac),
    Open(&'a Form),
}

impl<'a> Number<'a> {
    ghost use Rattle.std.specs.Prelude.{◌≡◌};
    ghost use Rattle.form_ops.specs.Operands.{form_held, form_in};

    /// The number as a form.
    pub fn form(&self, alloc: Global) -> Held<'a>
        ensures { form_held result ≡ form_in self.now }
    {
        match self {
            Number::Known(number) => Held::Made(Form::constant(alloc, *number)),
            Number::Open(form) => Held::Lent(*form),
        }
    }
}

/// A form that was made, or one that is lent.
#[derive(Drop)]
pub enum Held<'a> {
    Made(Form),
    Lent(&'a Form),
}

impl Held<'_> {
    ghost use Rattle.std.specs.Prelude.{◌≡◌};
    ghost use Rattle.form_ops.specs.Operands.{form_held};

    /// The form.
    pub fn get(&self) -> &Form
        ensures { result.now ≡ form_held self.now }
    {
        match self {
            Held::Made(form) => form,
            Held::Lent(form) => form,
        }
    }
}

/// What stands where a number is wanted: a known number, an open form, an open logical, or an error.
#[derive(Drop)]
pub enum Operand<'a> {
    Known(Frac),
    Open(&'a Form),
    Test,
    Fault(ErrorKind),
}

/// What a value is where a number is wanted.
pub fn operand_of(value: &Abs) -> Operand<'_>
    ensures { wanted_in result ≡ wanted value.now }
{
    match value {
        Abs::Known(known) => match to_number(known) {
            Ok(number) => Operand::Known(number),
            Err(kind) => Operand::Fault(kind),
        },
        Abs::Affine(open) => Operand::Open(&open.form),
        Abs::Test(_, _) => Operand::Test,
    }
}

/// What a value is where it is compared as a number.
pub(crate) fn comparable(value: &Abs) -> Option<Number<'_>>
    ensures { option_map form_in result ≡ comparable value.now }
{
    match value {
        Abs::Known(Value::Number(number)) => Some(Number::Known(*number)),
        Abs::Known(Value::Empty) => Some(Number::Known(Frac::zero())),
        Abs::Affine(open) => Some(Number::Open(&open.form)),
        Abs::Known(_) | Abs::Test(_, _) => None,
    }
}

/// The number that a form without terms is.
pub fn constant_of(form: &Form) -> Option<Frac>
    ensures { result ≡ constant_of form.now }
{
    match form.terms() {
        [] => Some(form.base()),
        _ => None,
    }
}

/// The number that is known there.
pub fn known_number(operand: &Operand) -> Option<Frac>
    ensures { result ≡ known_number (wanted_in operand.now) }
{
    match operand {
        Operand::Known(number) => Some(*number),
        Operand::Open(form) => constant_of(form),
        Operand::Test | Operand::Fault(_) => None,
    }
}
