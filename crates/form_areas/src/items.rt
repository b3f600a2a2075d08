// The numbers of some arguments, and what stands in the way of a sum.
ghost use Rattle.std.specs.Prelude.{◌≡◌, ◌∷◌, [], flat_map, length, option_to_list};
ghost use Rattle.std.specs.List.{filter_map};
ghost use Rattle.std.specs.Result.{result_map_both};
ghost use Rattle.affine_forms.specs.Answers.{Answers};
ghost use Rattle.affine_forms.specs.Steps.{added, total};
ghost use Rattle.calculations.specs.Calculation.{through};
ghost use Rattle.form_ops.specs.Operands.{wanted_in};
ghost use Rattle.form_table.specs.Items.{first_error, first_open, form_in, forms_of, has_open, item_at, items_in};
ghost use Rattle.form_table.specs.Products.{error_among};
ghost use Rattle.form_table.specs.Wanted.{wanted};
ghost use Rattle.form_values.specs.declared.abs.Abs.TheVariants.{Known};

use affine_forms::{Form, FormStop};
use cell_refs::ErrorKind;
use form_ops::{Operand, operand_of};
use form_values::{Abs, AbsArg};
use frac128::Frac;
use sheet_model::Value;
use std::alloc::Global;

/// The first error among the items of all arguments.
pub(crate) fn first_error(args: &[AbsArg]) -> Option<ErrorKind>
    ensures { result ≡ first_error (flat_map items_in args.now) }
{
    for arg in args {
        if let Some(kind) = error_in(arg) {
            return Some(kind);
        }
    }
    None
}

// The first error among the items of an argument.
fn error_in(arg: &AbsArg) -> Option<ErrorKind>
    ensures { result ≡ first_error (items_in arg.now) }
{
    match arg {
        AbsArg::One(value) => error_as_number(value),
        AbsArg::Area(grid) => error_among(grid.items()),
    }
}

// The error that stands where a number is wanted.
fn error_as_number(value: &Abs) -> Option<ErrorKind>
    ensures { result ≡ first_error (wanted value.now ∷ []) }
{
    match operand_of(value) {
        Operand::Fault(kind) => Some(kind),
        Operand::Known(_) | Operand::Open(_) | Operand::Test => None,
    }
}

/// The first error among some elements.
pub(crate) fn error_among(items: &[Abs]) -> Option<ErrorKind>
    ensures { result ≡ error_among items.now }
{
    for item in items {
        if let Abs::Known(Value::Error(kind)) = item {
            return Some(*kind);
        }
    }
    None
}

/// The first argument that is an open logical by itself, where a number is wanted.
pub(crate) fn first_open(args: &[AbsArg]) -> Option<usize>
    ensures { result ≡ first_open 0 args.now }
{
    for (index, arg) in args.iter().enumerate() {
        if is_open(arg) {
            return Some(index);
        }
    }
    None
}

// Whether an argument is an open logical by itself.
fn is_open(arg: &AbsArg) -> bool
    ensures { result ≡ has_open (items_in arg.now) }
{
    matches!(arg, AbsArg::One(Abs::Test(_, _)))
}

/// The sum of the numbers of all arguments, from 0 and one by one.
pub(crate) fn total(alloc: Global, args: &[AbsArg]) -> Result<Form, FormStop>
    ensures { Answers (total (forms_of args.now)) result }
{
    let mut total = Form::constant(alloc, Frac::zero());
    for arg in args {
        add_items(&mut total, alloc, arg)?;
    }
    Ok(total)
}

// Adds the numbers of an argument.
fn add_items(total: &mut Form, alloc: Global, arg: &AbsArg) -> Result<(), FormStop>
    ensures { Answers (through added total.old (filter_map form_in (items_in arg.now)))
        (result_map_both (λ _. total.new) (λ stop. stop) result) }
{
    match arg {
        AbsArg::One(value) => add_operand(total, alloc, &operand_of(value)),
        AbsArg::Area(grid) => add_elements(total, alloc, grid.items()),
    }
}

// Adds what stands where a number is wanted, if it is one.
fn add_operand(total: &mut Form, alloc: Global, operand: &Operand) -> Result<(), FormStop>
    ensures { Answers (through added total.old (option_to_list (form_in (wanted_in operand.now))))
        (result_map_both (λ _. total.new) (λ stop. stop) result) }
{
    match operand {
        Operand::Known(number) => total.add_to(&Form::constant(alloc, *number)),
        Operand::Open(form) => total.add_to(form),
        Operand::Test | Operand::Fault(_) => Ok(()),
    }
}

/// Adds the numbers among some elements.
pub(crate) fn add_elements(total: &mut Form, alloc: Global, items: &[Abs]) -> Result<(), FormStop>
    ensures { Answers (through added total.old (filter_map form_in (filter_map item_at items.now)))
        (result_map_both (λ _. total.new) (λ stop. stop) result) }
{
    for item in items {
        add_element(total, alloc, item)?;
    }
    Ok(())
}

// Adds an element, if it is a number.
fn add_element(total: &mut Form, alloc: Global, item: &Abs) -> Result<(), FormStop>
    ensures { Answers
        (through added total.old (filter_map form_in (option_to_list (item_at item.now))))
        (result_map_both (λ _. total.new) (λ stop. stop) result) }
{
    match item {
        Abs::Known(value) => add_known(total, alloc, value),
        Abs::Affine(open) => total.add_to(&open.form),
        Abs::Test(_, _) => Ok(()),
    }
}

// Adds a known element, if it is a number.
fn add_known(total: &mut Form, alloc: Global, value: &Value) -> Result<(), FormStop>
    ensures { Answers
        (through added total.old (filter_map form_in (option_to_list (item_at (Known value.now)))))
        (result_map_both (λ _. total.new) (λ stop. stop) result) }
{
    match value {
        Value::Number(number) => total.add_to(&Form::constant(alloc, *number)),
        Value::Text(_) | Value::Logical(_) | Value::Empty | Value::Error(_) => Ok(()),
    }
}
