// SUMPRODUCT.
ghost use Rattle.std.specs.Prelude.{◌≡◌, ◌≤◌, ◌^◌, false, flat_map, length, map, slice_index_or};
ghost use Rattle.std.specs.List.{list_all};
ghost use Rattle.std.specs.Result.{result_map_both};
ghost use Rattle.affine_forms.specs.Steps.{added};
ghost use Rattle.form_areas.specs.Truths.{IsTrueProductSum};
ghost use Rattle.form_ops.specs.Operands.{form_in};
ghost use Rattle.form_ops.specs.Refusals.{form_refusal};
ghost use Rattle.form_table.specs.Operators.{times};
ghost use Rattle.form_table.specs.Products.{dot, error_among, factor, factors_at, is_of_size, product_of, sumproduct_form};
ghost use Rattle.form_table.specs.Table.{row_of};
ghost use Rattle.form_table.specs.Wanted.{grid_of};
ghost use Rattle.form_values.specs.Grids.{Raster};
ghost use Rattle.form_values.specs.Known.{all_known};
ghost use Rattle.form_values.specs.Trials.{Answers, made, through_tried};
ghost use Rattle.form_values.specs.declared.abs.Abs.TheVariants.{Known};
ghost use Rattle.formula_ast.specs.Functions.{Takes};
ghost use Rattle.formula_ast.specs.declared.func.Func.TheVariants as func;
ghost use Rattle.sheet_funcs.specs.Arguments.{below};
ghost use Rattle.sheet_model.specs.declared.value.Value.TheVariants.{Empty};

use crate::grids::is_of_size;
use crate::items::error_among;
use affine_forms::{Form, FormStop};
use cell_refs::ErrorKind;
use form_ops::{Number, constant_of, fault, form_refusal};
use form_values::{Abs, AbsArg, OpRefusal};
use frac128::Frac;
use sheet_model::Value;
use std::alloc::Global;

/// SUMPRODUCT: the sum of the products of the elements in each place of grids of one size. A product of two open factors breaks.
pub fn sumproduct(alloc: Global, args: &[AbsArg]) -> Result<AbsArg, OpRefusal>
    requires takes { Takes func.SumProduct (length args.now) }
    requires open_argument { list_all all_known args.now ≡ false }
    ensures answer { Answers (row_of func.SumProduct args.now) result }
    ensures right { IsTrueProductSum args.now result }
{
    product_sum(alloc, args)
}

// The sum of the products of at least one grid.
fn product_sum(alloc: Global, args: &[AbsArg]) -> Result<AbsArg, OpRefusal>
    requires { 1 ≤ length args.now }
    ensures { Answers (sumproduct_form args.now) result }
{
    let [first, others @ ..] = args else {
        unreachable!();
    };
    if let Some(kind) = error_in_all(args) {
        return Ok(AbsArg::One(fault(kind)));
    }
    if !are_of_size(first, others) {
        return Ok(AbsArg::One(fault(ErrorKind::Value)));
    }
    match dot(alloc, args, first.elements().len()) {
        Ok(total) => Ok(AbsArg::One(Abs::entry(total))),
        Err(refusal) => Err(refusal),
    }
}

/// The first error among the elements of all arguments.
pub(crate) fn error_in_all(args: &[AbsArg]) -> Option<ErrorKind>
    ensures { result ≡ error_among (flat_map (λ (h : Raster). h.items) (map grid_of args.now)) }
{
    for arg in args {
        if let Some(kind) = error_among(arg.elements()) {
            return Some(kind);
        }
    }
    None
}

// Whether all others are of the size of the first.
fn are_of_size(first: &AbsArg, others: &[AbsArg]) -> bool
    ensures { result ≡ list_all (is_of_size (grid_of first.now)) (map grid_of others.now) }
{
    others.iter().all(|other| is_of_size(first, other))
}

// The sum of the products in so many places, each added when it is made.
fn dot(alloc: Global, args: &[AbsArg], count: usize) -> Result<Form, OpRefusal>
    ensures { Answers (dot (map (factors_at (map grid_of args.now)) (below count))) result }
{
    let mut total = Form::constant(alloc, Frac::zero());
    for place in 0..count {
        let product = product_in(alloc, args, place)?;
        add_form(&mut total, &product)?;
    }
    Ok(total)
}

/// Adds a form in place.
pub(crate) fn add_form(total: &mut Form, form: &Form) -> Result<(), OpRefusal>
    ensures { Answers (made (λ f. f) (added total.old form.now))
        (result_map_both (λ _. total.new) (λ refusal. refusal) result) }
{
    match total.add_to(form) {
        Ok(()) => Ok(()),
        Err(stop) => Err(form_refusal(stop)),
    }
}

// The product of the factors in one place, from the left.
fn product_in(alloc: Global, args: &[AbsArg], place: usize) -> Result<Form, OpRefusal>
    ensures { Answers (product_of (factors_at (map grid_of args.now) place)) result }
{
    let [first, others @ ..] = args else {
        return Ok(Form::constant(alloc, Frac::one()));
    };
    let factor = factor_at(first.elements(), place);
    let product = factor.form(alloc).get().copy()?;
    product_from(alloc, product, others, place)
}

// The product of a form and the factors in one place.
fn product_from(
    alloc: Global,
    first: Form,
    others: &[AbsArg],
    place: usize,
) -> Result<Form, OpRefusal>
    ensures { Answers
        (through_tried times first (factors_at (map grid_of others.now) place)) result }
{
    let mut product = first;
    for other in others {
        let factor = factor_at(other.elements(), place);
        product = times(&product, factor.form(alloc).get())?;
    }
    Ok(product)
}

/// The product of two forms: one that is known scales the other.
pub(crate) fn times(first: &Form, second: &Form) -> Result<Form, OpRefusal>
    ensures { Answers (times first.now second.now) result }
{
    match (constant_of(first), constant_of(second)) {
        (Some(number), _) => as_form(second.scale(number)),
        (None, Some(number)) => as_form(first.scale(number)),
        (None, None) => Err(OpRefusal::Break),
    }
}

// A calculated form.
fn as_form(answer: Result<Form, FormStop>) -> Result<Form, OpRefusal>
    ensures { result ≡ result_map_both (λ form. form) form_refusal answer }
{
    match answer {
        Ok(form) => Ok(form),
        Err(stop) => Err(form_refusal(stop)),
    }
}

/// The element in a place as a factor: what is no number counts as 0.
pub(crate) fn factor_at(items: &[Abs], place: usize) -> Number<'_>
    ensures { form_in result ≡ factor (slice_index_or items.now place (Known Empty)) }
{
    match items.get(place) {
        Some(Abs::Known(Value::Number(number))) => Number::Known(*number),
        Some(Abs::Affine(open)) => Number::Open(&open.form),
        _ => Number::Known(Frac::zero()),
    }
}
