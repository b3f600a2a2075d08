// MMULT and TRANSPOSE.
ghost use Rattle.std.specs.Prelude.{◌≡◌, ◌++◌, IfOk, MatchResult, OnOk, Err, Ok, Some, false, length};
ghost use Rattle.std.specs.List.{list_all};
ghost use Rattle.std.specs.Result.{result_map_both};
ghost use Rattle.calculations.specs.Calculation.{narrow};
ghost use Rattle.form_areas.specs.Matrices.{are_factors, behind_values, column_of, element_at, matrix_product, places_in};
ghost use Rattle.form_areas.specs.Truths.{IsTrueMatrixProduct};
ghost use Rattle.form_ops.specs.Operands.{form_in};
ghost use Rattle.form_ops.specs.Truths.{IsTrueCall};
ghost use Rattle.form_table.specs.Items.{is_number};
ghost use Rattle.form_table.specs.Products.{at, factor, mmult_form, product_at, transposed};
ghost use Rattle.form_table.specs.Table.{of_two, row_of};
ghost use Rattle.form_table.specs.Wanted.{grid_of};
ghost use Rattle.form_values.specs.Known.{all_known};
ghost use Rattle.form_values.specs.Trials.{Answers, each_tried};
ghost use Rattle.form_values.specs.declared.abs.AbsArg.TheVariants.{Area};
ghost use Rattle.formula_ast.specs.Functions.{Takes};
ghost use Rattle.formula_ast.specs.declared.func.Func.TheVariants as func;
ghost use Rattle.sheet_funcs.specs.Products.{places_of};

use crate::grids::{area, columns_of, place_of, rows_of, size_of};
use crate::products::{add_form, error_in_all, factor_at, times};
use affine_forms::Form;
use cell_refs::ErrorKind;
use form_ops::{Number, fault, is_number};
use form_values::{Abs, AbsArg, OpRefusal};
use frac128::Frac;
use memory::Memory;
use sheet_model::Value;
use std::alloc::Global;

/// MMULT: the product of two matrices of numbers. A product of two open factors breaks.
pub fn mmult(alloc: Global, args: &[AbsArg]) -> Result<AbsArg, OpRefusal>
    requires takes { Takes func.MMult (length args.now) }
    requires open_argument { list_all all_known args.now ≡ false }
    ensures answer { Answers (row_of func.MMult args.now) result }
    ensures right { IsTrueMatrixProduct args.now result }
{
    product_of(alloc, args)
}

// The product of two grids.
fn product_of(alloc: Global, args: &[AbsArg]) -> Result<AbsArg, OpRefusal>
    requires { length args.now ≡ 2 }
    ensures { Answers (of_two mmult_form args.now) result }
{
    let [left, right] = args else {
        unreachable!();
    };
    if let Some(kind) = error_in_all(args) {
        return Ok(AbsArg::One(fault(kind)));
    }
    if !are_factors(left, right) {
        return Ok(AbsArg::One(fault(ErrorKind::Value)));
    }
    product(alloc, left, right)
}

// Whether two grids have numbers alone and sizes that fit.
fn are_factors(left: &AbsArg, right: &AbsArg) -> bool
    ensures { result ≡ are_factors (grid_of left.now) (grid_of right.now) }
{
    are_numbers(left.elements())
        && are_numbers(right.elements())
        && columns_of(left) == rows_of(right)
}

// Whether all elements are numbers.
fn are_numbers(items: &[Abs]) -> bool
    ensures { result ≡ list_all is_number items.now }
{
    items.iter().all(|item| is_number(item))
}

// The matrix product.
fn product(alloc: Global, left: &AbsArg, right: &AbsArg) -> Result<AbsArg, OpRefusal>
    ensures { Answers (matrix_product (grid_of left.now) (grid_of right.now)) result }
{
    let (rows, _) = size_of(left);
    let (_, columns) = size_of(right);
    let items = product_items(alloc, left, right)?;
    Ok(area(rows, columns, items))
}

// The elements of the matrix product, row by row.
fn product_items(alloc: Global, left: &AbsArg, right: &AbsArg) -> Result<Vec<Abs>, OpRefusal>
    ensures { Answers (each_tried (element_at (grid_of left.now) (grid_of right.now))
        (places_of (grid_of left.now).rows (grid_of right.now).columns))
        (result_map_both (λ items. items.items) (λ refusal. refusal) result) }
{
    let mut items = Vec::new(alloc);
    for row in 0..rows_of(left) {
        push_products(alloc, left, right, row, &mut items)?;
    }
    Ok(items)
}

// Adds a row of the matrix product.
fn push_products(
    alloc: Global,
    left: &AbsArg,
    right: &AbsArg,
    row: u32,
    items: &mut Vec<Abs>,
) -> Result<(), OpRefusal>
    ensures { MatchResult result (λ _. behind_values items.old.items
        (narrow (each_tried (element_at (grid_of left.now) (grid_of right.now))
        (places_in (grid_of right.now).columns row))) ≡ Some (Ok items.new.items))
        (λ refusal. Answers (each_tried (element_at (grid_of left.now) (grid_of right.now))
        (places_in (grid_of right.now).columns row)) (Err refusal)) }
{
    for column in 0..columns_of(right) {
        items.push(Abs::entry(product_at(alloc, left, right, row, column)?))?;
    }
    Ok(())
}

// The element of the matrix product at a row and a column.
fn product_at(
    alloc: Global,
    left: &AbsArg,
    right: &AbsArg,
    row: u32,
    column: u32,
) -> Result<Form, OpRefusal>
    ensures { Answers (product_at (grid_of left.now) (grid_of right.now) (row, column)) result }
{
    let mut total = Form::constant(alloc, Frac::zero());
    for inner in 0..columns_of(left) {
        let first = factor_of(left, row, inner);
        let second = factor_of(right, inner, column);
        let product = times(first.form(alloc).get(), second.form(alloc).get())?;
        add_form(&mut total, &product)?;
    }
    Ok(total)
}

// The element at a row and a column as a factor.
fn factor_of(arg: &AbsArg, row: u32, column: u32) -> Number<'_>
    ensures { form_in result ≡ factor (at (grid_of arg.now) row column) }
{
    factor_at(arg.elements(), place_of(arg, row, column))
}

/// TRANSPOSE: the elements with rows and columns exchanged.
pub fn transpose(alloc: Global, args: &[AbsArg]) -> Result<AbsArg, OpRefusal>
    requires takes { Takes func.Transpose (length args.now) }
    requires open_argument { list_all all_known args.now ≡ false }
    ensures answer { Answers (row_of func.Transpose args.now) result }
    ensures right { IsTrueCall func.Transpose args.now result }
{
    let [arg] = args else {
        unreachable!();
    };
    Ok(transpose_elements(alloc, arg)?)
}

/// The elements of any argument with rows and columns exchanged.
pub fn transpose_elements(alloc: Global, arg: &AbsArg) -> Result<AbsArg, Memory>
    ensures { IfOk result (λ across. across ≡ Area (transposed (grid_of arg.now))) }
{
    let (rows, columns) = size_of(arg);
    let items = transposed_items(alloc, arg)?;
    Ok(area(columns, rows, items))
}

// The elements column by column.
fn transposed_items(alloc: Global, arg: &AbsArg) -> Result<Vec<Abs>, Memory>
    ensures { IfOk result (λ items. items.items ≡ (transposed (grid_of arg.now)).items) }
{
    let mut items = Vec::new(alloc);
    for column in 0..columns_of(arg) {
        push_column(alloc, arg, column, &mut items)?;
    }
    Ok(items)
}

// Adds the elements of a column.
fn push_column(alloc: Global, arg: &AbsArg, column: u32, items: &mut Vec<Abs>) -> Result<(), Memory>
    ensures { OnOk result (items.new.items
        ≡ items.old.items ++ column_of (grid_of arg.now) column) }
{
    for row in 0..rows_of(arg) {
        items.push(copy_at(alloc, arg, row, column)?)?;
    }
    Ok(())
}

// An equal element to that at a row and a column.
fn copy_at(alloc: Global, arg: &AbsArg, row: u32, column: u32) -> Result<Abs, Memory>
    ensures { IfOk result (λ value. value ≡ at (grid_of arg.now) row column) }
{
    match arg.elements().get(place_of(arg, row, column)) {
        Some(value) => value.copy(alloc),
        None => Ok(Abs::Known(Value::Empty)),
    }
}
