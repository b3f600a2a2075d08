// Products of grids, and their rows and columns exchanged.
ghost use Rattle.std.specs.Prelude.{◌≡◌, ◌<◌, ◌∷◌, ◌++◌, ◌*◌, ◌+◌, IfOk, IsOkUnless, MatchResult, OnOk, Err, Some, length, map, slice_index_or};
ghost use Rattle.std.specs.List.{list_all};
ghost use Rattle.std.specs.Result.{result_map_both};
ghost use Rattle.calculations.specs.Calculation.{exact, for_each, narrow};
ghost use Rattle.formula_ast.specs.Functions.{Takes};
ghost use Rattle.formula_ast.specs.declared.func.Func.TheVariants as func;
ghost use Rattle.sheet_funcs.specs.Arguments.{at, below, column_of, first_error, grid_of, of_one, of_two};
ghost use Rattle.sheet_funcs.specs.Matrices.{are_factors, behind_items, grid_product, places_in, value_at};
ghost use Rattle.sheet_funcs.specs.Products.{all_elements, dot, factor, factors_at, is_of_size, mmult_of, places_of, product_at, product_of, sumproduct_of, transpose_of, transposed};
ghost use Rattle.sheet_funcs.specs.Sums.{is_number};
ghost use Rattle.sheet_model.specs.Answers.{Answers};
ghost use Rattle.sheet_model.specs.declared.stop.FuncStop.TheVariants as stops;
ghost use Rattle.sheet_model.specs.declared.value.Value.TheVariants.{Empty};

use crate::answers::{area, fault, number_answer};
use crate::items::{columns_of, elements_of, first_error, rows_of};
use crate::steps::{add, multiply};
use crate::sums::is_number;
use cell_refs::ErrorKind;
use frac128::Frac;
use sheet_model::{Arg, FuncStop, Memory, Value};
use std::alloc::Global;

/// SUMPRODUCT: the sum of the products of the elements in each place of grids of one size.
pub fn sumproduct(args: &[Arg]) -> Result<Arg, FuncStop>
    requires { Takes func.SumProduct (length args.now) }
    ensures exact { IfOk result (λ answer. answer ≡ exact (sumproduct_of args.now)) }
    ensures narrow { Answers (sumproduct_of args.now) result }
    ensures stop { IsOkUnless result stops.Wide }
{
    let [first, others @ ..] = args else {
        unreachable!();
    };
    if let Some(kind) = first_error_in(args) {
        return Ok(fault(kind));
    }
    if !are_of_size(first, others) {
        return Ok(fault(ErrorKind::Value));
    }
    number_answer(dot(args, elements_of(first).len()))
}

/// MMULT: the product of two matrices of numbers.
pub fn mmult(alloc: Global, args: &[Arg]) -> Result<Arg, FuncStop>
    requires { Takes func.MMult (length args.now) }
    ensures exact { IfOk result (λ answer. answer ≡ exact (of_two mmult_of args.now)) }
    ensures narrow { Answers (of_two mmult_of args.now) result }
{
    let [left, right] = args else {
        unreachable!();
    };
    if let Some(kind) = first_error_in(args) {
        return Ok(fault(kind));
    }
    if !are_factors(left, right) {
        return Ok(fault(ErrorKind::Value));
    }
    product(alloc, left, right)
}

/// TRANSPOSE: a grid with its rows and columns exchanged.
pub fn transpose(alloc: Global, args: &[Arg]) -> Result<Arg, FuncStop>
    requires { Takes func.Transpose (length args.now) }
    ensures exact { IfOk result (λ answer. answer ≡ exact (of_one transpose_of args.now)) }
    ensures narrow { Answers (of_one transpose_of args.now) result }
{
    let [arg] = args else {
        unreachable!();
    };
    let (rows, columns) = size_of(arg);
    let items = transposed_items(alloc, arg)?;
    Ok(area(columns, rows, items))
}

// The first error among the elements of all arguments.
fn first_error_in(args: &[Arg]) -> Option<ErrorKind>
    ensures { result ≡ first_error (all_elements (map grid_of args.now)) }
{
    for arg in args {
        if let Some(kind) = first_error(elements_of(arg)) {
            return Some(kind);
        }
    }
    None
}

// Whether all others are of the size of the first.
fn are_of_size(first: &Arg, others: &[Arg]) -> bool
    ensures { result ≡ list_all (is_of_size (grid_of first.now)) (map grid_of others.now) }
{
    others.iter().all(|other| is_of_size(first, other))
}

// Whether two grids are of one size.
fn is_of_size(first: &Arg, other: &Arg) -> bool
    ensures { result ≡ is_of_size (grid_of first.now) (grid_of other.now) }
{
    rows_of(first) == rows_of(other) && columns_of(first) == columns_of(other)
}

// The sum of the products in so many places.
fn dot(args: &[Arg], count: usize) -> Result<Frac, FuncStop>
    ensures answer { Answers (dot (map (factors_at (map grid_of args.now)) (below count))) result }
    ensures stop { IsOkUnless result stops.Wide }
{
    let mut total = Frac::zero();
    for place in 0..count {
        total = add(total, product_in(args, place)?)?;
    }
    Ok(total)
}

// The product of the factors in one place.
fn product_in(args: &[Arg], place: usize) -> Result<Frac, FuncStop>
    ensures answer { Answers (product_of (factors_at (map grid_of args.now) place)) result }
    ensures stop { IsOkUnless result stops.Wide }
{
    let [first, others @ ..] = args else {
        return Ok(Frac::one());
    };
    product_from(factor_at(elements_of(first), place), others, place)
}

// The product of a number and the factors in one place.
fn product_from(first: Frac, others: &[Arg], place: usize) -> Result<Frac, FuncStop>
    ensures answer { Answers
        (product_of (first ∷ factors_at (map grid_of others.now) place)) result }
    ensures stop { IsOkUnless result stops.Wide }
{
    let mut product = first;
    for other in others {
        product = multiply(product, factor_at(elements_of(other), place))?;
    }
    Ok(product)
}

// The element in a place as a factor.
fn factor_at(items: &[Value], place: usize) -> Frac
    ensures { result ≡ factor (slice_index_or items.now place Empty) }
{
    match items.get(place) {
        Some(Value::Number(number)) => *number,
        _ => Frac::zero(),
    }
}

// Whether two grids have numbers alone and sizes that fit.
fn are_factors(left: &Arg, right: &Arg) -> bool
    ensures { result ≡ are_factors (grid_of left.now) (grid_of right.now) }
{
    are_numbers(elements_of(left))
        && are_numbers(elements_of(right))
        && columns_of(left) == rows_of(right)
}

// Whether all elements are numbers.
fn are_numbers(items: &[Value]) -> bool
    ensures { result ≡ list_all is_number items.now }
{
    items.iter().all(is_number)
}

// The matrix product.
fn product(alloc: Global, left: &Arg, right: &Arg) -> Result<Arg, FuncStop>
    ensures { Answers (grid_product (grid_of left.now) (grid_of right.now)) result }
{
    let (rows, _) = size_of(left);
    let (_, columns) = size_of(right);
    let items = product_items(alloc, left, right)?;
    Ok(area(rows, columns, items))
}

// How many rows and columns an argument has, at least one of each.
fn size_of(arg: &Arg) -> (u32, u32)
    ensures rows { result.0 ≡ (grid_of arg.now).rows }
    ensures columns { result.1 ≡ (grid_of arg.now).columns }
    ensures some_rows { 0 < result.0 }
    ensures some_columns { 0 < result.1 }
{
    match arg {
        Arg::One(_) => (1, 1),
        Arg::Area(grid) => (grid.rows(), grid.cols()),
    }
}

// The elements of the matrix product, row by row.
fn product_items(alloc: Global, left: &Arg, right: &Arg) -> Result<Vec<Value>, FuncStop>
    ensures { Answers (for_each (value_at (grid_of left.now) (grid_of right.now))
        (places_of (grid_of left.now).rows (grid_of right.now).columns))
        (result_map_both (λ items. items.items) (λ stop. stop) result) }
{
    let mut items = Vec::new(alloc);
    for row in 0..rows_of(left) {
        push_products(left, right, row, &mut items)?;
    }
    Ok(items)
}

// Adds a row of the matrix product.
fn push_products(left: &Arg, right: &Arg, row: u32, items: &mut Vec<Value>) -> Result<(), FuncStop>
    ensures { MatchResult result (λ _. behind_items items.old.items
        (narrow (for_each (value_at (grid_of left.now) (grid_of right.now))
        (places_in (grid_of right.now).columns row))) ≡ Some items.new.items)
        (λ stop. Answers (for_each (value_at (grid_of left.now) (grid_of right.now))
        (places_in (grid_of right.now).columns row)) (Err stop)) }
{
    for column in 0..columns_of(right) {
        items.push(Value::Number(product_at(left, right, row, column)?))?;
    }
    Ok(())
}

// The element of the matrix product at a row and a column.
fn product_at(left: &Arg, right: &Arg, row: u32, column: u32) -> Result<Frac, FuncStop>
    ensures { Answers (product_at (grid_of left.now) (grid_of right.now) (row, column)) result }
{
    let mut total = Frac::zero();
    for inner in 0..columns_of(left) {
        let factor = factor_of(left, row, inner);
        total = add(total, multiply(factor, factor_of(right, inner, column))?)?;
    }
    Ok(total)
}

// The element at a row and a column as a factor.
fn factor_of(arg: &Arg, row: u32, column: u32) -> Frac
    ensures { result ≡ factor (at (grid_of arg.now) row column) }
{
    factor_at(elements_of(arg), place(arg, row, column))
}

// The place of a row and a column among the elements.
fn place(arg: &Arg, row: u32, column: u32) -> usize
    ensures { result ≡ row * (grid_of arg.now).columns + column }
{
    row as usize * columns_of(arg) as usize + column as usize
}

// The elements column by column.
fn transposed_items(alloc: Global, arg: &Arg) -> Result<Vec<Value>, Memory>
    ensures { IfOk result (λ items. items.items ≡ (transposed (grid_of arg.now)).items) }
{
    let mut items = Vec::new(alloc);
    for column in 0..columns_of(arg) {
        push_column(alloc, arg, column, &mut items)?;
    }
    Ok(items)
}

// Adds the elements of a column.
fn push_column(alloc: Global, arg: &Arg, column: u32, items: &mut Vec<Value>) -> Result<(), Memory>
    ensures { OnOk result (items.new.items
        ≡ items.old.items ++ column_of (grid_of arg.now) column) }
{
    for row in 0..rows_of(arg) {
        items.push(copy_at(alloc, arg, row, column)?)?;
    }
    Ok(())
}

// An equal element to that at a row and a column.
fn copy_at(alloc: Global, arg: &Arg, row: u32, column: u32) -> Result<Value, Memory>
    ensures { IfOk result (λ value. value ≡ at (grid_of arg.now) row column) }
{
    match elements_of(arg).get(place(arg, row, column)) {
        Some(value) => value.copy(alloc),
        None => Ok(Value::Empty),
    }
}
