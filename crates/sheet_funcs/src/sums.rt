// Sums, and what else is made of the numbers of some arguments.
ghost use Rattle.std.specs.Prelude.{◌≡◌, IfOk, IsOk, IsOkUnless, List, Result, Some, filter, flat_map, is_some, length, pos};
ghost use Rattle.calculations.specs.Calculation.{exact, narrow};
ghost use Rattle.formula_ast.specs.Functions.{Takes};
ghost use Rattle.formula_ast.specs.declared.func.Func.TheVariants as func;
ghost use Rattle.fractions.specs.Rational.{zero_ℚ, ℚ};
ghost use Rattle.frac128.specs.Narrow.{IsNarrowWhole};
ghost use Rattle.sheet_funcs.specs.Items.{items_in, number_at};
ghost use Rattle.sheet_funcs.specs.Arguments.{counted, on_ok};
ghost use Rattle.sheet_funcs.specs.Tallies.{tally_or_error};
ghost use Rattle.sheet_funcs.specs.declared.tally.Tally.TheVariants.{Total};
ghost use Rattle.cell_refs.specs.declared.error_kind.ErrorKind.{ErrorKind};
ghost use Rattle.sheet_funcs.specs.Sums.{average_of, count_of, is_number, max_of, mean, min_of, sum_of, total};
ghost use Rattle.sheet_model.specs.Answers.{Answers};
ghost use Rattle.sheet_model.specs.declared.stop.FuncStop.TheVariants as stops;

use crate::answers::{fault, number, number_answer, whole};
use crate::items::elements_of;
use crate::steps::divide;
use crate::tally::Tally;
use cell_refs::ErrorKind;
use frac128::Frac;
use sheet_model::{Arg, FuncStop, Value};

/// SUM: the sum of the numbers of all arguments.
pub fn sum(args: &[Arg]) -> Result<Arg, FuncStop>
    requires { Takes func.Sum (length args.now) }
    ensures exact { IfOk result (λ answer. answer ≡ exact (sum_of args.now)) }
    ensures narrow { Answers (sum_of args.now) result }
    ensures stop { IsOkUnless result stops.Wide }
{
    sum_answer(Tally::Total.of_args(Some(Frac::zero()), args))
}

/// AVERAGE: the sum divided by how many numbers there are.
pub fn average(args: &[Arg]) -> Result<Arg, FuncStop>
    requires { Takes func.Average (length args.now) }
    ensures exact { IfOk result (λ answer. answer ≡ exact (average_of args.now)) }
    ensures narrow { Answers (average_of args.now) result }
    ensures stop { IsOkUnless result stops.Wide }
{
    match Tally::Total.of_args(Some(Frac::zero()), args) {
        Ok(Some(sum)) => mean(sum, count_items(args)),
        Ok(None) => Err(FuncStop::Wide),
        Err(kind) => Ok(fault(kind)),
    }
}

/// COUNT: how many numbers there are; errors and what is no number are left out.
pub fn count(args: &[Arg]) -> Result<Arg, FuncStop>
    requires { Takes func.Count (length args.now) }
    ensures exact { IfOk result (λ answer. answer ≡ exact (count_of args.now)) }
    ensures narrow { Answers (count_of args.now) result }
    ensures answer { IsOk result }
{
    let mut count = 0;
    for arg in args {
        count += count_numbers(elements_of(arg)) as i128;
    }
    Ok(number(whole(count)))
}

/// MIN: the least number of all arguments, 0 where there is none.
pub fn min(args: &[Arg]) -> Result<Arg, FuncStop>
    requires { Takes func.Min (length args.now) }
    ensures exact { IfOk result (λ answer. answer ≡ exact (min_of args.now)) }
    ensures narrow { Answers (min_of args.now) result }
    ensures answer { IsOk result }
{
    match Tally::Least.of_args(None, args) {
        Ok(Some(least)) => Ok(number(least)),
        Ok(None) => Ok(number(Frac::zero())),
        Err(kind) => Ok(fault(kind)),
    }
}

/// MAX: the greatest number of all arguments, 0 where there is none.
pub fn max(args: &[Arg]) -> Result<Arg, FuncStop>
    requires { Takes func.Max (length args.now) }
    ensures exact { IfOk result (λ answer. answer ≡ exact (max_of args.now)) }
    ensures narrow { Answers (max_of args.now) result }
    ensures answer { IsOk result }
{
    match Tally::Greatest.of_args(None, args) {
        Ok(Some(greatest)) => Ok(number(greatest)),
        Ok(None) => Ok(number(Frac::zero())),
        Err(kind) => Ok(fault(kind)),
    }
}

// A sum divided by how many numbers there are.
fn mean(sum: Frac, count: i128) -> Result<Arg, FuncStop>
    requires { IsNarrowWhole count }
    ensures answer { (xs : List ℚ) → narrow (total xs) ≡ Some sum
        → count ≡ pos (length xs) → Answers (mean xs) result }
    ensures stop { IsOkUnless result stops.Wide }
{
    if count == 0 {
        return Ok(fault(ErrorKind::Div0));
    }
    number_answer(divide(sum, whole(count)))
}

// How many items some arguments have, errors too.
fn count_items(args: &[Arg]) -> i128
    ensures count { result ≡ pos (length (flat_map items_in args.now)) }
    ensures narrow { IsNarrowWhole result }
{
    let mut count = 0;
    for arg in args {
        count += count_items_in(arg) as i128;
    }
    count
}

// How many items an argument has.
fn count_items_in(arg: &Arg) -> usize
    ensures { result ≡ length (items_in arg.now) }
{
    match arg {
        Arg::One(_) => 1,
        Arg::Area(grid) => count_items_among(grid.items()),
    }
}

// How many items are among some elements.
fn count_items_among(items: &[Value]) -> usize
    ensures { result ≡ length (filter (λ v. is_some (number_at v)) items.now) }
{
    items.iter().filter(|item| is_item(item)).count()
}

// Whether a value is a number or an error.
fn is_item(value: &Value) -> bool
    ensures { result ≡ is_some (number_at value.now) }
{
    matches!(value, Value::Number(_) | Value::Error(_))
}

/// A sum as a result: the sum, what stops it where it isn't narrow, or the error that it met.
pub(crate) fn sum_answer(sum: Result<Option<Frac>, ErrorKind>) -> Result<Arg, FuncStop>
    ensures answer { (numbers : Result (List ℚ) ErrorKind) → sum
        ≡ tally_or_error Total (Some zero_ℚ) numbers
        → Answers (on_ok numbers (λ xs. counted (total xs))) result }
    ensures stop { IsOkUnless result stops.Wide }
{
    match sum {
        Ok(Some(sum)) => Ok(number(sum)),
        Ok(None) => Err(FuncStop::Wide),
        Err(kind) => Ok(fault(kind)),
    }
}

// How many numbers are among some elements.
fn count_numbers(items: &[Value]) -> usize
    ensures { result ≡ length (filter is_number items.now) }
{
    items.iter().filter(|item| is_number(item)).count()
}

// Whether a value is a number.
pub(crate) fn is_number(value: &Value) -> bool
    ensures { result ≡ is_number value.now }
{
    matches!(value, Value::Number(_))
}
