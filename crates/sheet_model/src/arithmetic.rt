// The operators on single values.
ghost use Rattle.std.specs.Prelude.{◌≡◌, ◌&&◌, IfSome, IsOkUnless, true, false, pos, negsuc, ◌≤ℤ◌, MatchOption};
ghost use Rattle.std.specs.Result.{result_map_both};
ghost use Rattle.fractions.specs.Rational.{neg_ℚ, numerator, ℚ};
ghost use Rattle.calculations.specs.Calculation.{Calculation, done, product, sum};
ghost use Rattle.sheet_model.specs.Answers.{Answers};
ghost use Rattle.sheet_model.specs.Conversions.{number_in, text_in};
ghost use Rattle.sheet_model.specs.Operators.{calculated, compared, divided, infix_value, joined_texts, minus_value, on_numbers, percent_value, raised};
ghost use Rattle.sheet_model.specs.Tests.{is_exponent, is_negative, is_zero};
ghost use Rattle.sheet_model.specs.declared.stop.FuncStop.TheVariants as stops;
ghost use Rattle.sheet_model.specs.declared.value.Value.{Value};
ghost use Rattle.sheet_model.specs.declared.value.Value.TheVariants.{Number};

use crate::convert::{to_number, to_text};
use crate::order::{asks_for, compare};
use crate::stop::FuncStop;
use crate::value::{Text, Value};
use cell_refs::{ErrorKind, Op};
use frac128::{Frac, Wide};
use std::alloc::Global;

/// An infix operator on two values.
pub(crate) fn infix_value(alloc: Global, op: Op, a: &Value, b: &Value) -> Result<Value, FuncStop>
    ensures { Answers (infix_value op a.now b.now) result }
{
    match op {
        Op::Add => on_numbers(a, b, sum),
        Op::Sub => on_numbers(a, b, difference),
        Op::Mul => on_numbers(a, b, product),
        Op::Div => on_numbers(a, b, quotient),
        Op::Pow => on_numbers(a, b, power_of),
        Op::Cat => concatenation(alloc, a, b),
        Op::Eq | Op::Ne | Op::Lt | Op::Le | Op::Gt | Op::Ge => Ok(comparison(op, a, b)),
    }
}

/// The value with its sign turned.
pub(crate) fn minus_value(value: &Value) -> Result<Value, FuncStop>
    ensures { Answers (minus_value value.now) result }
{
    match to_number(value) {
        Ok(number) => Ok(Value::Number(number.neg())),
        Err(kind) => Ok(Value::Error(kind)),
    }
}

/// The value divided by 100.
pub(crate) fn percent_value(value: &Value) -> Result<Value, FuncStop>
    ensures { Answers (percent_value value.now) result }
{
    match to_number(value) {
        Ok(x) => number(x.div(Frac::from_whole(100))),
        Err(kind) => Ok(Value::Error(kind)),
    }
}

// What is done to two numbers, done to two values; the first that is no number is the result.
fn on_numbers<F: Fn(Frac, Frac) -> Result<Value, FuncStop>>(
    a: &Value,
    b: &Value,
    work: F,
) -> Result<Value, FuncStop>
    requires { F.IsAlwaysCallable work }
    ensures { (f : ℚ → ℚ → Calculation Value)
        → ((x y : ℚ) (r : _) → F.post work x y r → Answers (f x y) r)
        → Answers (on_numbers f (number_in a.now) (number_in b.now)) result }
{
    match (to_number(a), to_number(b)) {
        (Ok(x), Ok(y)) => work(x, y),
        (Err(kind), _) | (Ok(_), Err(kind)) => Ok(Value::Error(kind)),
    }
}

// The value of an operation's result.
fn number(outcome: Result<Frac, Wide>) -> Result<Value, FuncStop>
    ensures { result ≡ result_map_both Number (λ _. stops.Wide) outcome }
{
    match outcome {
        Ok(number) => Ok(Value::Number(number)),
        Err(Wide) => Err(FuncStop::Wide),
    }
}

// The sum of two numbers.
fn sum(x: Frac, y: Frac) -> Result<Value, FuncStop>
    ensures { Answers (calculated (sum x y)) result }
{
    number(x.add(y))
}

// The difference of two numbers.
fn difference(x: Frac, y: Frac) -> Result<Value, FuncStop>
    ensures { Answers (calculated (sum x (neg_ℚ y))) result }
{
    number(x.sub(y))
}

// The product of two numbers.
fn product(x: Frac, y: Frac) -> Result<Value, FuncStop>
    ensures { Answers (calculated (product x y)) result }
{
    number(x.mul(y))
}

// The quotient of two numbers.
fn quotient(x: Frac, y: Frac) -> Result<Value, FuncStop>
    ensures { Answers (divided x y) result }
{
    if y.is_zero() {
        return Ok(Value::Error(ErrorKind::Div0));
    }
    number(x.div(y))
}

/// The power of two numbers; the error stands for an exponent that isn't whole or isn't from -1000 to 1000, and for a negative
/// power of 0.
pub fn power_of(x: Frac, y: Frac) -> Result<Value, FuncStop>
    ensures narrow { Answers (raised x y) result }
    ensures stop { IsOkUnless result stops.Wide }
{
    let Some(exponent) = exponent(y) else {
        return Ok(Value::Error(ErrorKind::Num));
    };
    if is_zero_below_zero(x, y) {
        return Ok(Value::Error(ErrorKind::Div0));
    }
    number(x.power(exponent))
}

// Whether the power would be a negative power of 0.
fn is_zero_below_zero(x: Frac, y: Frac) -> bool
    ensures { result ≡ (is_zero x && is_negative y) }
{
    x.is_zero() && y.is_negative()
}

// The whole number from -1000 to 1000 that a number is.
fn exponent(number: Frac) -> Option<i32>
    ensures found { MatchOption result (is_exponent number ≡ false)
        (λ e. (is_exponent number ≡ true) × (e ≡ numerator number)) }
    ensures low { IfSome result (λ e. negsuc 999 ≤ℤ e) }
    ensures high { IfSome result (λ e. e ≤ℤ pos 1000) }
{
    let numerator = number.num();
    if !number.is_whole() || numerator < -1000 || numerator > 1000 {
        return None;
    }
    Some(numerator as i32)
}

// The texts of two values, joined.
fn concatenation(alloc: Global, a: &Value, b: &Value) -> Result<Value, FuncStop>
    ensures { Answers (done (joined_texts (text_in a.now) (text_in b.now))) result }
{
    let mut text = match to_text(alloc, a)? {
        Ok(text) => text,
        Err(kind) => return Ok(Value::Error(kind)),
    };
    match to_text(alloc, b)? {
        Ok(second) => text.push_str(second.as_str())?,
        Err(kind) => return Ok(Value::Error(kind)),
    }
    Ok(Value::Text(Text::new(text)))
}

// Whether the comparison of two values holds.
fn comparison(op: Op, a: &Value, b: &Value) -> Value
    ensures { result ≡ compared op a.now b.now }
{
    if let Value::Error(kind) = a {
        return Value::Error(*kind);
    }
    if let Value::Error(kind) = b {
        return Value::Error(*kind);
    }
    Value::Logical(asks_for(op, compare(a, b)))
}
