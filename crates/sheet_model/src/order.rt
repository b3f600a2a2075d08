// The order of values.
ghost use Rattle.std.specs.Prelude.{◌≡◌, ◌≢◌, [], map};
ghost use Rattle.std.specs.Char.{to_ascii_lowercase};
ghost use Rattle.std.specs.Cmp.Lexicographic.{slice_cmp};
ghost use Rattle.std.specs.Ordering.{nat_cmp};
ghost use Rattle.cell_refs.specs.declared.error_kind.ErrorKind.{ErrorKind};
ghost use Rattle.sheet_model.specs.Comparison.{OrderLaws, value_cmp};
ghost use Rattle.sheet_model.specs.Operators.{asks_for};
ghost use Rattle.sheet_model.specs.Tests.{number_cmp};
ghost use Rattle.sheet_model.specs.declared.value.Value.TheVariants.{Empty, Error, Logical, Number, Text};

use crate::value::Value;
use cell_refs::Op;
use frac128::Frac;
use std::cmp::Ordering;

/// The order of two values, neither of which is an error: numbers, then texts in any case of letters, then logicals.
pub fn compare(a: &Value, b: &Value) -> Ordering
    requires first { (k : ErrorKind) → a.now ≢ Error k }
    requires second { (k : ErrorKind) → b.now ≢ Error k }
    ensures { result ≡ value_cmp a.now b.now }
{
    match a {
        Value::Number(number) => number_beside(*number, b),
        Value::Text(text) => text_beside(text.as_str().as_bytes(), b),
        Value::Logical(holds) => logical_beside(*holds, b),
        Value::Empty => empty_beside(b),
        Value::Error(_) => unreachable!(),
    }
}

// The order of a number and a value.
fn number_beside(number: Frac, other: &Value) -> Ordering
    ensures { result ≡ value_cmp (Number number) other.now }
{
    match other {
        Value::Number(second) => compare_numbers(number, *second),
        Value::Empty => compare_numbers(number, Frac::zero()),
        Value::Text(_) | Value::Logical(_) | Value::Error(_) => Ordering::Less,
    }
}

// The order of a text and a value.
fn text_beside(text: &[u8], other: &Value) -> Ordering
    ensures { result ≡ value_cmp (Text text.now) other.now }
{
    match other {
        Value::Number(_) => Ordering::Greater,
        Value::Text(second) => compare_texts(text, second.as_str().as_bytes()),
        Value::Empty => compare_texts(text, b""),
        Value::Logical(_) | Value::Error(_) => Ordering::Less,
    }
}

// The order of a logical and a value.
fn logical_beside(holds: bool, other: &Value) -> Ordering
    ensures { result ≡ value_cmp (Logical holds) other.now }
{
    match other {
        Value::Number(_) | Value::Text(_) | Value::Empty => Ordering::Greater,
        Value::Logical(second) => holds.cmp(second),
        Value::Error(_) => Ordering::Less,
    }
}

// The order of what is empty and a value.
fn empty_beside(other: &Value) -> Ordering
    ensures { result ≡ value_cmp Empty other.now }
{
    match other {
        Value::Text(_) => text_beside(b"", other),
        _ => number_beside(Frac::zero(), other),
    }
}

/// The order of two numbers.
pub fn compare_numbers(a: Frac, b: Frac) -> Ordering
    ensures { result ≡ number_cmp a b }
{
    a.compare(b)
}

/// The order of two texts, letters of ASCII as small letters.
pub fn compare_texts(a: &[u8], b: &[u8]) -> Ordering
    ensures { result
        ≡ slice_cmp nat_cmp (map to_ascii_lowercase a.now) (map to_ascii_lowercase b.now) }
{
    a.iter()
        .map(|byte| byte.to_ascii_lowercase())
        .cmp(b.iter().map(|byte| byte.to_ascii_lowercase()))
}

/// Whether a comparison holds of values in this order.
pub fn asks_for(op: Op, order: Ordering) -> bool
    ensures { result ≡ asks_for op order }
{
    match op {
        Op::Eq => order.is_eq(),
        Op::Ne => order.is_ne(),
        Op::Lt => order.is_lt(),
        Op::Le => order.is_le(),
        Op::Gt => order.is_gt(),
        Op::Ge => order.is_ge(),
        Op::Add | Op::Sub | Op::Mul | Op::Div | Op::Pow | Op::Cat => false,
    }
}

/// The order is total, and transitive over values that aren't empty.
pub fn order_laws()
    ensures { OrderLaws }
{}
