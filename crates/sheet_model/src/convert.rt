// Values where a number, a logical or a text is wanted.
ghost use Rattle.std.specs.Prelude.{◌≡◌, IfOk, string_bytes};
ghost use Rattle.std.specs.Result.{result_map_both};
ghost use Rattle.frac128.specs.Printed.{printed};
ghost use Rattle.sheet_model.specs.Conversions.{logical_in, number_in, text_in};

use crate::value::Value;
use cell_refs::ErrorKind;
use frac128::Frac;
use memory::Memory;
use std::alloc::Global;

/// The value as a number.
pub fn to_number(value: &Value) -> Result<Frac, ErrorKind>
    ensures { result ≡ number_in value.now }
{
    match value {
        Value::Number(number) => Ok(*number),
        Value::Text(_) => Err(ErrorKind::Value),
        Value::Logical(true) => Ok(Frac::one()),
        Value::Logical(false) => Ok(Frac::zero()),
        Value::Empty => Ok(Frac::zero()),
        Value::Error(kind) => Err(*kind),
    }
}

/// The value as a logical.
pub fn to_logical(value: &Value) -> Result<bool, ErrorKind>
    ensures { result ≡ logical_in value.now }
{
    match value {
        Value::Number(number) => Ok(!number.is_zero()),
        Value::Text(_) => Err(ErrorKind::Value),
        Value::Logical(holds) => Ok(*holds),
        Value::Empty => Ok(false),
        Value::Error(kind) => Err(*kind),
    }
}

/// The value as a text.
pub(crate) fn to_text(alloc: Global, value: &Value) -> Result<Result<String, ErrorKind>, Memory>
    ensures { IfOk result (λ text. result_map_both string_bytes (λ kind. kind) text
        ≡ text_in value.now) }
{
    match value {
        Value::Number(number) => Ok(Ok(numeral(alloc, *number)?)),
        Value::Text(text) => Ok(Ok(String::from_str(alloc, text.as_str())?)),
        Value::Logical(true) => Ok(Ok(String::from_str(alloc, "TRUE")?)),
        Value::Logical(false) => Ok(Ok(String::from_str(alloc, "FALSE")?)),
        Value::Empty => Ok(Ok(String::new(alloc))),
        Value::Error(kind) => Ok(Err(*kind)),
    }
}

// What is printed of a number.
fn numeral(alloc: Global, number: Frac) -> Result<String, Memory>
    ensures { IfOk result (λ text. string_bytes text ≡ printed number) }
{
    let mut text = String::new(alloc);
    number.write(&mut text)?;
    Ok(text)
}
