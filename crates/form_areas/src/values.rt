// What a function takes of its arguments.
ghost use Rattle.std.specs.Prelude.{◌≡◌, MatchResult, None};
ghost use Rattle.form_table.specs.Lookups.{error_of};
ghost use Rattle.form_table.specs.Wanted.{value_of};
ghost use Rattle.form_values.specs.declared.abs.Abs.TheVariants.{Known};
ghost use Rattle.sheet_model.specs.declared.value.Value.TheVariants.{Error};

use cell_refs::ErrorKind;
use form_ops::value_of;
use form_values::{Abs, AbsArg};
use sheet_model::Value;

/// The one value of an argument, or the error that it is.
pub fn value_or_error(arg: &AbsArg) -> Result<&Abs, ErrorKind>
    ensures { MatchResult result (λ value. (value.now ≡ value_of arg.now)
        × (error_of value.now ≡ None)) (λ kind. value_of arg.now ≡ Known (Error kind)) }
{
    match value_of(arg) {
        Ok(Abs::Known(Value::Error(kind))) => Err(*kind),
        Ok(value) => Ok(value),
        Err(kind) => Err(kind),
    }
}
