// Results.
ghost use Rattle.std.specs.Prelude.{◌≡◌};
ghost use Rattle.std.specs.Result.{result_map_both};
ghost use Rattle.form_ops.specs.Refusals.{form_refusal, function_refusal, only_known};
ghost use Rattle.form_values.specs.Entries.{entry, test};
ghost use Rattle.form_values.specs.declared.abs.Abs.TheVariants.{Known};
ghost use Rattle.form_values.specs.declared.abs.AbsArg.TheVariants.{One};
ghost use Rattle.sheet_model.specs.declared.value.Value.TheVariants.{Error, Logical};

use affine_forms::{Form, FormStop};
use cell_refs::ErrorKind;
use form_values::{Abs, AbsArg, OpRefusal, Rel};
use sheet_model::{Arg, FuncStop, Value};

/// An error as the value.
pub fn fault(kind: ErrorKind) -> Abs
    ensures { result ≡ Known (Error kind) }
{
    Abs::Known(Value::Error(kind))
}

/// A logical as the value.
pub(crate) fn logical(holds: bool) -> Abs
    ensures { result ≡ Known (Logical holds) }
{
    Abs::Known(Value::Logical(holds))
}

/// A calculated form as the value.
pub fn as_entry(answer: Result<Form, FormStop>) -> Result<Abs, OpRefusal>
    ensures { result ≡ result_map_both entry form_refusal answer }
{
    match answer {
        Ok(form) => Ok(Abs::entry(form)),
        Err(stop) => Err(form_refusal(stop)),
    }
}

/// A calculated form in a relation to 0 as the value.
pub(crate) fn as_test(relation: Rel, answer: Result<Form, FormStop>) -> Result<Abs, OpRefusal>
    ensures { result ≡ result_map_both (test relation) form_refusal answer }
{
    match answer {
        Ok(form) => Ok(Abs::test(relation, form)),
        Err(stop) => Err(form_refusal(stop)),
    }
}

/// Why a form has no value.
pub fn form_refusal(stop: FormStop) -> OpRefusal
    ensures { result ≡ form_refusal stop }
{
    match stop {
        FormStop::Wide => OpRefusal::Wide,
        FormStop::Memory => OpRefusal::Memory,
    }
}

/// What an operator makes of known values, as the value.
pub(crate) fn as_known(answer: Result<Arg, FuncStop>) -> Result<Abs, OpRefusal>
    ensures { result ≡ result_map_both only_known function_refusal answer }
{
    match answer {
        Ok(arg) => Ok(only_known(arg)),
        Err(stop) => Err(function_refusal(stop)),
    }
}

// The single value that is known; the error stands for an area.
fn only_known(arg: Arg) -> Abs
    ensures { result ≡ only_known arg }
{
    match arg {
        Arg::One(value) => Abs::Known(value),
        Arg::Area(_) => fault(ErrorKind::Value),
    }
}

// Why an operator on known values has no value.
fn function_refusal(stop: FuncStop) -> OpRefusal
    ensures { result ≡ function_refusal stop }
{
    match stop {
        FuncStop::Wide => OpRefusal::Wide,
        FuncStop::Memory => OpRefusal::Memory,
    }
}

/// A value as an argument.
pub fn as_one(answer: Result<Abs, OpRefusal>) -> Result<AbsArg, OpRefusal>
    ensures { result ≡ result_map_both One (λ refusal. refusal) answer }
{
    match answer {
        Ok(value) => Ok(AbsArg::One(value)),
        Err(refusal) => Err(refusal),
    }
}
