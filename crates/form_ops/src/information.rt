// N, ISNUMBER and ISBLANK.
ghost use Rattle.std.specs.Prelude.{◌≡◌, IsOk, false, length};
ghost use Rattle.std.specs.List.{list_all};
ghost use Rattle.form_table.specs.Items.{is_number};
ghost use Rattle.form_table.specs.Logic.{is_blank, n_abs, n_form};
ghost use Rattle.form_ops.specs.Truths.{IsTrueCall};
ghost use Rattle.form_table.specs.Wanted.{value_of as one_of};
ghost use Rattle.form_table.specs.Table.{row_of};
ghost use Rattle.form_values.specs.Known.{all_known};
ghost use Rattle.form_values.specs.Trials.{Answers};
ghost use Rattle.formula_ast.specs.Functions.{Takes};
ghost use Rattle.formula_ast.specs.declared.func.Func.TheVariants as func;
ghost use Rattle.sheet_funcs.specs.Information.{number_or_zero};

use crate::args::value_of;
use crate::results::{as_one, fault, logical};
use form_values::{Abs, AbsArg, OpRefusal};
use frac128::Frac;
use sheet_model::Value;

/// N of an open value: an open number is itself, and an open logical is undecided.
pub fn n_(args: &[AbsArg]) -> Result<AbsArg, OpRefusal>
    requires takes { Takes func.N (length args.now) }
    requires open_argument { list_all all_known args.now ≡ false }
    ensures answer { Answers (row_of func.N args.now) result }
    ensures right { IsTrueCall func.N args.now result }
{
    let [arg] = args else {
        unreachable!();
    };
    number_of(arg)
}

// The one value of an argument as a number.
fn number_of(arg: &AbsArg) -> Result<AbsArg, OpRefusal>
    ensures { Answers (n_form arg.now) result }
{
    match value_of(arg) {
        Ok(value) => as_one(number_in(value)),
        Err(kind) => Ok(AbsArg::One(fault(kind))),
    }
}

// A value as a number.
fn number_in(value: &Abs) -> Result<Abs, OpRefusal>
    ensures { Answers (n_abs value.now) result }
{
    match value {
        Abs::Known(known) => Ok(Abs::Known(number_or_zero(known))),
        Abs::Affine(open) => Ok(Abs::Affine(open.copy()?)),
        Abs::Test(_, _) => Err(OpRefusal::Undecided(0)),
    }
}

// A known value as a number, or its error.
fn number_or_zero(value: &Value) -> Value
    ensures { result ≡ number_or_zero value.now }
{
    match value {
        Value::Number(number) => Value::Number(*number),
        Value::Logical(true) => Value::Number(Frac::one()),
        Value::Error(kind) => Value::Error(*kind),
        Value::Logical(false) | Value::Text(_) | Value::Empty => Value::Number(Frac::zero()),
    }
}

/// ISNUMBER: an open number is a number, an open logical is none.
pub fn isnumber(args: &[AbsArg]) -> Result<AbsArg, OpRefusal>
    requires takes { Takes func.IsNumber (length args.now) }
    requires open_argument { list_all all_known args.now ≡ false }
    ensures answer { Answers (row_of func.IsNumber args.now) result }
    ensures right { IsTrueCall func.IsNumber args.now result }
    ensures given { IsOk result }
{
    let [arg] = args else {
        unreachable!();
    };
    Ok(AbsArg::One(logical(has_number(arg))))
}

// Whether the one value of an argument is a number.
fn has_number(arg: &AbsArg) -> bool
    ensures { result ≡ is_number (one_of arg.now) }
{
    match value_of(arg) {
        Ok(value) => is_number(value),
        Err(_) => false,
    }
}

/// Whether a value is a number: an open number is one, an open logical is none.
pub fn is_number(value: &Abs) -> bool
    ensures { result ≡ is_number value.now }
{
    matches!(value, Abs::Known(Value::Number(_)) | Abs::Affine(_))
}

/// ISBLANK: no open value is blank.
pub fn isblank(args: &[AbsArg]) -> Result<AbsArg, OpRefusal>
    requires takes { Takes func.IsBlank (length args.now) }
    requires open_argument { list_all all_known args.now ≡ false }
    ensures answer { Answers (row_of func.IsBlank args.now) result }
    ensures right { IsTrueCall func.IsBlank args.now result }
    ensures given { IsOk result }
{
    let [arg] = args else {
        unreachable!();
    };
    Ok(AbsArg::One(logical(has_blank(arg))))
}

// Whether the one value of an argument is that of a cell without a text.
fn has_blank(arg: &AbsArg) -> bool
    ensures { result ≡ is_blank (one_of arg.now) }
{
    match value_of(arg) {
        Ok(value) => is_blank(value),
        Err(_) => false,
    }
}

// Whether a value is that of a cell without a text.
fn is_blank(value: &Abs) -> bool
    ensures { result ≡ is_blank value.now }
{
    matches!(value, Abs::Known(Value::Empty))
}
