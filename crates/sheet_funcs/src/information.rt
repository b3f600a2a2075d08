// N, ISNUMBER, ISBLANK, ROWS and COLUMNS.
ghost use Rattle.std.specs.Prelude.{◌≡◌, IfOk, IsOk, length};
ghost use Rattle.calculations.specs.Calculation.{exact};
ghost use Rattle.formula_ast.specs.Functions.{Takes};
ghost use Rattle.formula_ast.specs.declared.func.Func.TheVariants as func;
ghost use Rattle.sheet_model.specs.Answers.{Answers};
ghost use Rattle.sheet_funcs.specs.Arguments.{of_one};
ghost use Rattle.sheet_funcs.specs.Information.{columns_of, isblank_of, isnumber_of, n_of, number_or_zero, rows_of};

use crate::answers::{fault, logical, number};
use crate::items::{columns_of, rows_of, value_of};
use frac128::Frac;
use sheet_model::{Arg, FuncStop, Value};

/// N: the value as a number, where TRUE is 1, and what is no number and no logical is 0.
pub fn n_(args: &[Arg]) -> Result<Arg, FuncStop>
    requires { Takes func.N (length args.now) }
    ensures exact { IfOk result (λ answer. answer ≡ exact (of_one n_of args.now)) }
    ensures narrow { Answers (of_one n_of args.now) result }
    ensures answer { IsOk result }
{
    let [arg] = args else {
        unreachable!();
    };
    match value_of(arg) {
        Ok(value) => Ok(Arg::One(number_or_zero(value))),
        Err(kind) => Ok(fault(kind)),
    }
}

// A value as a number, or its error.
fn number_or_zero(value: &Value) -> Value
    ensures { result ≡ number_or_zero value.now }
{
    match value {
        Value::Number(number) => Value::Number(*number),
        Value::Logical(true) => Value::Number(Frac::one()),
        Value::Error(kind) => Value::Error(*kind),
        Value::Logical(false) | Value::Text(_) | Value::Empty => Value::Number(Frac::zero()),
    }
}

/// ISNUMBER: whether the value is a number; an error is none.
pub fn isnumber(args: &[Arg]) -> Result<Arg, FuncStop>
    requires { Takes func.IsNumber (length args.now) }
    ensures exact { IfOk result (λ answer. answer ≡ exact (of_one isnumber_of args.now)) }
    ensures narrow { Answers (of_one isnumber_of args.now) result }
    ensures answer { IsOk result }
{
    let [arg] = args else {
        unreachable!();
    };
    let holds = matches!(value_of(arg), Ok(Value::Number(_)));
    Ok(logical(holds))
}

/// ISBLANK: whether the value is that of a cell without a text.
pub fn isblank(args: &[Arg]) -> Result<Arg, FuncStop>
    requires { Takes func.IsBlank (length args.now) }
    ensures exact { IfOk result (λ answer. answer ≡ exact (of_one isblank_of args.now)) }
    ensures narrow { Answers (of_one isblank_of args.now) result }
    ensures answer { IsOk result }
{
    let [arg] = args else {
        unreachable!();
    };
    let holds = matches!(value_of(arg), Ok(Value::Empty));
    Ok(logical(holds))
}

/// ROWS: how many rows there are, whatever the elements are.
pub fn rows(args: &[Arg]) -> Result<Arg, FuncStop>
    requires { Takes func.Rows (length args.now) }
    ensures exact { IfOk result (λ answer. answer ≡ exact (of_one rows_of args.now)) }
    ensures narrow { Answers (of_one rows_of args.now) result }
    ensures answer { IsOk result }
{
    let [arg] = args else {
        unreachable!();
    };
    Ok(number(Frac::from_whole(rows_of(arg) as i64)))
}

/// COLUMNS: how many columns there are, whatever the elements are.
pub fn columns(args: &[Arg]) -> Result<Arg, FuncStop>
    requires { Takes func.Columns (length args.now) }
    ensures exact { IfOk result (λ answer. answer ≡ exact (of_one columns_of args.now)) }
    ensures narrow { Answers (of_one columns_of args.now) result }
    ensures answer { IsOk result }
{
    let [arg] = args else {
        unreachable!();
    };
    Ok(number(Frac::from_whole(columns_of(arg) as i64)))
}
