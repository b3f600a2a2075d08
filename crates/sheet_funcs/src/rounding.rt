// Numbers rounded, and powers.
ghost use Rattle.std.specs.Prelude.{◌≡◌, IfOk, IsOk, IsOkUnless, length, negsuc, pos, ◌≤ℤ◌};
ghost use Rattle.calculations.specs.Calculation.{exact, turned_into};
ghost use Rattle.formula_ast.specs.Functions.{Takes};
ghost use Rattle.formula_ast.specs.declared.func.Func.TheVariants as func;
ghost use Rattle.sheet_funcs.specs.Arguments.{of_one, of_two, on_ok};
ghost use Rattle.sheet_funcs.specs.Rounding.{abs_of, half, int_of, magnitude, mod_of, number_of, power_of, remainder, round_of, rounded, rounded_at, rounded_half_up};
ghost use Rattle.sheet_model.specs.Answers.{Answers};
ghost use Rattle.sheet_model.specs.Operators.{raised};
ghost use Rattle.sheet_model.specs.declared.grid.Arg.TheVariants.{One};
ghost use Rattle.sheet_model.specs.declared.stop.FuncStop.TheVariants as stops;

use crate::answers::{fault, number, number_answer, whole};
use crate::items::{number_of, place_of};
use crate::steps::{add, divide, multiply, raise};
use cell_refs::ErrorKind;
use frac128::Frac;
use sheet_model::{Arg, FuncStop, power_of};

/// ABS: a number without its sign.
pub fn abs_(args: &[Arg]) -> Result<Arg, FuncStop>
    requires { Takes func.Abs (length args.now) }
    ensures exact { IfOk result (λ answer. answer ≡ exact (of_one abs_of args.now)) }
    ensures narrow { Answers (of_one abs_of args.now) result }
    ensures answer { IsOk result }
{
    let [arg] = args else {
        unreachable!();
    };
    match number_of(arg) {
        Ok(x) => Ok(number(magnitude(x))),
        Err(kind) => Ok(fault(kind)),
    }
}

/// INT: a number rounded down.
pub fn int(args: &[Arg]) -> Result<Arg, FuncStop>
    requires { Takes func.Int (length args.now) }
    ensures exact { IfOk result (λ answer. answer ≡ exact (of_one int_of args.now)) }
    ensures narrow { Answers (of_one int_of args.now) result }
    ensures answer { IsOk result }
{
    let [arg] = args else {
        unreachable!();
    };
    match number_of(arg) {
        Ok(x) => Ok(number(round_whole(x))),
        Err(kind) => Ok(fault(kind)),
    }
}

/// MOD: what is left of a number by another, with the sign of the other.
pub fn mod_(args: &[Arg]) -> Result<Arg, FuncStop>
    requires { Takes func.Mod (length args.now) }
    ensures exact { IfOk result (λ answer. answer ≡ exact (of_two mod_of args.now)) }
    ensures narrow { Answers (of_two mod_of args.now) result }
    ensures stop { IsOkUnless result stops.Wide }
{
    let [dividend, divisor] = args else {
        unreachable!();
    };
    match (number_of(dividend), number_of(divisor)) {
        (Ok(x), Ok(y)) => remainder(x, y),
        (Err(kind), _) | (Ok(_), Err(kind)) => Ok(fault(kind)),
    }
}

/// ROUND: a number rounded to so many decimal places, half away from zero.
pub fn round(args: &[Arg]) -> Result<Arg, FuncStop>
    requires { Takes func.Round (length args.now) }
    ensures exact { IfOk result (λ answer. answer ≡ exact (round_of args.now)) }
    ensures narrow { Answers (round_of args.now) result }
    ensures stop { IsOkUnless result stops.Wide }
{
    match args {
        [number] => rounded_value(number, Ok(0)),
        [number, places] => rounded_value(number, place_of(places)),
        _ => unreachable!(),
    }
}

/// POWER: a number to a whole power.
pub fn power(args: &[Arg]) -> Result<Arg, FuncStop>
    requires { Takes func.Power (length args.now) }
    ensures exact { IfOk result (λ answer. answer ≡ exact (of_two power_of args.now)) }
    ensures narrow { Answers (of_two power_of args.now) result }
    ensures stop { IsOkUnless result stops.Wide }
{
    let [base, exponent] = args else {
        unreachable!();
    };
    match (number_of(base), number_of(exponent)) {
        (Ok(x), Ok(y)) => power_value(x, y),
        (Err(kind), _) | (Ok(_), Err(kind)) => Ok(fault(kind)),
    }
}

// A number without its sign.
fn magnitude(x: Frac) -> Frac
    ensures { result ≡ magnitude x }
{
    if x.is_negative() { x.neg() } else { x }
}

// A number rounded down, which is as narrow as its numerator.
fn round_whole(x: Frac) -> Frac
    ensures { result ≡ rounded x }
{
    let _numerator = x.num();
    whole(x.floor())
}

// What is left of x by y.
fn remainder(x: Frac, y: Frac) -> Result<Arg, FuncStop>
    ensures answer { Answers (remainder x y) result }
    ensures stop { IsOkUnless result stops.Wide }
{
    if y.is_zero() {
        return Ok(fault(ErrorKind::Div0));
    }
    let quotient = divide(x, y)?;
    let multiple = multiply(y, round_whole(quotient))?;
    number_answer(add(x, multiple.neg()))
}

// The power, as the operator has it.
fn power_value(x: Frac, y: Frac) -> Result<Arg, FuncStop>
    ensures narrow { Answers (turned_into One (raised x y)) result }
    ensures stop { IsOkUnless result stops.Wide }
{
    match power_of(x, y) {
        Ok(value) => Ok(Arg::One(value)),
        Err(stop) => Err(stop),
    }
}

// An argument rounded at a place; the first that is none is the result.
fn rounded_value(arg: &Arg, places: Result<i128, ErrorKind>) -> Result<Arg, FuncStop>
    ensures answer { Answers (on_ok (number_of arg.now) (λ x. on_ok places (rounded_at x))) result }
    ensures stop { IsOkUnless result stops.Wide }
{
    match (number_of(arg), places) {
        (Ok(x), Ok(places)) => rounded_at(x, places),
        (Err(kind), _) | (Ok(_), Err(kind)) => Ok(fault(kind)),
    }
}

// A number rounded at a place, half away from zero.
fn rounded_at(x: Frac, places: i128) -> Result<Arg, FuncStop>
    ensures answer { Answers (rounded_at x places) result }
    ensures stop { IsOkUnless result stops.Wide }
{
    if places < -1000 || places > 1000 {
        return Ok(fault(ErrorKind::Num));
    }
    let rounded = rounded_half_up(magnitude(x), places as i32)?;
    Ok(number(if x.is_negative() {
        rounded.neg()
    } else {
        rounded
    }))
}

// A number rounded at a place, half upwards.
fn rounded_half_up(x: Frac, places: i32) -> Result<Frac, FuncStop>
    requires low { negsuc 999 ≤ℤ places }
    requires high { places ≤ℤ pos 1000 }
    ensures answer { Answers (rounded_half_up x places) result }
    ensures stop { IsOkUnless result stops.Wide }
{
    let scale = raise(Frac::from_whole(10), places)?;
    let scaled = multiply(x, scale)?;
    let raised = add(scaled, half())?;
    divide(round_whole(raised), scale)
}

// The number 1/2.
fn half() -> Frac
    ensures { result ≡ half }
{
    Frac::from_whole(2).inverse()
}
