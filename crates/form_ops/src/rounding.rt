// Numbers rounded, and powers.
ghost use Rattle.std.specs.Prelude.{◌≡◌, IfErr, false, length};
ghost use Rattle.std.specs.List.{list_all};
ghost use Rattle.form_ops.specs.Truths.{IsTrueCall};
ghost use Rattle.form_table.specs.Table.{row_of};
ghost use Rattle.form_values.specs.Known.{all_known};
ghost use Rattle.form_values.specs.Trials.{Answers, one};
ghost use Rattle.form_ops.specs.Pairings.{NeverAffine, certain_error, pairing_row};
ghost use Rattle.form_ops.specs.Refusals.{IsNoWant};
ghost use Rattle.form_table.specs.Wanted.{number_of, on_forms};
ghost use Rattle.formula_ast.specs.Functions.{Takes};
ghost use Rattle.formula_ast.specs.declared.func.Func.TheVariants as func;

use crate::args::operand_in;
use crate::forms::{Change, on_form};
use crate::pairing::{Pairing, on_operands};
use crate::results::as_one;
use form_values::{AbsArg, OpRefusal};
use std::alloc::Global;

/// ABS of an open number: it is not affine.
pub fn abs_(alloc: Global, args: &[AbsArg]) -> Result<AbsArg, OpRefusal>
    requires takes { Takes func.Abs (length args.now) }
    requires open_argument { list_all all_known args.now ≡ false }
    ensures answer { Answers (row_of func.Abs args.now) result }
    ensures right { IsTrueCall func.Abs args.now result }
    ensures in_place { IfErr result IsNoWant }
{
    let [arg] = args else {
        unreachable!();
    };
    as_one(on_form(alloc, Change::Bend, &operand_in(arg)))
}

/// INT of an open number: it is not affine.
pub fn int(alloc: Global, args: &[AbsArg]) -> Result<AbsArg, OpRefusal>
    requires takes { Takes func.Int (length args.now) }
    requires open_argument { list_all all_known args.now ≡ false }
    ensures answer { Answers (row_of func.Int args.now) result }
    ensures right { IsTrueCall func.Int args.now result }
    ensures in_place { IfErr result IsNoWant }
{
    let [arg] = args else {
        unreachable!();
    };
    as_one(on_form(alloc, Change::Bend, &operand_in(arg)))
}

/// MOD of numbers of which one is open: it is not affine, and the divisor 0 is an error.
pub fn mod_(alloc: Global, args: &[AbsArg]) -> Result<AbsArg, OpRefusal>
    requires takes { Takes func.Mod (length args.now) }
    requires open_argument { list_all all_known args.now ≡ false }
    ensures answer { Answers (row_of func.Mod args.now) result }
    ensures right { IsTrueCall func.Mod args.now result }
    ensures in_place { IfErr result IsNoWant }
{
    let [dividend, divisor] = args else {
        unreachable!();
    };
    on_two(alloc, Pairing::Remainder, dividend, divisor)
}

/// ROUND of numbers of which one is open: an open number is not affine then, and an open number of places decides.
pub fn round(alloc: Global, args: &[AbsArg]) -> Result<AbsArg, OpRefusal>
    requires takes { Takes func.Round (length args.now) }
    requires open_argument { list_all all_known args.now ≡ false }
    ensures answer { Answers (row_of func.Round args.now) result }
    ensures right { IsTrueCall func.Round args.now result }
    ensures in_place { IfErr result IsNoWant }
{
    round_open(alloc, args)
}

// A number rounded to a whole number, or at a place.
fn round_open(alloc: Global, args: &[AbsArg]) -> Result<AbsArg, OpRefusal>
    requires { Takes func.Round (length args.now) }
    ensures answer { Answers (row_of func.Round args.now) result }
    ensures in_place { IfErr result IsNoWant }
{
    match args {
        [number] => as_one(on_form(alloc, Change::Bend, &operand_in(number))),
        [number, places] => on_two(alloc, Pairing::Rounding, number, places),
        _ => unreachable!(),
    }
}

/// POWER of numbers of which one is open: affine with the exponents 0 and 1 alone.
pub fn power(alloc: Global, args: &[AbsArg]) -> Result<AbsArg, OpRefusal>
    requires takes { Takes func.Power (length args.now) }
    requires open_argument { list_all all_known args.now ≡ false }
    ensures answer { Answers (row_of func.Power args.now) result }
    ensures right { IsTrueCall func.Power args.now result }
{
    let [base, exponent] = args else {
        unreachable!();
    };
    on_two(alloc, Pairing::Power, base, exponent)
}

// What is made of two arguments where numbers are wanted.
fn on_two(
    alloc: Global,
    pairing: Pairing,
    first: &AbsArg,
    second: &AbsArg,
) -> Result<AbsArg, OpRefusal>
    ensures answer { Answers (one (on_forms (certain_error pairing)
        (pairing_row pairing) (number_of first.now) (number_of second.now))) result }
    ensures in_place { NeverAffine pairing → IfErr result IsNoWant }
{
    as_one(on_operands(alloc, pairing, &operand_in(first), &operand_in(second)))
}
