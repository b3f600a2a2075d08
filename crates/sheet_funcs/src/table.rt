// The table of functions.
ghost use Rattle.std.specs.Prelude.{◌≡◌, IfOk, false, length};
ghost use Rattle.calculations.specs.Calculation.{exact};
ghost use Rattle.formula_ast.specs.Functions.{Takes};
ghost use Rattle.sheet_funcs.specs.Table.{called, is_choosing};
ghost use Rattle.sheet_model.specs.Answers.{Answers};

use crate::criteria::{countif, sumif};
use crate::indexing::index;
use crate::information::{columns, isblank, isnumber, n_, rows};
use crate::logic::{and_, false_, not_, or_, true_};
use crate::lookups::{hlookup, match_place, vlookup};
use crate::products::{mmult, sumproduct, transpose};
use crate::rounding::{abs_, int, mod_, power, round};
use crate::sums::{average, count, max, min, sum};
use formula_ast::Func;
use sheet_model::{Arg, FuncStop};
use std::alloc::Global;

/// What a function makes of its arguments; IF, IFERROR and CHOOSE aren't called, since a formula looks at one of their arguments
/// alone.
pub fn call(alloc: Global, func: Func, args: &[Arg]) -> Result<Arg, FuncStop>
    requires takes { Takes func (length args.now) }
    requires whole { is_choosing func ≡ false }
    ensures exact { IfOk result (λ answer. answer ≡ exact (called func args.now)) }
    ensures narrow { Answers (called func args.now) result }
{
    match func {
        Func::Sum => sum(args),
        Func::Average => average(args),
        Func::Count => count(args),
        Func::SumProduct => sumproduct(args),
        Func::MMult => mmult(alloc, args),
        Func::Transpose => transpose(alloc, args),
        Func::Index => index(alloc, args),
        Func::Match => match_place(args),
        Func::VLookup => vlookup(alloc, args),
        Func::HLookup => hlookup(alloc, args),
        Func::SumIf => sumif(args),
        Func::CountIf => countif(args),
        Func::And => and_(args),
        Func::Or => or_(args),
        Func::Not => not_(args),
        Func::True => true_(args),
        Func::False => false_(args),
        Func::Abs => abs_(args),
        Func::Min => min(args),
        Func::Max => max(args),
        Func::Int => int(args),
        Func::Mod => mod_(args),
        Func::Round => round(args),
        Func::Power => power(args),
        Func::N => n_(args),
        Func::IsNumber => isnumber(args),
        Func::IsBlank => isblank(args),
        Func::Rows => rows(args),
        Func::Columns => columns(args),
        Func::If | Func::IfError | Func::Choose => unreachable!(),
    }
}

/// Whether a formula looks at one of the function's arguments after the other.
pub fn is_choosing(func: Func) -> bool
    ensures { result ≡ is_choosing func }
{
    matches!(func, Func::If | Func::IfError | Func::Choose)
}
