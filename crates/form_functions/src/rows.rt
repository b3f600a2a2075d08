// The rows of functions of open arguments.
ghost use Rattle.std.specs.Prelude.{◌≡◌, false, length, pos, true};
ghost use Rattle.std.specs.List.{list_all};
ghost use Rattle.form_functions.specs.Whole.{is_whole};
ghost use Rattle.affine_forms.specs.Forms.{constant_form};
ghost use Rattle.form_table.specs.Lookups.{match_form, match_pick};
ghost use Rattle.form_table.specs.Table.{row_of};
ghost use Rattle.form_table.specs.Wanted.{form, number_of};
ghost use Rattle.form_values.specs.Known.{all_known};
ghost use Rattle.form_values.specs.Trials.{Answers};
ghost use Rattle.form_values.specs.declared.abs.Abs.TheVariants.{Known};
ghost use Rattle.form_values.specs.declared.abs.AbsArg.TheVariants.{One};
ghost use Rattle.formula_ast.specs.Functions.{Takes};
ghost use Rattle.formula_ast.specs.declared.func.Func.TheVariants as func;
ghost use Rattle.fractions.specs.Whole.{whole_ℚ};
ghost use Rattle.sheet_funcs.specs.Lookups.{place_value};
ghost use Rattle.sheet_model.specs.declared.value.Value.TheVariants.{Logical};

use form_areas::{average, count, countif, lookup_at, mmult, sum, sumproduct, transpose};
use form_ops::{abs_, and_, int, isblank, isnumber, max, min, mod_, n_, not_, or_, power, round};
use form_values::{Abs, AbsArg, OpRefusal};
use formula_ast::Func;
use frac128::Frac;
use sheet_funcs::Pick;
use sheet_model::Value;
use std::alloc::Global;

/// What a function makes of arguments of which one is open.
pub(crate) fn row(alloc: Global, function: Func, args: &[AbsArg]) -> Result<AbsArg, OpRefusal>
    requires takes { Takes function (length args.now) }
    requires whole { is_whole function ≡ true }
    requires open_argument { list_all all_known args.now ≡ false }
    ensures { Answers (row_of function args.now) result }
{
    match function {
        Func::Sum => sum(alloc, args),
        Func::Average => average(alloc, args),
        Func::Count => count(args),
        Func::SumProduct => sumproduct(alloc, args),
        Func::MMult => mmult(alloc, args),
        Func::Transpose => transpose(alloc, args),
        Func::Match => match_place(alloc, args),
        Func::CountIf => countif(args),
        Func::And => and_(alloc, args),
        Func::Or => or_(alloc, args),
        Func::Not => not_(args),
        Func::True => Ok(logical(true)),
        Func::False => Ok(logical(false)),
        Func::Abs => abs_(alloc, args),
        Func::Min => min(alloc, args),
        Func::Max => max(alloc, args),
        Func::Int => int(alloc, args),
        Func::Mod => mod_(alloc, args),
        Func::Round => round(alloc, args),
        Func::Power => power(alloc, args),
        Func::N => n_(args),
        Func::IsNumber => isnumber(args),
        Func::IsBlank => isblank(args),
        Func::If | Func::IfError | Func::Choose | Func::Index | Func::VLookup | Func::HLookup => {
            unreachable!()
        }
        Func::SumIf | Func::Rows | Func::Columns => unreachable!(),
    }
}

// MATCH, which takes kind 1 where none is given.
fn match_place(alloc: Global, args: &[AbsArg]) -> Result<AbsArg, OpRefusal>
    requires { Takes func.Match (length args.now) }
    ensures { Answers (match_form args.now) result }
{
    match match_pick(alloc, args) {
        Ok(pick) => Ok(AbsArg::One(Abs::Known(place_value(pick)))),
        Err(refusal) => Err(refusal),
    }
}

// What it finds.
fn match_pick(alloc: Global, args: &[AbsArg]) -> Result<Pick, OpRefusal>
    requires { Takes func.Match (length args.now) }
    ensures { Answers (match_pick args.now) result }
{
    match args {
        [key, keys] => lookup_at(alloc, key, keys, &rising()),
        [key, keys, kind] => lookup_at(alloc, key, keys, kind),
        _ => unreachable!(),
    }
}

// The kind of keys that rise.
fn rising() -> AbsArg
    ensures { number_of result ≡ form (constant_form (whole_ℚ (pos 1))) }
{
    AbsArg::One(Abs::Known(Value::Number(Frac::from_whole(1))))
}

// A place in a row or a column, counted from 1.
fn place_value(pick: Pick) -> Value
    ensures { result ≡ place_value pick }
{
    match pick {
        Pick::Part(top, left, _, _) => {
            Value::Number(Frac::from_whole(top as i64 + left as i64 + 1))
        }
        Pick::Fault(kind) => Value::Error(kind),
    }
}

// A logical.
fn logical(holds: bool) -> AbsArg
    ensures { result ≡ One (Known (Logical holds)) }
{
    AbsArg::One(Abs::Known(Value::Logical(holds)))
}
