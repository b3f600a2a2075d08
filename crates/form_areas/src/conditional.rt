// COUNTIF, and whether an element meets a criterion.
ghost use Rattle.std.specs.Prelude.{◌≡◌, IfErr, None, false, length};
ghost use Rattle.std.specs.List.{list_all};
ghost use Rattle.form_areas.specs.Undecided.{IsUndecided};
ghost use Rattle.form_ops.specs.Truths.{IsTrueCall};
ghost use Rattle.form_table.specs.Criteria.{countif_form};
ghost use Rattle.form_table.specs.Lookups.{error_of};
ghost use Rattle.form_table.specs.Table.{of_two, row_of};
ghost use Rattle.form_values.specs.Known.{all_known, value_in};
ghost use Rattle.form_values.specs.Trials.{Answers};
ghost use Rattle.form_values.specs.declared.abs.Abs.TheVariants.{Known};
ghost use Rattle.formula_ast.specs.Functions.{Takes};
ghost use Rattle.formula_ast.specs.declared.func.Func.TheVariants as func;
ghost use Rattle.sheet_funcs.specs.Criteria.{meets};

use crate::values::value_or_error;
use cell_refs::ErrorKind;
use form_ops::fault;
use form_values::{Abs, AbsArg, OpRefusal};
use sheet_funcs::meets;
use sheet_model::Value;

/// The error that an element is.
pub(crate) fn error_of(item: &Abs) -> Option<ErrorKind>
    ensures { result ≡ error_of item.now }
{
    match item {
        Abs::Known(Value::Error(kind)) => Some(*kind),
        _ => None,
    }
}

/// Whether a known element meets the criterion.
pub(crate) fn is_met(criterion: &Value, item: &Abs) -> bool
    requires { error_of (Known criterion.now) ≡ None }
    ensures { result ≡ meets criterion.now (value_in item.now) }
{
    match item {
        Abs::Known(value) => meets(value, criterion),
        Abs::Affine(_) | Abs::Test(_, _) => meets(&Value::Empty, criterion),
    }
}

/// COUNTIF: undecided where one of its arguments is open; a known error as the criterion is the result all the same.
pub fn countif(args: &[AbsArg]) -> Result<AbsArg, OpRefusal>
    requires takes { Takes func.CountIf (length args.now) }
    requires open_argument { list_all all_known args.now ≡ false }
    ensures answer { Answers (row_of func.CountIf args.now) result }
    ensures right { IsTrueCall func.CountIf args.now result }
    ensures refused { IfErr result IsUndecided }
{
    count_open(args)
}

// What COUNTIF answers where an argument is open.
fn count_open(args: &[AbsArg]) -> Result<AbsArg, OpRefusal>
    requires takes { length args.now ≡ 2 }
    requires open_argument { list_all all_known args.now ≡ false }
    ensures answer { Answers (of_two countif_form args.now) result }
    ensures refused { IfErr result IsUndecided }
{
    let [tested, criterion] = args else {
        unreachable!();
    };
    if let Err(kind) = value_or_error(criterion) {
        return Ok(AbsArg::One(fault(kind)));
    }
    if !tested.is_known() {
        return Err(OpRefusal::Undecided(0));
    }
    Err(OpRefusal::Undecided(1))
}
