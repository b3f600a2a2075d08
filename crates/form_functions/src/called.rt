// What functions make of their arguments.
ghost use Rattle.std.specs.Prelude.{◌≡◌, IfOk, length, map, true};
ghost use Rattle.std.specs.List.{list_all};
ghost use Rattle.form_functions.specs.Whole.{is_whole};
ghost use Rattle.form_table.specs.Table.{form_called};
ghost use Rattle.form_values.specs.Known.{all_known, known_arg, values_in};
ghost use Rattle.form_values.specs.Trials.{Answers, made};
ghost use Rattle.formula_ast.specs.Functions.{Takes};
ghost use Rattle.sheet_funcs.specs.Table.{called};

use crate::rows::row;
use form_values::{AbsArg, OpRefusal};
use formula_ast::Func;
use memory::Memory;
use sheet_funcs::call;
use sheet_model::{Arg, FuncStop};
use std::alloc::Global;

/// What a function makes of its arguments.
pub fn form_called(alloc: Global, function: Func, args: &[AbsArg]) -> Result<AbsArg, OpRefusal>
    requires takes { Takes function (length args.now) }
    requires whole { is_whole function ≡ true }
    ensures { Answers (form_called function args.now) result }
{
    if are_known(args) {
        return known_called(alloc, function, args);
    }
    row(alloc, function, args)
}

// Whether all arguments are known.
fn are_known(args: &[AbsArg]) -> bool
    ensures { result ≡ list_all all_known args.now }
{
    args.iter().all(|arg| arg.is_known())
}

// What a function makes of known arguments.
#[tactic(auto, using(crate::proofs::Knowing::known_given, crate::proofs::Knowing::known_wide))]
fn known_called(alloc: Global, function: Func, args: &[AbsArg]) -> Result<AbsArg, OpRefusal>
    requires takes { Takes function (length args.now) }
    requires whole { is_whole function ≡ true }
    ensures { Answers (made known_arg (called function (map values_in args.now))) result }
{
    let values = known_values(alloc, args)?;
    match call(alloc, function, &values) {
        Ok(value) => Ok(AbsArg::of_known(alloc, value)?),
        Err(FuncStop::Wide) => Err(OpRefusal::Wide),
        Err(FuncStop::Memory) => Err(OpRefusal::Memory),
    }
}

// The known values of arguments.
fn known_values(alloc: Global, args: &[AbsArg]) -> Result<Vec<Arg>, Memory>
    ensures { IfOk result (λ values. values.items ≡ map values_in args.now) }
{
    let mut values = Vec::new(alloc);
    for arg in args {
        values.push(arg.values(alloc)?)?;
    }
    Ok(values)
}
