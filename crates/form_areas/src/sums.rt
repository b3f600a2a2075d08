// SUM, AVERAGE and COUNT.
ghost use Rattle.std.specs.Prelude.{◌≡◌, IsOk, false, length};
ghost use Rattle.std.specs.List.{list_all};
ghost use Rattle.form_ops.specs.Truths.{IsTrueCall};
ghost use Rattle.form_table.specs.Items.{average_form, forms_of, mean, sum_form};
ghost use Rattle.form_table.specs.Table.{row_of};
ghost use Rattle.form_values.specs.Known.{all_known};
ghost use Rattle.form_values.specs.Trials.{Answers};
ghost use Rattle.formula_ast.specs.Functions.{Takes};
ghost use Rattle.formula_ast.specs.declared.func.Func.TheVariants as func;

use crate::counting::{count_items, count_numbers, whole};
use crate::items::{first_error, first_open, total};
use cell_refs::ErrorKind;
use form_ops::{as_entry, as_one, fault, form_refusal, inverse};
use form_values::{Abs, AbsArg, OpRefusal};
use sheet_model::Value;
use std::alloc::Global;

/// SUM: the sum of the numbers of all arguments; an open logical in an area is skipped, and one by itself is undecided.
pub fn sum(alloc: Global, args: &[AbsArg]) -> Result<AbsArg, OpRefusal>
    requires takes { Takes func.Sum (length args.now) }
    requires open_argument { list_all all_known args.now ≡ false }
    ensures answer { Answers (row_of func.Sum args.now) result }
    ensures right { IsTrueCall func.Sum args.now result }
{
    sum_of(alloc, args)
}

// What is made of the sum: an error among the numbers, or an open logical in the place of one, comes first.
fn sum_of(alloc: Global, args: &[AbsArg]) -> Result<AbsArg, OpRefusal>
    ensures { Answers (sum_form args.now) result }
{
    if let Some(kind) = first_error(args) {
        return Ok(AbsArg::One(fault(kind)));
    }
    if let Some(argument) = first_open(args) {
        return Err(OpRefusal::Undecided(argument));
    }
    as_one(as_entry(total(alloc, args)))
}

/// AVERAGE: the sum divided by how many numbers there are; an open logical in an area is skipped, and one by itself is undecided.
pub fn average(alloc: Global, args: &[AbsArg]) -> Result<AbsArg, OpRefusal>
    requires takes { Takes func.Average (length args.now) }
    requires open_argument { list_all all_known args.now ≡ false }
    ensures answer { Answers (row_of func.Average args.now) result }
    ensures right { IsTrueCall func.Average args.now result }
{
    average_of(alloc, args)
}

// What is made of the mean: an error among the numbers, or an open logical in the place of one, comes first.
fn average_of(alloc: Global, args: &[AbsArg]) -> Result<AbsArg, OpRefusal>
    ensures { Answers (average_form args.now) result }
{
    if let Some(kind) = first_error(args) {
        return Ok(AbsArg::One(fault(kind)));
    }
    if let Some(argument) = first_open(args) {
        return Err(OpRefusal::Undecided(argument));
    }
    as_one(mean(alloc, args))
}

// The sum of the numbers of all arguments divided by how many there are.
fn mean(alloc: Global, args: &[AbsArg]) -> Result<Abs, OpRefusal>
    ensures { Answers (mean (forms_of args.now)) result }
{
    let count = count_items(args);
    if count == 0 {
        return Ok(fault(ErrorKind::Div0));
    }
    match total(alloc, args) {
        Ok(total) => as_entry(total.scale(inverse(whole(count)))),
        Err(stop) => Err(form_refusal(stop)),
    }
}

/// COUNT: how many numbers there are, also open ones; errors and what is no number are left out.
pub fn count(args: &[AbsArg]) -> Result<AbsArg, OpRefusal>
    requires takes { Takes func.Count (length args.now) }
    requires open_argument { list_all all_known args.now ≡ false }
    ensures answer { Answers (row_of func.Count args.now) result }
    ensures right { IsTrueCall func.Count args.now result }
    ensures given { IsOk result }
{
    Ok(AbsArg::One(Abs::Known(Value::Number(whole(count_numbers(args))))))
}
