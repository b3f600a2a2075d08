// SUMIF and COUNTIF.
ghost use Rattle.std.specs.Prelude.{◌≡◌, ◌<◌, ◌^◌, IfOk, IsOk, IsOkUnless, Some, filter, length, map, zip};
ghost use Rattle.fractions.specs.Rational.{zero_ℚ};
ghost use Rattle.sheet_model.specs.declared.stop.FuncStop.TheVariants as stops;
ghost use Rattle.sheet_funcs.specs.Tallies.{tally_or_error};
ghost use Rattle.sheet_funcs.specs.declared.tally.Tally.TheVariants.{Total};
ghost use Rattle.calculations.specs.Calculation.{exact};
ghost use Rattle.formula_ast.specs.Functions.{Takes};
ghost use Rattle.formula_ast.specs.declared.func.Func.TheVariants as func;
ghost use Rattle.sheet_model.specs.Answers.{Answers};
ghost use Rattle.sheet_model.specs.declared.value.Value.{Value};
ghost use Rattle.sheet_funcs.specs.Arguments.{of_two};
ghost use Rattle.sheet_funcs.specs.Criteria.{countif_of, sumif_by, sumif_of};
ghost use Rattle.sheet_funcs.specs.ReadCriteria.{is_met};
ghost use Rattle.sheet_funcs.specs.Items.{numbers_among};

use crate::answers::{fault, number};
use crate::criterion::{Criterion, read};
use crate::given::{full_elements, value_or_error};
use crate::items::{columns_of, elements_of, rows_of};
use crate::sums::sum_answer;
use crate::tally::Tally;
use cell_refs::ErrorKind;
use frac128::Frac;
use sheet_model::{Arg, FuncStop, Value};

/// SUMIF: the sum of the numbers of the third grid, or of the first where there is no third, in the places where the first meets
/// the criterion.
pub fn sumif(args: &[Arg]) -> Result<Arg, FuncStop>
    requires { Takes func.SumIf (length args.now) }
    ensures exact { IfOk result (λ answer. answer ≡ exact (sumif_of args.now)) }
    ensures narrow { Answers (sumif_of args.now) result }
    ensures stop { IsOkUnless result stops.Wide }
{
    match args {
        [tested, criterion] => sum_by(tested, criterion, tested),
        [tested, criterion, summed] => sum_by(tested, criterion, summed),
        _ => unreachable!(),
    }
}

// The sum over the second grid's numbers in the places where the first one meets the criterion.
fn sum_by(tested: &Arg, criterion: &Arg, others: &Arg) -> Result<Arg, FuncStop>
    ensures answer { Answers (sumif_by tested.now criterion.now others.now) result }
    ensures stop { IsOkUnless result stops.Wide }
{
    let criterion = match value_or_error(criterion) {
        Ok(criterion) => read(criterion),
        Err(kind) => return Ok(fault(kind)),
    };
    if rows_of(tested) != rows_of(others) || columns_of(tested) != columns_of(others) {
        return Ok(fault(ErrorKind::Value));
    }
    sum_answer(total_met(&criterion, full_elements(tested), full_elements(others)))
}

// The sum of the numbers of the second list in the places where the first one meets the criterion, or the first error there.
fn total_met(
    criterion: &Criterion<'_>,
    tested: &[Value],
    others: &[Value],
) -> Result<Option<Frac>, ErrorKind>
    requires { length tested.now ≡ length others.now }
    ensures { result
        ≡ tally_or_error Total (Some zero_ℚ) (numbers_among (map (λ (p : Value × Value). p.1)
        (filter (λ (p : Value × Value). is_met criterion.now p.0) (zip tested.now others.now)))) }
{
    let mut total = Some(Frac::zero());
    for (place, item) in tested.iter().enumerate() {
        if !criterion.is_met(item) {
            continue;
        }
        total = Tally::Total.of_item(total, &others[place])?;
    }
    Ok(total)
}

/// COUNTIF: how many elements meet the criterion.
pub fn countif(args: &[Arg]) -> Result<Arg, FuncStop>
    requires { Takes func.CountIf (length args.now) }
    ensures exact { IfOk result (λ answer. answer ≡ exact (of_two countif_of args.now)) }
    ensures narrow { Answers (of_two countif_of args.now) result }
    ensures answer { IsOk result }
{
    let [tested, criterion] = args else {
        unreachable!();
    };
    match value_or_error(criterion) {
        Ok(criterion) => {
            let count = count_met(&read(criterion), elements_of(tested));
            Ok(number(Frac::from_whole(count as i64)))
        }
        Err(kind) => Ok(fault(kind)),
    }
}

// How many elements meet the criterion.
fn count_met(criterion: &Criterion<'_>, items: &[Value]) -> usize
    ensures count { result ≡ length (filter (is_met criterion.now) items.now) }
    ensures within { result < 2 ^ 63 }
{
    items.iter().filter(|item| criterion.is_met(item)).count()
}
