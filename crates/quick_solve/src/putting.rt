// Values put into the objective and into the sides of all rows.
ghost use Rattle.std.specs.Prelude.{◌≡◌, ◌≤◌, ◌+◌, length};
ghost use Rattle.std.specs.List.{AllByRecursion};
ghost use Rattle.std.specs.Result.{result_map_both};
ghost use Rattle.affine_forms.specs.Answers.{Answers};
ghost use Rattle.affine_forms.specs.Assigned.{ReachTo, assigned};
ghost use Rattle.parameter_laws.specs.Statements.{sides_put_in};
ghost use Rattle.quick_solve.specs.Inner.{AreSides, BothReach, IsObjective};

use crate::forms::put_in;
use crate::stop::QuickStop;
use affine_forms::{Form, FormStop};
use frac128::Frac;
use std::alloc::Global;

/// The objective with the values put in.
pub(crate) fn objective_at(
    alloc: Global,
    objective: &Form,
    decisions: u16,
    values: &[Frac],
) -> Result<Form, QuickStop>
    requires { ReachTo objective.now.terms (decisions + length values.now) }
    ensures { IsObjective decisions (assigned values.now) objective.now result }
{
    match put_in(alloc, objective, decisions, values) {
        Ok(left) => Ok(left),
        Err(FormStop::Wide) => Err(QuickStop::WideSet(0)),
        Err(FormStop::Memory) => Err(QuickStop::Memory),
    }
}

// Both sides of a row with the values put in, the left one first.
fn both_at(
    alloc: Global,
    sides: &(Form, Form),
    decisions: u16,
    values: &[Frac],
) -> Result<(Form, Form), FormStop>
    requires { BothReach (decisions + length values.now) sides.now }
    ensures { Answers (sides_put_in decisions (assigned values.now) sides.now) result }
{
    let left = put_in(alloc, &sides.0, decisions, values)?;
    let right = put_in(alloc, &sides.1, decisions, values)?;
    Ok((left, right))
}

/// The sides of all rows with the values put in.
pub(crate) fn sides_at(
    alloc: Global,
    sides: &[(Form, Form)],
    decisions: u16,
    values: &[Frac],
) -> Result<Vec<(Form, Form)>, QuickStop>
    requires few { length sides.now ≤ 256 }
    requires reach { AllByRecursion (BothReach (decisions + length values.now)) sides.now }
    ensures { AreSides decisions (assigned values.now) sides.now
        (result_map_both (λ left. left.items) (λ stop. stop) result) }
{
    let mut left = Vec::new(alloc);
    for (place, row) in sides.iter().enumerate() {
        match both_at(alloc, row, decisions, values) {
            Ok(both) => left.push(both)?,
            Err(FormStop::Wide) => return Err(QuickStop::WideSet(place as u16 + 1)),
            Err(FormStop::Memory) => return Err(QuickStop::Memory),
        }
    }
    Ok(left)
}
