// What is made of one number.
ghost use Rattle.std.specs.Prelude.{◌≡◌, IfErr};
ghost use Rattle.form_ops.specs.Operands.{wanted_in};
ghost use Rattle.form_ops.specs.Refusals.{IsNoWant};
ghost use Rattle.form_ops.specs.declared.forms.Change.TheVariants as changes;
ghost use Rattle.form_ops.specs.Pairings.{change_row};
ghost use Rattle.form_table.specs.Wanted.{on_form};
ghost use Rattle.form_values.specs.Trials.{Answers};

use crate::number_tests::inverse;
use crate::operand::Operand;
use crate::results::{as_entry, fault};
use affine_forms::Form;
use form_values::{Abs, OpRefusal};
use frac128::Frac;
use std::alloc::Global;

/// What is done to a number: its sign is turned, it is divided by 100, or something is done that is not affine.
#[derive(Clone, Copy)]
pub(crate) enum Change {
    Minus,
    Percent,
    Bend,
}

/// What is made of what stands where a number is wanted.
pub(crate) fn on_form(alloc: Global, change: Change, operand: &Operand) -> Result<Abs, OpRefusal>
    ensures answer { Answers (on_form (change_row change) (wanted_in operand.now)) result }
    ensures in_place { change ≡ changes.Bend → IfErr result IsNoWant }
{
    match operand {
        Operand::Known(number) => change_of(change, &Form::constant(alloc, *number)),
        Operand::Open(form) => change_of(change, form),
        Operand::Test => Err(OpRefusal::Undecided(0)),
        Operand::Fault(kind) => Ok(fault(*kind)),
    }
}

// What is made of a form.
fn change_of(change: Change, form: &Form) -> Result<Abs, OpRefusal>
    ensures answer { Answers (change_row change form.now) result }
    ensures in_place { change ≡ changes.Bend → IfErr result IsNoWant }
{
    match change {
        Change::Minus => Ok(Abs::entry(form.neg()?)),
        Change::Percent => as_entry(form.scale(inverse(Frac::from_whole(100)))),
        Change::Bend => Err(OpRefusal::Break),
    }
}
