// Parts of formulas.
ghost use Rattle.std.specs.Prelude.{◌≡◌, IfOk, None, Some, option_map};
ghost use Rattle.recalculation.specs.Evaluation.{cell_value, filled};
ghost use Rattle.evaluation.specs.Composed.{plain};

use crate::looked::Looks;
use crate::referred::Referred;
use frac128::Frac;
use sheet_model::{Arg, Memory, Value};
use std::alloc::Global;
use std::marker::Model;

/// What a function takes of a part of a formula: the cells at which the part looks, its value on narrow numbers, where it has
/// one, and its cells where it is a reference.
#[derive(Drop)]
pub struct Part {
    pub(crate) looks: Looks,
    pub(crate) outcome: Option<Arg>,
    pub(crate) reference: Option<Referred>,
}

impl Model for Part {
    ghost use Rattle.recalculation.specs.Looks.{Argument};
    ghost use Rattle.sheet_model.specs.declared.grid.Arg.{Arg};

    ghost Value = { Argument Arg };

    ghost view = { λ p.
        record { looks = p.looks; outcome = p.outcome; reference = p.reference } };
}

impl Part {
    /// The cells at which it looks, in their order.
    pub fn looks(&self) -> &Looks
        ensures { result.now ≡ self.now.looks }
    {
        &self.looks
    }

    /// Its value on narrow numbers.
    pub fn outcome(&self) -> Option<&Arg>
        ensures { option_map (λ value. value.now) result ≡ self.now.outcome }
    {
        self.outcome.as_ref()
    }

    /// What it leaves in a cell.
    pub fn to_value(&self, alloc: Global) -> Result<Option<Value>, Memory>
        ensures { IfOk result (λ value. value ≡ option_map cell_value self.now.outcome) }
    {
        match &self.outcome {
            Some(arg) => Ok(Some(cell_value(alloc, arg)?)),
            None => Ok(None),
        }
    }

    /// A part that looks at some cells and has no value.
    pub(crate) fn without(looks: Looks) -> Part
        ensures { result ≡ record { looks = looks; outcome = None; reference = None } }
    {
        Part {
            looks,
            outcome: None,
            reference: None,
        }
    }

    /// A part that looks at nothing.
    pub(crate) fn plain(alloc: Global, value: Arg) -> Part
        ensures { result ≡ plain value }
    {
        Part {
            looks: Looks::new(alloc),
            outcome: Some(value),
            reference: None,
        }
    }
}

// What a value leaves in a cell: itself or the top left element of a grid, and 0 where that is empty.
fn cell_value(alloc: Global, arg: &Arg) -> Result<Value, Memory>
    ensures { IfOk result (λ value. value ≡ cell_value arg.now) }
{
    match arg {
        Arg::One(value) => zero_if_empty(alloc, value),
        Arg::Area(grid) => match grid.items() {
            [value, ..] => zero_if_empty(alloc, value),
            [] => zero_if_empty(alloc, &Value::Empty),
        },
    }
}

// A value, and 0 where it is empty.
fn zero_if_empty(alloc: Global, value: &Value) -> Result<Value, Memory>
    ensures { IfOk result (λ v. v ≡ filled value.now) }
{
    match value {
        Value::Empty => Ok(Value::Number(Frac::zero())),
        _ => value.copy(alloc),
    }
}
