// What arguments look at, and their values.
ghost use Rattle.std.specs.Prelude.{◌≡◌, ◌++◌, IfOk, List, OnOk, length, map};
ghost use Rattle.form_extraction.specs.Parts.{argument, on_parts};
ghost use Rattle.form_extraction.specs.declared.forms.Outcome.{Outcome};
ghost use Rattle.form_parts.specs.Steps.{IsForEach, given_values, on_values};
ghost use Rattle.form_values.specs.declared.abs.AbsArg.{AbsArg};
ghost use Rattle.recalculation.specs.Looks.{all_looks, outcomes};

use crate::part::Part;
use cell_refs::Cell;
use form_extraction::Outcome;
use form_values::AbsArg;
use memory::Memory;
use std::alloc::Global;

/// The values of some parts.
#[derive(Drop)]
pub enum Values {
    /// One for each part.
    All(Vec<AbsArg>),
    /// What the first part without a value comes to.
    Stop(Outcome),
}

/// The values of some parts, or what the first one without a value comes to.
pub fn values_of(alloc: Global, parts: &[Part]) -> Result<Values, Memory>
    ensures values { (f : List AbsArg → Outcome)
        → IfOk result (λ values. on_values values f ≡ on_parts parts.now f) }
    ensures given { IfOk result (λ values. given_values values
        ≡ outcomes (map argument parts.now)) }
    ensures count { IfOk result (λ values. IsForEach parts.now values) }
{
    let mut values = Vec::new(alloc);
    for part in parts {
        match &part.outcome {
            Outcome::Gives(value) => values.push(value.copy(alloc)?)?,
            Outcome::Refused(at, cause) => return Ok(Values::Stop(Outcome::Refused(*at, *cause))),
            Outcome::Without => return Ok(Values::Stop(Outcome::Without)),
        }
    }
    Ok(Values::All(values))
}

/// All that some arguments look at.
pub fn all_looks(alloc: Global, args: &[Part]) -> Result<Vec<Cell>, Memory>
    ensures { IfOk result (λ looks. looks.items ≡ all_looks (map argument args.now)) }
{
    let mut looks = Vec::new(alloc);
    push_looks(args, &mut looks)?;
    Ok(looks)
}

/// Puts all that some arguments look at behind other cells.
pub fn push_looks(args: &[Part], to: &mut Vec<Cell>) -> Result<(), Memory>
    ensures { OnOk result (to.new.items ≡ to.old.items ++ all_looks (map argument args.now)) }
{
    for arg in args {
        push_cells(&arg.looks, to)?;
    }
    Ok(())
}

/// Puts cells behind others.
pub fn push_cells(cells: &[Cell], to: &mut Vec<Cell>) -> Result<(), Memory>
    ensures { OnOk result (to.new.items ≡ to.old.items ++ cells.now) }
{
    for cell in cells {
        to.push(*cell)?;
    }
    Ok(())
}
