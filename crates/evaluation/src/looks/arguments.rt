// What arguments look at, and their values.
ghost use Rattle.std.specs.Prelude.{◌≡◌, ◌++◌, IfOk, IfSome, OnOk, length, option_map};
ghost use Rattle.recalculation.specs.Looks.{all_looks, outcomes};

use crate::copy::copy_of;
use crate::looked::Looks;
use crate::part::Part;
use cell_refs::Cell;
use sheet_model::{Arg, Memory};
use std::alloc::Global;

/// All that some arguments look at.
pub(crate) fn all_looks(alloc: Global, args: &[Part]) -> Result<Looks, Memory>
    ensures { IfOk result (λ looks. looks ≡ all_looks args.now) }
{
    let mut looks = Looks::new(alloc);
    push_looks(args, &mut looks)?;
    Ok(looks)
}

/// Puts all that some arguments look at behind other cells.
pub(crate) fn push_looks(args: &[Part], to: &mut Looks) -> Result<(), Memory>
    ensures { OnOk result (to.new ≡ to.old ++ all_looks args.now) }
{
    for arg in args {
        to.extend(&arg.looks)?;
    }
    Ok(())
}

/// Puts cells behind others.
pub(crate) fn push_all(cells: &[Cell], to: &mut Looks) -> Result<(), Memory>
    ensures { OnOk result (to.new ≡ to.old ++ cells.now) }
{
    for cell in cells {
        to.push(*cell)?;
    }
    Ok(())
}

/// The values of some parts, where all have one.
pub(crate) fn outcomes(alloc: Global, parts: &[Part]) -> Result<Option<Vec<Arg>>, Memory>
    ensures values { IfOk result (λ found. option_map (λ v. v.items) found ≡ outcomes parts.now) }
    ensures count { IfOk result (λ found. IfSome found (λ v. length v.items ≡ length parts.now)) }
{
    let mut values = Vec::new(alloc);
    for part in parts {
        let Some(value) = part.outcome() else {
            return Ok(None);
        };
        values.push(copy_of(alloc, value)?)?;
    }
    Ok(Some(values))
}
