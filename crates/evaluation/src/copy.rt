// Copies of values.
ghost use Rattle.std.specs.Prelude.{◌≡◌, IfOk};

use sheet_model::{Arg, Memory};
use std::alloc::Global;

/// An equal value.
pub(crate) fn copy_of(alloc: Global, value: &Arg) -> Result<Arg, Memory>
    ensures { IfOk result (λ copy. copy ≡ value.now) }
{
    match value {
        Arg::One(value) => Ok(Arg::One(value.copy(alloc)?)),
        Arg::Area(grid) => Ok(Arg::Area(grid.copy(alloc)?)),
    }
}
