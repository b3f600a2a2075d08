// Why a statement has no linear model.
ghost use Rattle.std.specs.Prelude.{◌≡◌};
ghost use Rattle.lin_model.specs.declared.stop.BuildStop.TheVariants as stops;

use memory::Memory;
use std::alloc::{AllocError, AllocFailed};
use thiserror::Error;

/// Why a statement has no linear model.
#[derive(Clone, Copy, Debug, PartialEq, Eq, Error)]
pub enum BuildStop {
    /// A number in the difference of the two sides of this row doesn't fit 128 bits.
    /// Rows are numbered from 1; the one of a value that is to be reached is the last.
    #[error("row {0} is too wide")]
    WideRow(u16),
    #[error("memory ran out")]
    Memory,
}

impl From<Memory> for BuildStop {
    ghost from_gives = { λ _ e. e ≡ stops.Memory };

    fn from(_: Memory) -> BuildStop {
        BuildStop::Memory
    }
}

impl From<AllocError> for BuildStop {
    ghost from_gives = { λ _ e. e ≡ stops.Memory };

    fn from(_: AllocError) -> BuildStop {
        BuildStop::Memory
    }
}

impl<T: Drop> From<AllocFailed<T>> for BuildStop {
    ghost from_gives = { λ _ e. e ≡ stops.Memory };

    fn from(_: AllocFailed<T>) -> BuildStop {
        BuildStop::Memory
    }
}
