// What may stop an operator or a function.
ghost use Rattle.std.specs.Prelude.{◌≡◌};
ghost use Rattle.sheet_model.specs.declared.stop.FuncStop.TheVariants as stops;

use memory::Memory;
use std::alloc::{AllocError, AllocFailed};
use thiserror::Error;

/// Why an operator or a function has no value.
#[derive(Clone, Copy, Debug, PartialEq, Eq, Error)]
pub enum FuncStop {
    /// A number in its calculation doesn't fit 128 bits.
    #[error("a number is too wide")]
    Wide,
    #[error("memory ran out")]
    Memory,
}

impl From<Memory> for FuncStop {
    ghost from_gives = { λ _ e. e ≡ stops.Memory };

    fn from(_: Memory) -> FuncStop {
        FuncStop::Memory
    }
}

impl From<AllocError> for FuncStop {
    ghost from_gives = { λ _ e. e ≡ stops.Memory };

    fn from(_: AllocError) -> FuncStop {
        FuncStop::Memory
    }
}

impl<T: Drop> From<AllocFailed<T>> for FuncStop {
    ghost from_gives = { λ _ e. e ≡ stops.Memory };

    fn from(_: AllocFailed<T>) -> FuncStop {
        FuncStop::Memory
    }
}
