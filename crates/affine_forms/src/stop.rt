// What may stop an operation on forms.
ghost use Rattle.std.specs.Prelude.{◌≡◌};
ghost use Rattle.affine_forms.specs.declared.stop.FormStop.TheVariants as stops;

use frac128::Wide;
use memory::Memory;
use std::alloc::{AllocError, AllocFailed};
use thiserror::Error;

/// Why an operation on forms has no result.
#[derive(Clone, Copy, Debug, PartialEq, Eq, Error)]
pub enum FormStop {
    /// A number in its calculation doesn't fit 128 bits.
    #[error("a number is too wide")]
    Wide,
    #[error("memory ran out")]
    Memory,
}

impl From<Wide> for FormStop {
    ghost from_gives = { λ _ e. e ≡ stops.Wide };

    fn from(_: Wide) -> FormStop {
        FormStop::Wide
    }
}

impl From<Memory> for FormStop {
    ghost from_gives = { λ _ e. e ≡ stops.Memory };

    fn from(_: Memory) -> FormStop {
        FormStop::Memory
    }
}

impl From<AllocError> for FormStop {
    ghost from_gives = { λ _ e. e ≡ stops.Memory };

    fn from(_: AllocError) -> FormStop {
        FormStop::Memory
    }
}

impl<T: Drop> From<AllocFailed<T>> for FormStop {
    ghost from_gives = { λ _ e. e ≡ stops.Memory };

    fn from(_: AllocFailed<T>) -> FormStop {
        FormStop::Memory
    }
}
