// Why a part of a formula has no form.
ghost use Rattle.std.specs.Prelude.{◌≡◌};
ghost use Rattle.form_values.specs.declared.refusal.OpRefusal.TheVariants as refusals;

use memory::Memory;
use std::alloc::{AllocError, AllocFailed};
use thiserror::Error;

/// Why a part of a formula has no form.
#[derive(Clone, Copy, Debug, PartialEq, Eq, Error)]
pub enum OpRefusal {
    #[error("the part is not affine")]
    Break,
    /// The argument at this place, from 0, decides what the part is, and its value is open.
    #[error("an open argument decides")]
    Undecided(usize),
    /// A number in its calculation doesn't fit 128 bits.
    #[error("a number is too wide")]
    Wide,
    #[error("memory ran out")]
    Memory,
}

impl From<Memory> for OpRefusal {
    ghost from_gives = { λ _ e. e ≡ refusals.Memory };

    fn from(_: Memory) -> OpRefusal {
        OpRefusal::Memory
    }
}

impl From<AllocError> for OpRefusal {
    ghost from_gives = { λ _ e. e ≡ refusals.Memory };

    fn from(_: AllocError) -> OpRefusal {
        OpRefusal::Memory
    }
}

impl<T: Drop> From<AllocFailed<T>> for OpRefusal {
    ghost from_gives = { λ _ e. e ≡ refusals.Memory };

    fn from(_: AllocFailed<T>) -> OpRefusal {
        OpRefusal::Memory
    }
}
