// Why the names of a sheet state nothing.
ghost use Rattle.std.specs.Prelude.{◌≡◌};
ghost use Rattle.solver_names.specs.declared.fault.NamesFault.TheVariants as faults;

use cell_refs::Cell;
use memory::Memory;
use std::alloc::{AllocError, AllocFailed};
use thiserror::Error;

/// The first fault in the names of a sheet. Constraints are numbered from 1 on.
#[derive(Debug, Drop, Error)]
pub enum NamesFault {
    #[error("no cells to be decided are named")]
    NoNames,
    /// The name whose text isn't of its form.
    #[error("{0} is no reference")]
    BadReference(String),
    #[error("constraint {0} lacks a part")]
    MissingPart(u16),
    /// The constraint, and its code as it stands.
    #[error("constraint {0} has no relation of code {1}")]
    BadRelation(u16, String),
    /// The constraint, and how many cells its left and its right side have.
    #[error("constraint {0} has {1} cells on its left and {2} on its right")]
    SizeMismatch(u16, u32, u32),
    /// The constraint, and the first of its cells that isn't to be decided.
    #[error("constraint {0} is of a cell that isn't to be decided")]
    NotDecision(u16, Cell),
    /// The name whose text isn't of its form.
    #[error("{0} is no such option")]
    BadOption(String),
    #[error("{0} cells are to be decided")]
    TooManyDecisions(u32),
    #[error("there are {0} rows")]
    TooManyRows(u32),
    #[error("memory ran out")]
    Memory,
}

impl From<Memory> for NamesFault {
    ghost from_gives = { λ _ e. e ≡ faults.Memory };

    fn from(_: Memory) -> NamesFault {
        NamesFault::Memory
    }
}

impl From<AllocError> for NamesFault {
    ghost from_gives = { λ _ e. e ≡ faults.Memory };

    fn from(_: AllocError) -> NamesFault {
        NamesFault::Memory
    }
}

impl<T: Drop> From<AllocFailed<T>> for NamesFault {
    ghost from_gives = { λ _ e. e ≡ faults.Memory };

    fn from(_: AllocFailed<T>) -> NamesFault {
        NamesFault::Memory
    }
}
