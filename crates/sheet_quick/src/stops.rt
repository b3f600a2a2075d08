// Why there is no quick model, and why a parameter gets no value.
ghost use Rattle.std.specs.Prelude.{◌≡◌};
ghost use Rattle.sheet_quick.specs.declared.stops.NoGiven.TheVariants as given;
ghost use Rattle.sheet_quick.specs.declared.stops.NoQuick.TheVariants as none;

use cell_refs::Cell;
use form_needs::FormRefusal;
use memory::Memory;
use solver_names::NamesFault;

/// Why a sheet has no quick model with these parameters: the first of these.
#[derive(Drop)]
pub enum NoQuick {
    /// The text that names the parameters isn't a list of references, or is too long.
    BadReference,
    /// The first fault in the names of the sheet.
    Names(NamesFault),
    /// This cell, the first such one, is a decision or has no number, so that it can't be a parameter.
    NotParameter(Cell),
    /// Decisions and parameters are so many together, which is too many.
    TooManyParameters(u64),
    /// The first reason why a side or the objective has no form over decision cells and parameters.
    Form(FormRefusal),
    Memory,
}

impl From<Memory> for NoQuick {
    ghost from_gives = { λ _ e. e ≡ none.Memory };

    fn from(_: Memory) -> NoQuick {
        NoQuick::Memory
    }
}

/// Why a parameter gets no value: the first of these.
#[derive(Drop)]
pub enum NoGiven {
    /// The cell is no parameter.
    NotParameter,
    /// The text is no numeral that a cell can hold, or its number does not fit 128 bits.
    BadNumeral,
    /// Where the values are put into a side of this row, from 1, or into the objective, told as 0, a number does not fit 128 bits.
    WideSet(u16),
    /// The difference of the sides of this row, from 1, does not fit 128 bits.
    WideRow(u16),
    Memory,
}

impl From<Memory> for NoGiven {
    ghost from_gives = { λ _ e. e ≡ given.Memory };

    fn from(_: Memory) -> NoGiven {
        NoGiven::Memory
    }
}
