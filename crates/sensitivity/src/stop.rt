// Why no prices come.
ghost use Rattle.std.specs.Prelude.{◌≡◌};
ghost use Rattle.sensitivity.specs.declared.stop.PriceStop.TheVariants as stops;

use memory::Memory;
use thiserror::Error;

/// Why no prices come: a pivot that is not narrow, with the basic variables, the leaving and the entering one; no units;
/// a row, by its place from 0 on, of which a sum or quotient is not narrow; or no memory.
#[derive(Debug, Drop, Error)]
pub enum PriceStop {
    #[error("a pivot is too wide")]
    WidePivot(Vec<u16>, u16, u16),
    #[error("no units are left")]
    Spent,
    #[error("the price or the range of the row at place {0} is too wide")]
    WideRange(u16),
    #[error("memory ran out")]
    Memory,
}

impl From<Memory> for PriceStop {
    ghost from_gives = { λ _ e. e ≡ stops.Memory };

    fn from(_: Memory) -> PriceStop {
        PriceStop::Memory
    }
}
