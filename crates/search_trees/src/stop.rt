ghost use Rattle.std.specs.Prelude.{◌≡◌};
ghost use Rattle.search_trees.specs.declared.stop.TreeStop.TheVariants as stops;

use memory::Memory;
use thiserror::Error;

/// Why there is no tree: the sum over its leaves of 1 and the rows of their programs is this, above 100,000; or there is no memory.
#[derive(Clone, Copy, Debug, PartialEq, Eq, Error)]
pub enum TreeStop {
    #[error("the tree has {0} leaves and rows")]
    TooLong(u64),
    #[error("memory ran out")]
    Memory,
}

impl From<Memory> for TreeStop {
    ghost from_gives = { λ _ e. e ≡ stops.Memory };

    fn from(_: Memory) -> TreeStop {
        TreeStop::Memory
    }
}
