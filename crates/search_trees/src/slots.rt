// What becomes of each node in the tree, by its number.
ghost use Rattle.std.specs.Prelude.{◌≡◌, ◌<◌, All, IfOk};
ghost use Rattle.search_trees.specs.Slots.{AreSlots, slot_of};

use branch_bound::{Ending, Visit};
use memory::Memory;
use std::alloc::Global;

/// A node waits, or was never opened; it is split, with the number of its lower part, which the upper part's follows; two
/// decisions clash; or it is another leaf, whose program's run has so many pivots.
#[derive(Clone, Copy)]
pub(crate) enum Slot {
    Waits,
    Parts(u32),
    Clash(u16, u16),
    Leaf(u32),
}

fn slot_of(visit: &Visit) -> Slot
    ensures { result ≡ slot_of visit.now }
{
    match visit.ending {
        Ending::Parts(lower) => Slot::Parts(lower),
        Ending::Clash(one, other) => Slot::Clash(one, other),
        Ending::Leaf => Slot::Leaf(visit.pivots),
    }
}

/// The slots of so many nodes, of which these were opened.
pub(crate) fn fill(alloc: Global, count: usize, opened: &[Visit]) -> Result<Vec<Slot>, Memory>
    requires { All (λ v. v.number < count) opened.now }
    ensures { IfOk result (λ v. AreSlots count opened.now v.items) }
{
    let mut made = vec![in alloc; Slot::Waits; count]?;
    for visit in opened {
        made[visit.number as usize] = slot_of(visit);
    }
    Ok(made)
}
