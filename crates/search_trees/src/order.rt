// The numbers of the nodes of a tree in preorder.
ghost use Rattle.std.specs.Prelude.{◌≡◌, ◌<◌, ◌≤◌, ◌^◌, IfOk, length};
ghost use Rattle.search_trees.specs.Orders.{AreApart, AreLater, IsPreorder};

use crate::slots::Slot;
use memory::Memory;
use std::alloc::Global;

// The greatest number of nodes whose numbers fit 32 bits; a search has far fewer.
const MOST_NODES: u64 = 1 << 32;

/// The numbers of the nodes of the tree of a root, in preorder, the lower part of a split first. The parts of a split are
/// later nodes, and those of no other one.
pub(crate) fn preorder(alloc: Global, slots: &[Slot], root: usize) -> Result<Vec<u32>, Memory>
    requires root { root < length slots.now }
    requires later { AreLater root slots.now }
    requires apart { AreApart root slots.now }
    ensures order { IfOk result (λ v. IsPreorder slots.now root v.items) }
    ensures few { IfOk result (λ v. length v.items ≤ length slots.now) }
    ensures fits { IfOk result (λ _. length slots.now ≤ 2 ^ 32) }
{
    if slots.len() as u64 > MOST_NODES {
        return Err(Memory);
    }
    let mut order = Vec::new(alloc);
    let mut waiting = Vec::new(alloc);
    waiting.push(root as u32)?;
    while let Some(number) = waiting.pop() {
        order.push(number)?;
        if let Slot::Parts(lower) = slots[number as usize] {
            waiting.push(lower + 1)?;
            waiting.push(lower)?;
        }
    }
    Ok(order)
}
