// How much a tree weighs.
ghost use Rattle.std.specs.Prelude.{◌≡◌, ◌<◌, ◌≤◌, ◌+◌, ◌^◌, All, IfOk, List, length};
ghost use Rattle.linear_models.specs.Box.{Box};
ghost use Rattle.linear_models.specs.Laws.{IsBoxOf};
ghost use Rattle.search_certificates.specs.Weights.{leaf_weight};
ghost use Rattle.search_paths.specs.Tables.{path_at};
ghost use Rattle.searches.specs.Trees.{box_along};
ghost use Rattle.search_trees.specs.Slots.{slot_at};
ghost use Rattle.search_trees.specs.Weights.{added, weight_at};

use crate::slots::Slot;
use lin_model::{BoundBox, LinModel};
use memory::Memory;
use search_paths::Paths;
use std::alloc::Global;

// That of a leaf with this box: 1, and the rows of its program.
fn leaf_weight(alloc: Global, of: &LinModel, within: &BoundBox) -> Result<u64, Memory>
    requires { IsBoxOf of.now within.now }
    ensures weight { IfOk result (λ w. w ≡ leaf_weight of.now within.now) }
    ensures light { IfOk result (λ w. w ≤ 1539) }
{
    let program = of.standard(alloc, within, false)?;
    Ok(1 + program.rows().len() as u64)
}

// That of a node: a split has none of its own.
fn weight_at(
    alloc: Global,
    of: &LinModel,
    paths: &mut Paths,
    slot: Slot,
    number: usize,
) -> Result<u64, Memory>
    requires there { number < length paths.old.paths }
    ensures weight { IfOk result (λ w. w
        ≡ weight_at of.now slot (box_along of.now.bounds (path_at paths.old number))) }
    ensures light { IfOk result (λ w. w ≤ 1539) }
    ensures same { paths.new ≡ paths.old }
{
    if let Slot::Parts(_) = slot {
        return Ok(0);
    }
    let _whole = of.whole();
    let within = paths.box_of(alloc, of.bounds(), number)?;
    leaf_weight(alloc, of, &within)
}

/// The sum over the leaves of 1 and the rows of their programs.
pub(crate) fn weigh(
    alloc: Global,
    of: &LinModel,
    paths: &mut Paths,
    slots: &[Slot],
    order: &[u32],
) -> Result<u64, Memory>
    requires slots { length slots.now ≡ length paths.old.paths }
    requires there { All (λ n. n < length paths.old.paths) order.now }
    requires few { length order.now ≤ 2 ^ 32 }
    ensures weight { IfOk result (λ w. w ≡ added of.now paths.old.paths slots.now order.now) }
    ensures same { paths.new ≡ paths.old }
{
    let mut weight = 0;
    for number in order {
        let place = *number as usize;
        weight += weight_at(alloc, of, paths, slots[place], place)?;
    }
    Ok(weight)
}
