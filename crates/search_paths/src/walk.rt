ghost use Rattle.std.specs.Prelude.{◌≡◌, ◌<◌, ◌++◌, ◌∷◌, [], List, IfOk, OnErr, OnOk, length, slice_get};
ghost use Rattle.searches.specs.Trees as trees;
ghost use Rattle.search_paths.specs.Tables.{AreBefore};
ghost use Rattle.search_paths.specs.Walks.{IsAt, IsLed, IsWay, box_of};

use crate::boxes::{bound_in, copy_bounds, is_same_box, narrow, restore};
use crate::origin::{Origin, part_of};
use crate::part::Part;
use frac128::Frac;
use lin_model::BoundBox;
use memory::Memory;
use std::alloc::Global;

/// The box of one node, which is led from node to node: the box of the roots, the node's number, the bounds of its own box,
/// and the bound in whose place each part of its path put another, the last part's last.
#[derive(Drop)]
pub(crate) struct Walk {
    pub root: BoundBox,
    pub at: usize,
    pub least: Vec<Option<Frac>>,
    pub greatest: Vec<Option<Frac>>,
    pub replaced: Vec<Option<Frac>>,
}

/// A walk that stands at the first node, in a box without decisions.
pub(crate) fn nowhere(alloc: Global) -> Walk
    ensures led { IsLed [] result }
    ensures at { result.at ≡ 0 }
{
    Walk {
        root: BoundBox::new(Vec::new(alloc), Vec::new(alloc)),
        at: 0,
        least: Vec::new(alloc),
        greatest: Vec::new(alloc),
        replaced: Vec::new(alloc),
    }
}

// A walk that stands at the first node, where the roots have that box.
fn start(alloc: Global, root: &BoundBox) -> Result<Walk, Memory>
    ensures led { IfOk result (IsLed []) }
    ensures at { IfOk result (λ w. w.at ≡ 0) }
    ensures root { IfOk result (λ w. w.root ≡ root.now) }
{
    Ok(Walk {
        root: root.copy(alloc)?,
        at: 0,
        least: copy_bounds(alloc, root.least())?,
        greatest: copy_bounds(alloc, root.greatest())?,
        replaced: Vec::new(alloc),
    })
}

/// The walk begins anew, unless the roots have that box already.
pub(crate) fn begin(alloc: Global, walk: &mut Walk, root: &BoundBox) -> Result<(), Memory>
    ensures at { (origins : List Origin) → 0 < length origins → AreBefore origins
        → IsAt origins walk.old → IsAt origins walk.new }
    ensures root { OnOk result (walk.new.root ≡ root.now) }
{
    if is_same_box(&walk.root, root) {
        return Ok(());
    }
    *walk = start(alloc, root)?;
    Ok(())
}

// The box is led from that of the path with the part to that of the path without it.
fn undo(walk: &mut Walk, part: &Part)
    ensures led { (path : List trees.Part) → IsLed (path ++ part.now ∷ []) walk.old
        → IsLed path walk.new }
    ensures root { walk.new.root ≡ walk.old.root }
    ensures at { walk.new.at ≡ walk.old.at }
{
    if let Some(bound) = walk.replaced.pop() {
        restore(part, &mut walk.least, &mut walk.greatest, bound);
    }
}

// The box is led from that of a path to that of the path with the part.
fn make(walk: &mut Walk, part: &Part) -> Result<(), Memory>
    ensures led { OnOk result ((path : List trees.Part) → IsLed path walk.old
        → IsLed (path ++ part.now ∷ []) walk.new) }
    ensures err { OnErr result ((path : List trees.Part) → IsLed path walk.old
        → IsLed path walk.new) }
    ensures root { walk.new.root ≡ walk.old.root }
    ensures at { walk.new.at ≡ walk.old.at }
{
    walk.replaced.reserve(1)?;
    let before = bound_in(part, &walk.least, &walk.greatest);
    narrow(part, &mut walk.least, &mut walk.greatest);
    walk.replaced.push_reserved(before);
    Ok(())
}

// From a node to the one before it: to its parent, or from a root to the first node.
fn step_up(walk: &mut Walk, origins: &[Origin])
    requires placed { AreBefore origins.now }
    requires at { IsAt origins.now walk.old }
    requires later { 0 < walk.old.at }
    ensures at { IsAt origins.now walk.new }
    ensures before { walk.new.at < walk.old.at }
    ensures root { walk.new.root ≡ walk.old.root }
{
    let origin = &origins[walk.at];
    walk.at = origin.parent;
    if let Some(part) = part_of(origin) {
        undo(walk, &part);
    }
}

// To a node from the one before it.
fn step_down(walk: &mut Walk, origins: &[Origin], number: usize) -> Result<(), Memory>
    requires placed { AreBefore origins.now }
    requires at { IsAt origins.now walk.old }
    requires there { number < length origins.now }
    requires next { (o : Origin) → slice_get origins.now number ≡ Some o → o.parent ≡ walk.old.at }
    ensures at { IsAt origins.now walk.new }
    ensures there { OnOk result (walk.new.at ≡ number) }
    ensures root { walk.new.root ≡ walk.old.root }
{
    let Some(part) = part_of(&origins[number]) else {
        walk.at = number;
        return Ok(());
    };
    make(walk, &part)?;
    walk.at = number;
    Ok(())
}

// Goes up to the last node through which one comes to both the walk's node and the other, and answers the nodes from there
// to the other, the last one first.
fn go_up(
    alloc: Global,
    walk: &mut Walk,
    origins: &[Origin],
    number: usize,
) -> Result<Vec<usize>, Memory>
    requires placed { AreBefore origins.now }
    requires at { IsAt origins.now walk.old }
    requires there { number < length origins.now }
    ensures at { IsAt origins.now walk.new }
    ensures way { IfOk result (λ v. IsWay origins.now v.items walk.new.at number) }
    ensures root { walk.new.root ≡ walk.old.root }
{
    let mut way = Vec::new(alloc);
    let mut below = number;
    while walk.at != below {
        if walk.at < below {
            way.push(below)?;
            below = origins[below].parent;
        } else {
            step_up(walk, origins);
        }
    }
    Ok(way)
}

/// Leads the box to the node of that number, by the parts between the two.
pub(crate) fn lead(
    alloc: Global,
    walk: &mut Walk,
    origins: &[Origin],
    number: usize,
) -> Result<(), Memory>
    requires placed { AreBefore origins.now }
    requires at { IsAt origins.now walk.old }
    requires there { number < length origins.now }
    ensures at { IsAt origins.now walk.new }
    ensures there { OnOk result (walk.new.at ≡ number) }
    ensures root { walk.new.root ≡ walk.old.root }
{
    let mut way = go_up(alloc, walk, origins, number)?;
    while let Some(next) = way.pop() {
        step_down(walk, origins, next)?;
    }
    Ok(())
}

/// The box where the walk stands.
pub(crate) fn copy_box(alloc: Global, walk: &Walk) -> Result<BoundBox, Memory>
    ensures { IfOk result (λ b. b ≡ box_of walk.now) }
{
    let least = copy_bounds(alloc, &walk.least)?;
    let greatest = copy_bounds(alloc, &walk.greatest)?;
    Ok(BoundBox::new(least, greatest))
}
