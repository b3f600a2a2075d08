// Going through the nodes of a tree in preorder.
ghost use Rattle.std.specs.Prelude.{◌≡◌, ◌≤◌, ◌<◌, ◌^◌, ◌+◌, ◌++◌, ◌∷◌, [], ℕ, ℤ, pos, ◌+ℤ◌, All, IfOk, List, OnOk, length, map};
ghost use Rattle.fractions.specs.Whole.{whole_ℚ};
ghost use Rattle.frac128.specs.Narrow.{IsNarrowWhole};
ghost use Rattle.linear_models.specs.Box.{Box};
ghost use Rattle.opt_certificate.specs.Certificate.{Tree, lower_child, upper_child};
ghost use Rattle.linear_models.specs.Laws.{IsBoxOf};
ghost use Rattle.linear_models.specs.Model.{IsValid};
ghost use Rattle.opt_certificate.specs.Nodes.{HasNarrowFloor, boxed, listing};
ghost use Rattle.opt_certificate.specs.Trees.{node_of};
ghost use Rattle.opt_certificate.specs.Walk.{Stepped, Walked, parts_of};

use crate::checking::CheckStop;
use crate::node::{LeafStop, node_proves};
use crate::tree::TreeNode;
use frac128::Frac;
use lin_model::{BoundBox, LinModel};
use memory::Memory;
use std::alloc::Global;

// A whole number that fits.
fn whole(n: i128) -> Frac
    requires { IsNarrowWhole n }
    ensures { result ≡ whole_ℚ n }
{
    match Frac::new(n, 1) {
        Some(number) => number,
        None => unreachable!(),
    }
}

// Adds the two parts of a split's box, the lower one last.
fn push_parts(
    alloc: Global,
    within: &BoundBox,
    decision: u16,
    floor: i128,
    boxes: &mut Vec<BoundBox>,
) -> Result<(), Memory>
    requires least { decision < length within.now.least }
    requires greatest { decision < length within.now.greatest }
    requires floor { IsNarrowWhole floor }
    requires above { IsNarrowWhole (floor +ℤ pos 1) }
    ensures { OnOk result (boxes.new.items ≡ boxes.old.items
        ++ upper_child within.now decision floor ∷ lower_child within.now decision floor ∷ []) }
{
    let upper = within.at_least(alloc, decision, whole(floor + 1))?;
    let lower = within.at_most(alloc, decision, whole(floor))?;
    boxes.push(upper)?;
    boxes.push(lower)?;
    Ok(())
}

// One node: its box is the last that waits, and after a yes the parts of a split wait in its place.
fn step(
    alloc: Global,
    of: &LinModel,
    node: &TreeNode,
    most: Option<Frac>,
    boxes: &mut Vec<BoundBox>,
) -> Result<bool, LeafStop>
    requires valid { IsValid of.now }
    requires floor { HasNarrowFloor (node_of node.now) }
    requires waits { 0 < length boxes.old.items }
    requires sized { All (IsBoxOf of.now) boxes.old.items }
    ensures { (rest : List Box) (box : Box) → boxes.old.items ≡ rest ++ box ∷ []
        → Stepped of.now most rest box (node_of node.now) boxes.new.items result }
{
    let Some(within) = boxes.pop() else {
        unreachable!();
    };
    if !node_proves(alloc, of, &within, node, most)? {
        return Ok(false);
    }
    match node {
        TreeNode::Split(decision, floor, _, _) => {
            push_parts(alloc, &within, *decision, *floor, boxes)?;
            Ok(true)
        }
        TreeNode::Best(_) => Ok(true),
        TreeNode::Empty(_) => Ok(true),
        TreeNode::Clash(_, _) => Ok(true),
    }
}

// The boxes that wait at the start: the model's own.
fn root(alloc: Global, of: &LinModel) -> Result<Vec<BoundBox>, Memory>
    ensures { IfOk result (λ v. v.items ≡ of.now.bounds ∷ []) }
{
    let mut boxes = Vec::new(alloc);
    boxes.push(of.bounds().copy(alloc)?)?;
    Ok(boxes)
}

// Goes through the nodes from the boxes that wait at the start.
fn walk(
    alloc: Global,
    of: &LinModel,
    nodes: &[TreeNode],
    most: &Option<Frac>,
    start: Vec<BoundBox>,
) -> Result<bool, CheckStop>
    requires valid { IsValid of.now }
    requires places { length nodes.now ≤ 2 ^ 32 }
    requires floors { All HasNarrowFloor (map node_of nodes.now) }
    requires tree { (t : Tree) × (map node_of nodes.now ≡ listing 0 t) }
    requires start { start.items ≡ of.now.bounds ∷ [] }
    ensures { (t : Tree) → map node_of nodes.now ≡ listing 0 t
        → Walked of.now most.now (boxed of.now.bounds t) result }
{
    let mut boxes = start;
    for (number, node) in nodes.iter().enumerate() {
        match step(alloc, of, node, *most, &mut boxes) {
            Ok(true) => {}
            Ok(false) => return Ok(false),
            Err(LeafStop::Wide) => return Err(CheckStop::Wide(number as u32)),
            Err(LeafStop::Memory) => return Err(CheckStop::Memory),
        }
    }
    Ok(true)
}

/// Whether each node of a tree proves what is asked of it.
pub(crate) fn nodes_prove(
    alloc: Global,
    of: &LinModel,
    nodes: &[TreeNode],
    most: Option<Frac>,
) -> Result<bool, CheckStop>
    requires valid { IsValid of.now }
    requires places { length nodes.now ≤ 2 ^ 32 }
    requires floors { All HasNarrowFloor (map node_of nodes.now) }
    requires tree { (t : Tree) × (map node_of nodes.now ≡ listing 0 t) }
    ensures { (t : Tree) → map node_of nodes.now ≡ listing 0 t
        → Walked of.now most (boxed of.now.bounds t) result }
{
    match root(alloc, of) {
        Ok(boxes) => walk(alloc, of, nodes, &most, boxes),
        Err(_) => Err(CheckStop::Memory),
    }
}
