// The nodes of a tree, whose parts have no places yet.
ghost use Rattle.std.specs.Prelude.{◌≡◌, ◌<◌, ◌∷◌, ◌++◌, [], ℕ, ℤ, All, Bool, IfOk, List, length, map, true};
ghost use Rattle.opt_certificate.specs.Nodes.{HasNarrowFloor, split_at};
ghost use Rattle.opt_certificate.specs.Trees.{node_of};
ghost use Rattle.search_paths.specs.Tables.{path_at};
ghost use Rattle.searches.specs.Trees.{Part, box_along, lower};
ghost use Rattle.search_trees.specs.Slots.{slot_at};
ghost use Rattle.search_trees.specs.Made.{AreMade, IsMade, MayBeMade};

use crate::leaf::solved;
use crate::slots::Slot;
use lin_model::LinModel;
use memory::Memory;
use opt_certificate::TreeNode;
use search_paths::Paths;
use std::alloc::Global;

// The split of which the node of this number is the lower part.
fn split(paths: &Paths, number: usize) -> TreeNode
    requires there { number < length paths.now.paths }
    requires lower { (j : ℕ) × (f : ℤ) × (ps : List Part)
        × (path_at paths.now number ≡ ps ++ lower j f ∷ []) }
    ensures split { (j : ℕ) (f : ℤ) (ps : List Part) → path_at paths.now number
        ≡ ps ++ lower j f ∷ [] → node_of result ≡ split_at j f 0 0 }
    ensures narrow { HasNarrowFloor (node_of result) }
{
    match paths.last_part(number) {
        None => unreachable!(),
        Some(part) => {
            let (decision, floor) = part.split();
            TreeNode::Split(decision, floor, 0, 0)
        }
    }
}

// The node of a number, by its slot.
fn node(
    alloc: Global,
    of: &LinModel,
    plain: bool,
    paths: &mut Paths,
    slot: Slot,
    number: usize,
) -> Result<TreeNode, Memory>
    requires there { number < length paths.old.paths }
    requires may { MayBeMade of.now plain paths.old.paths slot number }
    ensures made { IfOk result (λ n. IsMade of.now plain paths.old.paths slot number (node_of n)) }
    ensures narrow { IfOk result (λ n. HasNarrowFloor (node_of n)) }
    ensures same { paths.new ≡ paths.old }
{
    match slot {
        Slot::Waits => Ok(TreeNode::Best(Vec::new(alloc))),
        Slot::Parts(lower) => Ok(split(paths, lower as usize)),
        Slot::Clash(one, other) => Ok(TreeNode::Clash(one, other)),
        Slot::Leaf(pivots) => {
            let _whole = of.whole();
            let within = paths.box_of(alloc, of.bounds(), number)?;
            let program = of.standard(alloc, &within, plain)?;
            solved(alloc, &program, pivots)
        }
    }
}

/// The nodes of these numbers.
pub(crate) fn make_nodes(
    alloc: Global,
    of: &LinModel,
    plain: bool,
    paths: &mut Paths,
    slots: &[Slot],
    order: &[u32],
) -> Result<Vec<TreeNode>, Memory>
    requires slots { length slots.now ≡ length paths.old.paths }
    requires there { All (λ n. n < length paths.old.paths) order.now }
    requires may { All (λ n. MayBeMade of.now plain paths.old.paths (slot_at slots.now n) n)
        order.now }
    ensures made { IfOk result (λ v. AreMade of.now plain paths.old.paths slots.now order.now
        (map node_of v.items)) }
    ensures narrow { IfOk result (λ v. All HasNarrowFloor (map node_of v.items)) }
    ensures same { paths.new ≡ paths.old }
{
    let mut made = Vec::new(alloc);
    for number in order {
        let place = *number as usize;
        made.push(node(alloc, of, plain, paths, slots[place], place)?)?;
    }
    Ok(made)
}
