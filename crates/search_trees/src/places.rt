// The places of the parts of nodes in preorder.
ghost use Rattle.std.specs.Prelude.{◌≡◌, ◌≤◌, ◌^◌, All, IfOk, List, OnOk, length, map};
ghost use Rattle.opt_certificate.specs.Certificate.{Tree as Certificate};
ghost use Rattle.opt_certificate.specs.Nodes.{HasNarrowFloor, listing};
ghost use Rattle.opt_certificate.specs.Trees.{node_of};
ghost use Rattle.search_trees.specs.Preorders.{PartsSet, bare, nodes_of_trees, preorder, preorders};

use memory::Memory;
use opt_certificate::{Tree, TreeNode};
use std::alloc::Global;

// Gives a split the places of its parts, which are the last two where trees begin.
fn set_parts(node: &mut TreeNode, starts: &mut Vec<u32>)
    ensures { PartsSet (node_of node.old) starts.old.items (node_of node.new) starts.new.items }
{
    let TreeNode::Split(decision, floor, _, _) = &*node else {
        return;
    };
    let (decision, floor) = (*decision, *floor);
    let lower = starts.pop().unwrap_or(0);
    let upper = starts.pop().unwrap_or(0);
    *node = TreeNode::Split(decision, floor, lower, upper);
}

// Gives each split of trees in preorder the places of its parts, from the last node to the first.
fn set_places(alloc: Global, nodes: &mut [TreeNode]) -> Result<(), Memory>
    requires { length nodes.old ≤ 2 ^ 32 }
    ensures { OnOk result ((ts : List Certificate)
        → map bare (map node_of nodes.old) ≡ preorders ts
        → map node_of nodes.new ≡ nodes_of_trees 0 ts) }
{
    let mut starts: Vec<u32> = Vec::new(alloc);
    let mut place = nodes.len();
    while place > 0 {
        place -= 1;
        set_parts(&mut nodes[place], &mut starts);
        starts.push(place as u32)?;
    }
    Ok(())
}

/// The tree of nodes in preorder, whose parts have no places yet.
pub(crate) fn placed(alloc: Global, nodes: Vec<TreeNode>) -> Result<Tree, Memory>
    requires few { length nodes.items ≤ 2 ^ 32 }
    requires floors { All HasNarrowFloor (map node_of nodes.items) }
    requires tree { (t : Certificate) × (map bare (map node_of nodes.items) ≡ preorder t) }
    ensures { IfOk result (λ r. (t : Certificate)
        → map bare (map node_of nodes.items) ≡ preorder t → r ≡ listing 0 t) }
{
    let mut nodes = nodes;
    set_places(alloc, &mut nodes)?;
    match Tree::from_nodes(nodes) {
        Some(tree) => Ok(tree),
        None => unreachable!(),
    }
}
