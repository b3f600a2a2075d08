// The places of the parts of nodes in preorder.
ghost use Rattle.std.specs.Prelude.{◌≡◌, ◌≤◌, ◌^◌, OnOk, List, length, map};
ghost use Rattle.opt_certificate.specs.Certificate.{Tree as Certificate};
ghost use Rattle.opt_certificate.specs.Trees.{node_of};
ghost use Rattle.certificate_texts.specs.Forests.{ArePlaced, PartsSet, lines_of_trees, nodes_of_trees};
ghost use Rattle.certificate_texts.specs.Nodes.{node_line};

use memory::Memory;
use opt_certificate::TreeNode;
use std::alloc::Global;

// Gives a split the places of its parts, which are the last two where trees begin.
fn set_parts(node: &mut TreeNode, starts: &mut Vec<u32>)
    ensures { PartsSet (node_of node.old) starts.old.items (node_of node.new) starts.new.items }
{
    let TreeNode::Split(decision, floor, _, _) = &*node else {
        return;
    };
    let (decision, floor) = (*decision, *floor);
    let lower = starts.pop().unwrap_or(0);
    let upper = starts.pop().unwrap_or(0);
    *node = TreeNode::Split(decision, floor, lower, upper);
}

/// Gives each split of trees in preorder the places of its parts, from the last node to the first.
pub(crate) fn set_places(alloc: Global, nodes: &mut [TreeNode]) -> Result<(), Memory>
    requires { length nodes.old ≤ 2 ^ 32 }
    ensures { OnOk result ((ts : List Certificate)
        → map node_line (map node_of nodes.old) ≡ lines_of_trees ts
        → map node_of nodes.new ≡ nodes_of_trees 0 ts) }
{
    let mut starts: Vec<u32> = Vec::new(alloc);
    let mut place = nodes.len();
    while place > 0 {
        place -= 1;
        set_parts(&mut nodes[place], &mut starts);
        starts.push(place as u32)?;
    }
    Ok(())
}
