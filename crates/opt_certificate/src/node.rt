// What a node of a tree proves of its box.
ghost use Rattle.std.specs.Prelude.{◌≡◌, ◌≤◌, ◌<◌, ◌++◌, ◌∷◌, [], List, Some, length, map};
ghost use Rattle.linear_models.specs.Box.{Box};
ghost use Rattle.opt_certificate.specs.Certificate.{ProvesBest, ProvesEmpty, lower_child, upper_child};
ghost use Rattle.linear_models.specs.Model.{IsValid, is_whole_at};
ghost use Rattle.opt_certificate.specs.Checks.{NodeIsNarrow, NodeProves};
ghost use Rattle.opt_certificate.specs.Judged.{LeafJudged};
ghost use Rattle.opt_certificate.specs.Nodes.{HasNarrowFloor, best_leaf, empty_leaf};
ghost use Rattle.opt_certificate.specs.Trees.{node_of};
ghost use Rattle.opt_certificate.specs.declared.node.LeafStop.TheVariants as stops;
ghost use Rattle.linear_models.specs.Laws.{IsBoxOf};

use crate::clash::is_clash;
use crate::leaf::{is_best, is_contradictory};
use crate::tree::TreeNode;
use frac128::{Frac, Wide};
use lin_model::{BoundBox, LinModel};
use memory::Memory;
use std::alloc::Global;

/// Why a node has no answer.
#[derive(Clone, Copy, Debug, PartialEq, Eq, Drop)]
pub(crate) enum LeafStop {
    Wide,
    Memory,
}

impl From<Wide> for LeafStop {
    ghost from_gives = { λ _ e. e ≡ stops.Wide };

    fn from(_: Wide) -> LeafStop {
        LeafStop::Wide
    }
}

impl From<Memory> for LeafStop {
    ghost from_gives = { λ _ e. e ≡ stops.Memory };

    fn from(_: Memory) -> LeafStop {
        LeafStop::Memory
    }
}

// Whether the multipliers bound the objective on the box by that number.
fn proves_best(
    alloc: Global,
    of: &LinModel,
    within: &BoundBox,
    multipliers: &[Frac],
    most: Frac,
) -> Result<bool, LeafStop>
    requires valid { IsValid of.now }
    requires sized { IsBoxOf of.now within.now }
    ensures { LeafJudged (ProvesBest of.now (Some most) within.now multipliers.now)
        (NodeIsNarrow of.now (within.now, best_leaf multipliers.now)) result }
{
    let program = of.standard(alloc, within, false)?;
    Ok(is_best(&program, multipliers, most)?)
}

// Whether the multipliers leave the box no point.
fn proves_empty(
    alloc: Global,
    of: &LinModel,
    within: &BoundBox,
    multipliers: &[Frac],
) -> Result<bool, LeafStop>
    requires valid { IsValid of.now }
    requires sized { IsBoxOf of.now within.now }
    ensures { LeafJudged (ProvesEmpty of.now within.now multipliers.now)
        (NodeIsNarrow of.now (within.now, empty_leaf multipliers.now)) result }
{
    let program = of.standard(alloc, within, false)?;
    Ok(is_contradictory(&program, multipliers)?)
}

// Whether the decision is to be whole.
fn is_marked(marks: &[bool], decision: u16) -> bool
    ensures { result ≡ is_whole_at marks.now decision }
{
    let place = decision as usize;
    if place < marks.len() {
        marks[place]
    } else {
        false
    }
}

/// Whether the node proves what is asked of it: that no point of its box has a greater objective than `most`, or without
/// that number that the box has no point. A split is to be of a decision that is whole, and a clash of two decisions of one
/// group that are fixed to one number.
pub(crate) fn node_proves(
    alloc: Global,
    of: &LinModel,
    within: &BoundBox,
    node: &TreeNode,
    most: Option<Frac>,
) -> Result<bool, LeafStop>
    requires valid { IsValid of.now }
    requires sized { IsBoxOf of.now within.now }
    ensures { LeafJudged (NodeProves of.now most (within.now, node_of node.now))
        (NodeIsNarrow of.now (within.now, node_of node.now)) result }
{
    match node {
        TreeNode::Split(decision, _, _, _) => Ok(is_marked(of.whole(), *decision)),
        TreeNode::Best(multipliers) => match most {
            None => Ok(false),
            Some(number) => proves_best(alloc, of, within, multipliers, number),
        },
        TreeNode::Empty(multipliers) => proves_empty(alloc, of, within, multipliers),
        TreeNode::Clash(one, other) => Ok(is_clash(of.groups(), within, *one, *other)),
    }
}
