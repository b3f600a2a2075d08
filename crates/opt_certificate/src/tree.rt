// Trees of splits with multipliers at the leaves.
ghost use Rattle.std.specs.Prelude.{◌≡◌, ◌↔◌, ◌<◌, ◌≤◌, ◌^◌, ◌+◌, ◌++◌, ℕ, ℤ, pos, ◌+ℤ◌, IsTrue, List, MatchOption, drop, length, map, slice_index_or};
ghost use Rattle.frac128.specs.Narrow.{IsNarrowWhole};
ghost use Rattle.opt_certificate.specs.Certificate.{Tree as Certificate};
ghost use Rattle.opt_certificate.specs.Nodes.{HasNarrowFloor, Node, listing, size};
ghost use Rattle.opt_certificate.specs.Parts.{IsRight, Part, PartsFrom};
ghost use Rattle.opt_certificate.specs.Trees.{IsTree, node_of};

use frac128::Frac;
use std::marker::Model;

/// A node: a split names its decision, its floor, and the places of its lower and its upper part; a leaf has the
/// multipliers of the rows of its box's standard program, or names two decisions of a group that are fixed to one number.
#[derive(Debug, Drop)]
pub enum TreeNode {
    Split(u16, i128, u32, u32),
    Best(Vec<Frac>),
    Empty(Vec<Frac>),
    Clash(u16, u16),
}

/// No node, or the nodes of one binary tree in preorder.
#[derive(Debug, Drop)]
pub struct Tree {
    nodes: Vec<TreeNode>,
}

impl Model for Tree {
    ghost use Rattle.std.specs.Prelude.{List, map};
    ghost use Rattle.opt_certificate.specs.Nodes.{Node};

    ghost Value = { List Node };

    ghost use Rattle.opt_certificate.specs.Trees.{IsTree, node_of};

    ghost view = { λ t. map node_of t.nodes.items };

    ghost invariant = { λ t. IsTree (map node_of t.nodes.items) };
}

impl Tree {
    /// The tree of these nodes; none where they are no tree in preorder, or a floor or the number above it does not fit.
    pub fn from_nodes(nodes: Vec<TreeNode>) -> Option<Tree>
        ensures { MatchOption result (¬ (IsTree (map node_of nodes.items)))
            (λ t. (t ≡ map node_of nodes.items) × IsTree t) }
    {
        if !is_tree(&nodes) {
            return None;
        }
        Some(Tree { nodes })
    }

    /// The nodes, in preorder.
    pub fn nodes(&self) -> &[TreeNode]
        ensures nodes { map node_of result.now ≡ self.now }
        ensures tree { IsTree self.now }
    {
        &self.nodes
    }
}

// The place behind the tree that begins at the given one.
fn part_end(nodes: &[TreeNode], start: usize) -> usize
    requires within { start < length nodes.now }
    requires parts { PartsFrom (map node_of nodes.now) start }
    ensures { (t : Certificate) (rest : List Node) → drop start (map node_of nodes.now)
        ≡ listing start t ++ rest → result ≡ start + size t }
{
    let mut place = start;
    loop {
        match &nodes[place] {
            TreeNode::Split(_, _, _, upper) => place = *upper as usize,
            TreeNode::Best(_) => return place + 1,
            TreeNode::Empty(_) => return place + 1,
            TreeNode::Clash(_, _) => return place + 1,
        }
    }
}

// The greatest floor that has a whole number above it that fits.
const MOST: i128 = i128::MAX - 1;

const LEAST: i128 = i128::MIN + 1;

// Whether the floor and the whole number above it fit.
fn is_narrow_floor(floor: i128) -> bool
    ensures { IsTrue result ↔ (IsNarrowWhole floor × IsNarrowWhole (floor +ℤ pos 1)) }
{
    LEAST <= floor && floor <= MOST
}

// Whether the split at a place has its parts where they are listed: the lower one behind it, and the upper one where that ends.
fn has_parts(nodes: &[TreeNode], place: usize, lower: usize, upper: usize) -> bool
    requires within { place < length nodes.now }
    requires parts { PartsFrom (map node_of nodes.now) (place + 1) }
    ensures { IsTrue result
        ↔ ((lower ≡ place + 1) × (upper < length nodes.now) × (t : Certificate) × (rest : List Node)
        × (drop (place + 1) (map node_of nodes.now) ≡ listing (place + 1) t ++ rest)
        × (upper ≡ (place + 1) + size t)) }
{
    if lower != place + 1 || upper >= nodes.len() || lower >= nodes.len() {
        return false;
    }
    part_end(nodes, place + 1) == upper
}

// Whether what is asked of the node at a place holds, where it does at all later ones.
fn is_right(nodes: &[TreeNode], place: usize) -> bool
    requires within { place < length nodes.now }
    requires parts { PartsFrom (map node_of nodes.now) (place + 1) }
    ensures { IsTrue result ↔ IsRight (map node_of nodes.now) place }
{
    match &nodes[place] {
        TreeNode::Split(_, floor, lower, upper) => {
            let number = *floor;
            if !is_narrow_floor(number) {
                return false;
            }
            has_parts(nodes, place, *lower as usize, *upper as usize)
        }
        TreeNode::Best(_) => true,
        TreeNode::Empty(_) => true,
        TreeNode::Clash(_, _) => true,
    }
}

// Whether it does at all places.
fn all_right(nodes: &[TreeNode]) -> bool
    ensures { IsTrue result ↔ ((i : ℕ) → i < length nodes.now → IsRight (map node_of nodes.now) i) }
{
    let mut place = nodes.len();
    while place > 0 {
        place -= 1;
        if !is_right(nodes, place) {
            return false;
        }
    }
    true
}

// Whether the nodes are no node or one tree's, and each floor fits.
fn is_tree(nodes: &[TreeNode]) -> bool
    ensures { IsTrue result ↔ IsTree (map node_of nodes.now) }
{
    if nodes.len() as u64 > MOST_PLACES {
        return false;
    }
    if !all_right(nodes) {
        return false;
    }
    if nodes.is_empty() {
        return true;
    }
    part_end(nodes, 0) == nodes.len()
}

// How many nodes a tree whose places fit 32 bits can have.
const MOST_PLACES: u64 = 1 << 32;
