ghost use Rattle.std.specs.Prelude.{◌≡◌, ◌≢◌, ◌↔◌, Bool, Ok, IfOk, IsTrue, None, Option, Result, false};
ghost use Rattle.opt_certificate.specs.Certificate.{Tree as Certificate};
ghost use Rattle.opt_certificate.specs.Checks.{Checked};
ghost use Rattle.opt_certificate.specs.Nodes.{IsListed};
ghost use Rattle.opt_certificate.specs.declared.checking.CheckStop.{CheckStop};
ghost use Rattle.node_pick.specs.Rules.{Rule};
ghost use Rattle.searches.specs.Answers.{Answer, Says};
ghost use Rattle.searches.specs.Trails.{HasNoMarks};
ghost use Rattle.branch_bound.specs.Searches.{HasEnded};
ghost use Rattle.branch_bound.specs.States.{state_of};
ghost use Rattle.search_certificates.specs.Trees.{claim_of_answer};
ghost use Rattle.search_trees.specs.Trees.{IsOfSearch, IsUnboundedBy, LastTreeMade, TreeMade};

use crate::nodes::make_nodes;
use crate::order::preorder;
use crate::places::placed;
use crate::roots::last_root;
use crate::slots::fill;
use crate::stop::TreeStop;
use crate::weight::weigh;
use branch_bound::{Frontier, Search};
use lin_model::LinModel;
use opt_certificate::Tree;
use std::alloc::Global;

// The greatest sum over the leaves of a tree that is made.
const MOST_WEIGHT: u64 = 100_000;

// Whether some decision is to be whole.
fn has_marks(of: &LinModel) -> bool
    ensures { IsTrue result ↔ ¬ (HasNoMarks of.now) }
{
    let marks = of.whole();
    for decision in 0..marks.len() {
        if marks[decision] {
            return true;
        }
    }
    false
}

// Whether the answer is unbounded.
fn is_unbounded(of: &LinModel, frontier: &Frontier) -> bool
    ensures { IsTrue result ↔ IsUnboundedBy of.now frontier.now }
{
    if frontier.way.is_none() {
        return false;
    }
    frontier.found.is_some() || !has_marks(of)
}

// No tree.
fn none(alloc: Global) -> Tree
    ensures { IsListed result None }
{
    match Tree::from_nodes(Vec::new(alloc)) {
        Some(tree) => tree,
        None => unreachable!(),
    }
}

// The last tree of a search that is over.
fn last_tree(alloc: Global, of: &LinModel, frontier: &Frontier) -> Result<Tree, TreeStop>
    requires { IsOfSearch of.now (state_of frontier.now None) }
    ensures { LastTreeMade of.now (state_of frontier.now None) result }
{
    let _whole = of.whole();
    let slots = fill(alloc, frontier.paths.len(), &frontier.opened)?;
    let root = last_root(frontier);
    let order = preorder(alloc, &slots, root)?;
    let mut paths = frontier.paths.copy(alloc)?;
    let weight = weigh(alloc, of, &mut paths, &slots, &order)?;
    if MOST_WEIGHT < weight {
        return Err(TreeStop::TooLong(weight));
    }
    let plain = frontier.way.is_some();
    let nodes = make_nodes(alloc, of, plain, &mut paths, &slots, &order)?;
    Ok(placed(alloc, nodes)?)
}

/// The tree of a search that has ended, the last one where there are two: its splits are those of the search, each leaf that
/// was opened has what closed it, and one that still waits has no multipliers. After an unbounded answer it has no node.
pub fn tree(search: &Search) -> Result<Tree, TreeStop>
    requires ended { HasEnded search.now }
    ensures made { (a : Answer) → Says search.now.model search.now.state a
        → TreeMade search.now.model search.now.state a result }
    ensures accepted { IfOk result (λ t. (a : Answer) (tree : Option Certificate)
        (r : Result Bool CheckStop) → Says search.now.model search.now.state a → IsListed t tree
        → Checked search.now.model tree (claim_of_answer a) r → r ≢ Ok false) }
{
    let _units = search.units();
    let _whole = search.model().whole();
    let frontier = search.frontier();
    let alloc = *frontier.waiting.allocator();
    if is_unbounded(search.model(), frontier) {
        return Ok(none(alloc));
    }
    last_tree(alloc, search.model(), frontier)
}
