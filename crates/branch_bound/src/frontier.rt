ghost use Rattle.std.specs.Prelude.{◌≡◌, ◌<◌, ◌≤◌, ◌+◌, ◌^◌, ℕ, None, length, OnOk};
ghost use Rattle.branch_bound.specs.States.{HasRoom, IsListed, IsOrderly, IsSame, ending_of, state_of, waiting_of, with_child, with_opened, with_root};

use frac128::Frac;
use memory::Memory;
use node_pick::NodeInfo;
use search_paths::{Part, Paths};

/// What is kept of how a node ended: the number of the lower part of a split, which the upper part's follows; the two
/// decisions of a clash; or that it is neither.
#[derive(Clone, Copy)]
pub enum Ending {
    Parts(u32),
    Clash(u16, u16),
    Leaf,
}

/// A node that was opened and has ended: its number, the pivots made in it, how it ended, and its bound. It takes 64 bytes, as a
/// node that waits does.
#[derive(Drop)]
pub struct Visit {
    pub number: u32,
    pub pivots: u32,
    pub ending: Ending,
    pub bound: Option<Frac>,
}

/// A whole point and its value.
#[derive(Drop)]
pub struct Found {
    pub point: Vec<Frac>,
    pub value: Frac,
}

/// A point and a direction in which the objective improves without end.
#[derive(Drop)]
pub struct Way {
    pub point: Vec<Frac>,
    pub direction: Vec<Frac>,
}

/// The paths of all nodes by their numbers, the nodes that have ended in the order of their openings, those that wait in
/// rising number, and what was found.
#[derive(Drop)]
pub struct Frontier {
    pub paths: Paths,
    pub opened: Vec<Visit>,
    pub waiting: Vec<NodeInfo>,
    pub found: Option<Found>,
    pub way: Option<Way>,
}

/// Makes room for the end of one node more, and for what may wait after it.
pub(crate) fn reserve(frontier: &mut Frontier) -> Result<(), Memory>
    ensures same { IsSame frontier.old frontier.new }
    ensures room { OnOk result (HasRoom frontier.new 2) }
{
    frontier.paths.reserve(2)?;
    frontier.opened.reserve(1)?;
    frontier.waiting.reserve(2)?;
    Ok(())
}

/// A part of a node waits. Its bound is the value of that node's program.
pub(crate) fn wait_part(frontier: &mut Frontier, parent: &NodeInfo, part: Part, value: Frac)
    requires orderly { IsOrderly frontier.old }
    requires room { HasRoom frontier.old 1 }
    requires parent { IsListed frontier.old.paths.paths parent.now }
    requires few { length frontier.old.paths.paths < 2 ^ 32 }
    ensures state { state_of frontier.new None ≡ with_child (state_of frontier.old None)
        (waiting_of frontier.old.paths.paths parent.now) part value }
    ensures orderly { IsOrderly frontier.new }
    ensures room { (n : ℕ) → HasRoom frontier.old (n + 1) → HasRoom frontier.new n }
    ensures parent { IsListed frontier.new.paths.paths parent.now }
    ensures kept { waiting_of frontier.new.paths.paths parent.now
        ≡ waiting_of frontier.old.paths.paths parent.now }
    ensures one_more { length frontier.new.paths.paths ≡ length frontier.old.paths.paths + 1 }
{
    let number = frontier.paths.len() as u64;
    frontier.paths.push_part(parent.number as usize, part);
    frontier.waiting.push_reserved(NodeInfo {
        number,
        depth: parent.depth + 1,
        bound: Some(value),
    });
}

/// The root of a second tree waits, and no other node.
pub(crate) fn wait_root(frontier: &mut Frontier)
    requires orderly { IsOrderly frontier.old }
    requires room { HasRoom frontier.old 2 }
    ensures state { state_of frontier.new None ≡ with_root (state_of frontier.old None) }
    ensures orderly { IsOrderly frontier.new }
    ensures room { HasRoom frontier.new 0 }
    ensures kept { (info : NodeInfo) → info.number < length frontier.old.paths.paths
        → waiting_of frontier.new.paths.paths info ≡ waiting_of frontier.old.paths.paths info }
    ensures one_more { length frontier.new.paths.paths ≡ length frontier.old.paths.paths + 1 }
{
    let number = frontier.paths.len() as u64;
    frontier.paths.push_root();
    frontier.waiting.clear();
    frontier.waiting.push_reserved(NodeInfo {
        number,
        depth: 0,
        bound: None,
    });
}

/// The node has ended: it is kept with its pivots, and how it ended.
pub(crate) fn keep(frontier: &mut Frontier, info: &NodeInfo, pivots: u32, ending: Ending)
    requires orderly { IsOrderly frontier.old }
    requires room { HasRoom frontier.old 0 }
    requires there { info.now.number < length frontier.old.paths.paths }
    requires few { length frontier.old.paths.paths ≤ 2 ^ 32 }
    ensures state { state_of frontier.new None ≡ with_opened (state_of frontier.old None)
        (waiting_of frontier.old.paths.paths info.now) pivots (ending_of ending) }
    ensures orderly { IsOrderly frontier.new }
    ensures paths { frontier.new.paths ≡ frontier.old.paths }
{
    frontier.opened.push_reserved(Visit {
        number: info.number as u32,
        pivots,
        ending,
        bound: info.bound,
    });
}
