ghost use Rattle.std.specs.Prelude.{◌≡◌, ◌<◌, ◌≤◌, ◌+◌, ◌^◌, ◌↔◌, ◌∷◌, [], ℤ, pos, ◌+ℤ◌, None, length, option_map};
ghost use Rattle.fractions.specs.Rational.{ℚ};
ghost use Rattle.frac128.specs.Narrow.{IsNarrowWhole};
ghost use Rattle.node_pick.specs.Messages.{Hears, news};
ghost use Rattle.searches.specs.Trees as trees;
ghost use Rattle.searches.specs.Trails as trails;
ghost use Rattle.searches.specs.Messages.{news_of};
ghost use Rattle.search_ends.specs.Ends.{HasNarrowParts, end_at};
ghost use Rattle.branch_bound.specs.States.{HasRoom, IsListed, IsOrderly, IsReady, IsReadyIf, state_of, value_of, waiting_of};
ghost use Rattle.branch_bound.specs.Told.{Became};

use crate::frontier::{Ending, Found, Frontier, Way, keep, wait_part, wait_root};
use crate::work::Work;
use frac128::Frac;
use lin_model::LinModel;
use node_pick::{NodeEvent, NodeInfo, Picker};
use search_ends::{NodeEnd, NodeRun, run_of};
use search_paths::Part;

// The value of the point found, if one is found.
fn best_value(frontier: &Frontier) -> Option<Frac>
    ensures { result ≡ option_map value_of frontier.now.found }
{
    match &frontier.found {
        None => None,
        Some(found) => Some(found.value),
    }
}

// The node ends without a point, or with one that is no better than the one found.
fn close(frontier: &mut Frontier, info: &NodeInfo, pivots: u32, pick: &mut Box<dyn Picker>)
    requires room { HasRoom frontier.old 2 }
    requires orderly { IsOrderly frontier.old }
    requires node { IsListed frontier.old.paths.paths info.now }
    requires few { length frontier.old.paths.paths < 2 ^ 32 }
    ensures ended { state_of frontier.new None ≡ trails.ended (state_of frontier.old None)
        (waiting_of frontier.old.paths.paths info.now) pivots trees.empty }
    ensures orderly { IsOrderly frontier.new }
    ensures rule { rule pick.new ≡ rule pick.old }
    ensures heard { Hears (heard pick.old) (heard pick.new)
        (news (news_of info.now.number (length frontier.old.paths.paths) (trees.empty)) ∷ []) }
{
    keep(frontier, info, pivots, Ending::Leaf);
    pick.told(NodeEvent::Closed(info.number));
}

// The node ends at a clash: the two decisions of a group are fixed to one number.
fn clash(
    frontier: &mut Frontier,
    info: &NodeInfo,
    pivots: u32,
    one: u16,
    other: u16,
    pick: &mut Box<dyn Picker>,
)
    requires room { HasRoom frontier.old 2 }
    requires orderly { IsOrderly frontier.old }
    requires node { IsListed frontier.old.paths.paths info.now }
    requires few { length frontier.old.paths.paths < 2 ^ 32 }
    ensures ended { (value : ℚ) → state_of frontier.new None ≡ trails.ended (state_of frontier.old None)
        (waiting_of frontier.old.paths.paths info.now) pivots (trees.clash one other value) }
    ensures orderly { IsOrderly frontier.new }
    ensures rule { rule pick.new ≡ rule pick.old }
    ensures heard { Hears (heard pick.old) (heard pick.new)
        (news (news_of info.now.number (length frontier.old.paths.paths) (trees.empty)) ∷ []) }
{
    keep(frontier, info, pivots, Ending::Clash(one, other));
    pick.told(NodeEvent::Closed(info.number));
}

// The node ends with a better whole point.
fn find(frontier: &mut Frontier, work: Work, value: Frac, pick: &mut Box<dyn Picker>)
    requires room { HasRoom frontier.old 2 }
    requires orderly { IsOrderly frontier.old }
    requires node { IsListed frontier.old.paths.paths work.info }
    requires few { length frontier.old.paths.paths < 2 ^ 32 }
    ensures ended { state_of frontier.new None
        ≡ trails.ended (state_of frontier.old None) (waiting_of frontier.old.paths.paths work.info)
        work.pivots (trees.whole work.point.items value) }
    ensures orderly { IsOrderly frontier.new }
    ensures rule { rule pick.new ≡ rule pick.old }
    ensures heard { Hears (heard pick.old) (heard pick.new) (news (news_of work.info.number
        (length frontier.old.paths.paths) (trees.whole work.point.items value)) ∷ []) }
{
    let number = work.info.number;
    keep(frontier, &work.info, work.pivots, Ending::Leaf);
    frontier.found = Some(Found {
        point: work.point,
        value,
    });
    pick.told(NodeEvent::Whole(number));
}

// The node is split at the decision, where its point has that floor: its two parts wait.
fn split(
    frontier: &mut Frontier,
    info: &NodeInfo,
    pivots: u32,
    decision: u16,
    floor: i128,
    value: Frac,
    pick: &mut Box<dyn Picker>,
)
    requires room { HasRoom frontier.old 2 }
    requires orderly { IsOrderly frontier.old }
    requires node { IsListed frontier.old.paths.paths info.now }
    requires few { length frontier.old.paths.paths + 1 < 2 ^ 32 }
    requires floor { IsNarrowWhole floor }
    requires above { IsNarrowWhole (floor +ℤ pos 1) }
    ensures ended { state_of frontier.new None ≡ trails.ended (state_of frontier.old None)
        (waiting_of frontier.old.paths.paths info.now) pivots (trees.split decision floor value) }
    ensures orderly { IsOrderly frontier.new }
    ensures rule { rule pick.new ≡ rule pick.old }
    ensures heard { Hears (heard pick.old) (heard pick.new) (news (news_of info.now.number
        (length frontier.old.paths.paths) (trees.split decision floor value)) ∷ []) }
{
    let first = frontier.paths.len() as u64;
    wait_part(frontier, info, Part::lower(decision, floor), value);
    wait_part(frontier, info, Part::upper(decision, floor), value);
    keep(frontier, info, pivots, Ending::Parts(first as u32));
    pick.told(NodeEvent::Split(info.number, first, first + 1));
}

// The program is unbounded: the root of a second tree waits.
fn escape(frontier: &mut Frontier, work: Work, pick: &mut Box<dyn Picker>)
    requires room { HasRoom frontier.old 2 }
    requires orderly { IsOrderly frontier.old }
    requires node { IsListed frontier.old.paths.paths work.info }
    requires few { length frontier.old.paths.paths + 1 < 2 ^ 32 }
    ensures ended { state_of frontier.new None
        ≡ trails.ended (state_of frontier.old None) (waiting_of frontier.old.paths.paths work.info)
        work.pivots (trees.endless work.point.items work.direction.items) }
    ensures orderly { IsOrderly frontier.new }
    ensures rule { rule pick.new ≡ rule pick.old }
    ensures heard { Hears (heard pick.old) (heard pick.new)
        (news (news_of work.info.number (length frontier.old.paths.paths)
        (trees.endless work.point.items work.direction.items)) ∷ []) }
{
    let number = work.info.number;
    wait_root(frontier);
    keep(frontier, &work.info, work.pivots, Ending::Leaf);
    frontier.way = Some(Way {
        point: work.point,
        direction: work.direction,
    });
    pick.told(NodeEvent::Closed(number));
}

// The node comes to its end.
fn finish(frontier: &mut Frontier, work: Work, end: NodeEnd, pick: &mut Box<dyn Picker>)
    requires room { HasRoom frontier.old 2 }
    requires orderly { IsOrderly frontier.old }
    requires node { IsListed frontier.old.paths.paths work.info }
    requires few { length frontier.old.paths.paths + 1 < 2 ^ 32 }
    requires narrow { HasNarrowParts end }
    ensures ended { state_of frontier.new None
        ≡ trails.ended (state_of frontier.old None) (waiting_of frontier.old.paths.paths work.info)
        work.pivots (end_at end work.point.items work.direction.items) }
    ensures orderly { IsOrderly frontier.new }
    ensures rule { rule pick.new ≡ rule pick.old }
    ensures heard { Hears (heard pick.old) (heard pick.new)
        (news (news_of work.info.number (length frontier.old.paths.paths)
        (end_at end work.point.items work.direction.items)) ∷ []) }
{
    match end {
        NodeEnd::Empty => close(frontier, &work.info, work.pivots, pick),
        NodeEnd::Beaten(_) => close(frontier, &work.info, work.pivots, pick),
        NodeEnd::Whole(value) => find(frontier, work, value, pick),
        NodeEnd::Split(decision, floor, value) => split(
            frontier,
            &work.info,
            work.pivots,
            decision,
            floor,
            value,
            pick,
        ),
        NodeEnd::Clash(one, other, _) => clash(frontier, &work.info, work.pivots, one, other, pick),
        NodeEnd::Endless => escape(frontier, work, pick),
    }
}

/// The node that is worked on, with its next pivot, unless its run has ended; then its end is taken, which needs no memory.
pub(crate) fn settle(
    model: &LinModel,
    frontier: &mut Frontier,
    work: Work,
    pick: &mut Box<dyn Picker>,
) -> Option<Work>
    requires ready { IsReady model.now frontier.old work }
    requires orderly { IsOrderly frontier.old }
    requires few { length frontier.old.paths.paths + 1 < 2 ^ 32 }
    ensures becomes { Became model.now (state_of frontier.old None)
        (waiting_of frontier.old.paths.paths work.info) work.pivots work.dict
        (state_of frontier.new result) (Hears (heard pick.old) (heard pick.new)) }
    ensures ready { IsReadyIf model.now frontier.new result }
    ensures orderly { IsOrderly frontier.new }
    ensures rule { rule pick.new ≡ rule pick.old }
{
    let mut work = work;
    let best = best_value(frontier);
    let run = run_of(
        model,
        &work.within,
        best,
        &work.program,
        &work.dict,
        &mut work.point,
        &mut work.direction,
    );
    match run {
        NodeRun::Goes(next) => {
            work.next = next;
            Some(work)
        }
        NodeRun::Ends(end) => {
            finish(frontier, work, end, pick);
            None
        }
    }
}
