ghost use Rattle.std.specs.Prelude.{◌≡◌, ◌≢◌, ◌<◌, ◌≤◌, ◌+◌, ◌^◌, ◌∷◌, ℕ, [], Some, None, length, IfOk, OnErr, option_map};
ghost use Rattle.dictionaries.specs.Dictionary.{first_of_program};
ghost use Rattle.node_pick.specs.Messages.{Hears, news, question};
ghost use Rattle.node_pick.specs.declared.info.NodeEvent.TheVariants as events;
ghost use Rattle.node_pick.specs.Rules.{Follows, IsRising};
ghost use Rattle.linear_models.specs.Model.{IsValid};
ghost use Rattle.searches.specs.Trees as trees;
ghost use Rattle.searches.specs.Trails as trails;
ghost use Rattle.branch_bound.specs.States.{IsOpened, IsOrderly, IsPrepared, IsSame, node_of, state_of, waiting_of, way_of};
ghost use Rattle.branch_bound.specs.Told.{IsAsked};

use crate::frontier::{Frontier, reserve};
use crate::work::Work;
use frac128::Frac;
use lin_model::{BoundBox, LinModel};
use linear_programs::Standard;
use memory::Memory;
use node_pick::{NodeEvent, NodeInfo, Picker};
use search_ends::Pivot;
use std::alloc::Global;
use tableau::start;

// The same node.
fn copy_node(info: &NodeInfo) -> NodeInfo
    ensures { result ≡ info.now }
{
    NodeInfo {
        number: info.number,
        depth: info.depth,
        bound: info.bound,
    }
}

// The box of a node.
fn part_of(
    alloc: Global,
    model: &LinModel,
    frontier: &mut Frontier,
    info: &NodeInfo,
) -> Result<BoundBox, Memory>
    requires { info.now.number < length frontier.old.paths.paths }
    ensures part { IfOk result (λ b. b
        ≡ trails.box_of model.now (waiting_of frontier.old.paths.paths info.now)) }
    ensures same { frontier.new ≡ frontier.old }
{
    frontier
        .paths
        .box_of(alloc, model.bounds(), info.number as usize)
}

// The program of a node, in its box.
fn program_of(
    alloc: Global,
    model: &LinModel,
    frontier: &Frontier,
    within: &BoundBox,
    info: &NodeInfo,
) -> Result<Standard, Memory>
    requires { within.now
        ≡ trails.box_of model.now (waiting_of frontier.now.paths.paths info.now) }
    ensures program { IfOk result (λ p. p ≡ trails.node_program model.now
        (option_map way_of frontier.now.way) (waiting_of frontier.now.paths.paths info.now)) }
    ensures columns { IfOk result (λ p. length p.columns ≡ length model.now.whole) }
{
    let _whole = model.whole();
    model.standard(alloc, within, frontier.way.is_some())
}

/// Takes all the memory that the work on a node needs, for its end too.
fn prepare(model: &LinModel, frontier: &mut Frontier, info: NodeInfo) -> Result<Work, Memory>
    requires { info.number < length frontier.old.paths.paths }
    ensures same { IsSame frontier.old frontier.new }
    ensures ready { IfOk result (λ w. IsPrepared model.now frontier.new info w) }
{
    let alloc = *frontier.waiting.allocator();
    reserve(frontier)?;
    let within = part_of(alloc, model, frontier, &info)?;
    let program = program_of(alloc, model, frontier, &within, &info)?;
    let dict = start(alloc, &program)?;
    let decisions = model.whole().len();
    let point = vec![in alloc; Frac::zero(); decisions]?;
    let direction = vec![in alloc; Frac::zero(); decisions]?;
    Ok(Work {
        info,
        pivots: 0,
        within,
        program,
        dict,
        next: Pivot { row: 0, column: 0 },
        point,
        direction,
    })
}

// The place of the node that the picker chooses.
fn choice(waiting: &[NodeInfo], pick: &mut Box<dyn Picker>) -> usize
    requires waits { waiting.now ≢ [] }
    requires rising { IsRising waiting.now }
    ensures place { result < length waiting.now }
    ensures follows { Follows (rule pick.old) waiting.now result }
    ensures rule { rule pick.new ≡ rule pick.old }
    ensures heard { Hears (heard pick.old) (heard pick.new) (question waiting.now result ∷ []) }
{
    pick.choose(waiting)
}

// Tells the picker that the node of this number is opened.
fn tell(number: u64, pick: &mut Box<dyn Picker>)
    ensures rule { rule pick.new ≡ rule pick.old }
    ensures heard { Hears (heard pick.old) (heard pick.new) (news (events.Opened number) ∷ []) }
{
    pick.told(NodeEvent::Opened(number));
}

/// Opens the node that the picker chooses.
pub(crate) fn open(
    model: &LinModel,
    frontier: &mut Frontier,
    pick: &mut Box<dyn Picker>,
) -> Result<Work, Memory>
    requires waits { frontier.old.waiting.items ≢ [] }
    requires rising { IsRising frontier.old.waiting.items }
    requires orderly { IsOrderly frontier.old }
    ensures opened { IfOk result (λ w. IsOpened model.now frontier.old frontier.new
        (rule pick.old) (Hears (heard pick.old) (heard pick.new)) w) }
    ensures err { OnErr result (IsSame frontier.old frontier.new) }
    ensures asked { OnErr result
        (IsAsked (heard pick.old) (heard pick.new) frontier.old.waiting.items) }
    ensures orderly { IsOrderly frontier.new }
    ensures paths { frontier.new.paths.paths ≡ frontier.old.paths.paths }
    ensures rule { rule pick.new ≡ rule pick.old }
{
    let place = choice(&frontier.waiting, pick);
    let info = copy_node(&frontier.waiting[place]);
    let number = info.number;
    let work = prepare(model, frontier, info)?;
    frontier.waiting.remove(place);
    tell(number, pick);
    Ok(work)
}
