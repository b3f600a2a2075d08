ghost use Rattle.std.specs.Prelude.{◌≡◌, ◌≢◌, ◌↔◌, ℕ, Bool, length, List, IsTrue, Option, true};
ghost use Rattle.fractions.specs.Rational.{ℚ, denominator};
ghost use Rattle.fractions.specs.Floor.{floor_ℚ};
ghost use Rattle.linear_models.specs.Box.{InBox};
ghost use Rattle.linear_models.specs.Laws.{IsBoxOf};
ghost use Rattle.linear_models.specs.Standard.{standard};
ghost use Rattle.linear_models.specs.Statement.{is_grouped};
ghost use Rattle.searches.specs.Alike.{HasTwoBounds};
ghost use Rattle.searches.specs.Trees.{Part, box_along, split};
ghost use Rattle.dictionaries.specs.Run.{IsReached};
ghost use Rattle.searches.specs.Trails.{best as at_best};
ghost use Rattle.search_ends.specs.Ends.{ComesToWith, HasNarrowEnd, HasNarrowParts, IsBetter, IsRunOf, end_at};

use crate::alike::first_alike;
use crate::broken::first_broken;
use crate::parting::part;
use crate::reading::{read_direction, read_point};
use frac128::Frac;
use lin_model::{BoundBox, LinModel};
use linear_programs::Standard;
use simplex::{Next, choose_next};
use tableau::Dict;

/// What becomes of a node: its program has no point; its value isn't better than that of a point found before; its point
/// is a whole one and is found; it is split at a decision and a floor; two decisions of a group are fixed to one number;
/// or its program is unbounded.
#[derive(Drop)]
pub enum NodeEnd {
    Empty,
    Beaten(Frac),
    Whole(Frac),
    Split(u16, i128, Frac),
    Clash(u16, u16, Frac),
    Endless,
}

/// The row and the column of a pivot.
#[derive(Clone, Copy)]
pub struct Pivot {
    pub row: u16,
    pub column: u16,
}

/// Whether the run of a node's program goes on, with which pivot, or what becomes of the node.
#[derive(Drop)]
pub enum NodeRun {
    Goes(Pivot),
    Ends(NodeEnd),
}

// Whether the value is better than the best one, if there is one.
fn is_better(best: Option<Frac>, value: Frac) -> bool
    ensures { IsTrue result ↔ IsBetter best value }
{
    match best {
        None => true,
        Some(best) => best.is_below(value),
    }
}

// The split at a decision and the number that isn't whole there.
fn split_at(decision: u16, number: Frac, value: Frac) -> NodeEnd
    requires { denominator number ≢ 1 }
    ensures split { (point way : List ℚ) → end_at result point way
        ≡ split decision (floor_ℚ number) value }
    ensures narrow { HasNarrowParts result }
{
    let _num = number.num();
    NodeEnd::Split(decision, number.floor(), value)
}

// What becomes of a node whose program has its best value at the point.
fn end_at_best(
    model: &LinModel,
    within: &BoundBox,
    best: Option<Frac>,
    point: &[Frac],
    value: Frac,
) -> NodeEnd
    requires one_each { length point.now ≡ length model.now.whole }
    requires sized { IsBoxOf model.now within.now }
    requires in_box { InBox within.now point.now }
    requires bounds { (j : ℕ) → is_grouped j model.now.groups ≡ true → HasTwoBounds within.now j }
    ensures comes { (way : List ℚ) → ComesToWith model.now within.now best
        (at_best point.now value) (end_at result point.now way) }
    ensures narrow { HasNarrowParts result }
{
    let _valid = model.whole();
    if !is_better(best, value) {
        return NodeEnd::Beaten(value);
    }
    match first_broken(model, point) {
        None => match first_alike(model, point) {
            None => NodeEnd::Whole(value),
            Some((one, other)) => part(within, one as u16, other as u16, point, value),
        },
        Some(decision) => split_at(decision as u16, point[decision], value),
    }
}

/// What becomes of a node, where its program's run has come to the dictionary, or the next pivot where the run goes on. The
/// best value is that of the best point found before. The box is that of the node, whose program is `of`. The point and the
/// direction, of which there is one number a decision, are written where the end has them.
pub fn run_of(
    model: &LinModel,
    within: &BoundBox,
    best: Option<Frac>,
    of: &Standard,
    dict: &Dict,
    point: &mut [Frac],
    direction: &mut [Frac],
) -> NodeRun
    requires reached { IsReached of.now dict.now }
    requires program { (plain : Bool) × (of.now ≡ standard model.now within.now plain) }
    requires node { (path : List Part) × (within.now ≡ box_along model.now.bounds path) }
    requires decisions { length of.now.columns ≡ length model.now.whole }
    requires point { length point.old ≡ length model.now.whole }
    requires direction { length direction.old ≡ length model.now.whole }
    ensures run { IsRunOf model.now within.now best of.now dict.now result point.new direction.new }
    ensures narrow { HasNarrowEnd result }
{
    match choose_next(of, dict) {
        Next::Pivot(row, column) => NodeRun::Goes(Pivot { row, column }),
        Next::Infeasible => NodeRun::Ends(NodeEnd::Empty),
        Next::Unbounded(col) => {
            read_point(of, dict, point);
            read_direction(of, dict, col, direction);
            NodeRun::Ends(NodeEnd::Endless)
        }
        Next::Best => {
            let _width = dict.width();
            let _valid = model.whole();
            read_point(of, dict, point);
            let value = dict.objective().rest();
            NodeRun::Ends(end_at_best(model, within, best, point, value))
        }
    }
}
