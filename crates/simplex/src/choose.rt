ghost use Rattle.std.specs.Prelude.{◌≡◌, ◌<◌, length, slice_index};
ghost use Rattle.dictionaries.specs.Bland.{IsInPhase, two};
ghost use Rattle.dictionaries.specs.Run.{IsReached, IsOnTheWay};
ghost use Rattle.simplex.specs.Next.{IsNextOf, IsAtPlace};
ghost use Rattle.simplex.specs.Choices.{IsReachedOfSome};

use crate::begin::worst;
use crate::enter::entering;
use crate::leave::pivot_row;
use crate::read::{column_with, row_with};
use linear_programs::Standard;
use tableau::Dict;

/// What the dictionary asks for next: a pivot at a row and a column, or the end of the run.
#[derive(Clone, Copy)]
pub enum Next {
    Pivot(u16, u16),
    Best,
    Infeasible,
    Unbounded(u16),
}

/// The next step while variable 0 is basic, in the row. Without a pivot the program is infeasible: variable 0
/// has left before it can be 0.
fn next_of_one(dict: &Dict, row: u16) -> Next
    requires reached { IsReachedOfSome dict.now }
    requires row { row < length dict.now.basic }
    requires extra { slice_index dict.now.basic row ≡ 0 }
    ensures { IsNextOf dict.now result }
{
    let _height = dict.height();
    match entering(dict, dict.auxiliary()) {
        Some(col) => match pivot_row(dict, col) {
            Some(leaves) => Next::Pivot(leaves, col),
            None => unreachable!(),
        },
        None => Next::Infeasible,
    }
}

/// The next step of phase 2.
fn next_of_two(dict: &Dict) -> Next
    requires { IsInPhase two dict.now }
    ensures { IsNextOf dict.now result }
{
    let _height = dict.height();
    match entering(dict, dict.objective()) {
        Some(col) => match pivot_row(dict, col) {
            Some(leaves) => Next::Pivot(leaves, col),
            None => Next::Unbounded(col),
        },
        None => Next::Best,
    }
}

/// The next step of the run of the program, from a dictionary on it. A pivot stands at an entry other than 0, and is
/// made by `Dict::pivot`; where that is `Wide`, it is never made.
pub fn choose_next(of: &Standard, dict: &Dict) -> Next
    requires { IsReached of.now dict.now }
    ensures next { IsNextOf dict.now result }
    ensures place { IsAtPlace dict.now result }
    ensures on_the_way { IsOnTheWay of.now dict.now }
{
    let _regular = of.rows();
    next_of(dict)
}

/// The next step.
fn next_of(dict: &Dict) -> Next
    requires { IsReachedOfSome dict.now }
    ensures { IsNextOf dict.now result }
{
    if let Some(row) = row_with(dict, 0) {
        return next_of_one(dict, row);
    }
    match column_with(dict, 0) {
        None => unreachable!(),
        Some(col) => match worst(dict) {
            Some(row) => Next::Pivot(row, col),
            None => next_of_two(dict),
        },
    }
}
