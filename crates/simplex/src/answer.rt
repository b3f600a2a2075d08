ghost use Rattle.std.specs.Prelude.{◌≡◌, ◌≢◌, ◌<◌, ◌+◌, ℕ, length, IfOk, MatchResult};
ghost use Rattle.dictionaries.specs.Narrow.{IsNarrowPivot};
ghost use Rattle.dictionaries.specs.Bland.{NextPivot, IsBestEnd, IsInfeasibleEnd, IsUnboundedEnd};
ghost use Rattle.dictionaries.specs.Run.{IsReached};
ghost use Rattle.simplex.specs.Solved.{IsAnswer, IsStop};

use crate::read::{direction, point, row_multipliers};
use frac128::Frac;
use linear_programs::Standard;
use memory::Memory;
use std::alloc::Global;
use tableau::Dict;
use thiserror::Error;

/// What a program comes to: its best point with the value and the multipliers that bound it, multipliers
/// that contradict every point, or a point and a direction that improves without end. Points and directions
/// have one number a cell.
#[derive(Drop)]
pub enum LpAnswer {
    Best(Vec<Frac>, Frac, Vec<Frac>),
    Infeasible(Vec<Frac>),
    Unbounded(Vec<Frac>, Vec<Frac>),
}

/// Why no answer comes: a pivot that is not narrow, with the basic variables, the leaving and the entering one;
/// no units; or no memory.
#[derive(Debug, Drop, Error)]
pub enum LpStop {
    #[error("a pivot is too wide")]
    WidePivot(Vec<u16>, u16, u16),
    #[error("no units are left")]
    Spent,
    #[error("memory ran out")]
    Memory,
}

/// The answer, if there was memory for it.
pub fn in_memory(given: Result<LpAnswer, Memory>) -> Result<LpAnswer, LpStop>
    ensures { MatchResult result (λ a. given ≡ Ok a) (λ e. e ≡ LpStop.Memory) }
{
    match given {
        Ok(answer) => Ok(answer),
        Err(_) => Err(LpStop::Memory),
    }
}

/// The answer where phase 2 has its optimum.
pub fn best(alloc: Global, of: &Standard, dict: &Dict) -> Result<LpAnswer, Memory>
    requires reached { IsReached of.now dict.now }
    requires end { IsBestEnd dict.now }
    ensures { IfOk result (λ a. IsAnswer of.now dict.now a) }
{
    let _regular = of.rows();
    let _width = dict.width();
    let at = point(alloc, of, dict)?;
    let bound = row_multipliers(alloc, of, dict, dict.objective())?;
    Ok(LpAnswer::Best(at, dict.objective().rest(), bound))
}

/// The answer where phase 1 has its optimum below 0.
pub fn infeasible(alloc: Global, of: &Standard, dict: &Dict) -> Result<LpAnswer, Memory>
    requires reached { IsReached of.now dict.now }
    requires end { IsInfeasibleEnd dict.now }
    ensures { IfOk result (λ a. IsAnswer of.now dict.now a) }
{
    let _regular = of.rows();
    let _width = dict.width();
    let contradicting = row_multipliers(alloc, of, dict, dict.auxiliary())?;
    Ok(LpAnswer::Infeasible(contradicting))
}

/// The answer where no row bounds what enters.
pub fn unbounded_answer(
    alloc: Global,
    of: &Standard,
    dict: &Dict,
    col: u16,
) -> Result<LpAnswer, Memory>
    requires reached { IsReached of.now dict.now }
    requires end { IsUnboundedEnd dict.now col }
    ensures { IfOk result (λ a. IsAnswer of.now dict.now a) }
{
    let _regular = of.rows();
    let at = point(alloc, of, dict)?;
    let way = direction(alloc, of, dict, col)?;
    Ok(LpAnswer::Unbounded(at, way))
}

/// A list of the same variables.
fn copy_variables(alloc: Global, variables: &[u16]) -> Result<Vec<u16>, Memory>
    ensures { IfOk result (λ v. v.items ≡ variables.now) }
{
    Ok(Vec::from_slice(alloc, variables)?)
}

/// The stop at a pivot that is not narrow.
pub fn wide(alloc: Global, dict: &Dict, row: u16, col: u16) -> LpStop
    requires next { NextPivot dict.now row col }
    requires wide { ¬ (IsNarrowPivot dict.now row col) }
    requires row { row < length dict.now.basic }
    requires column { col < length dict.now.nonbasic }
    ensures { (left : ℕ) → 0 < left → IsStop dict.now left result }
{
    match copy_variables(alloc, dict.basis()) {
        Ok(basis) => LpStop::WidePivot(basis, dict.basic(row), dict.column(col)),
        Err(_) => LpStop::Memory,
    }
}
