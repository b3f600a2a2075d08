ghost use Rattle.std.specs.Prelude.{◌≡◌, ◌<◌, ℕ, IfOk, length, map};
ghost use Rattle.dictionaries.specs.Bland.{NextPivot};
ghost use Rattle.dictionaries.specs.Narrow.{IsNarrowPivot};
ghost use Rattle.search_paths.specs.Steps.{step_of};
ghost use Rattle.branch_bound.specs.States.{path_of, work_of};
ghost use Rattle.branch_bound.specs.Told.{IsWideStop};

use crate::progress::SearchStop;
use crate::work::Work;
use memory::Memory;
use search_paths::{Part, Paths};
use std::alloc::Global;

// The steps of a path.
fn steps(alloc: Global, path: &[Part]) -> Result<Vec<(u16, bool, i128)>, Memory>
    ensures { IfOk result (λ v. v.items ≡ map step_of path.now) }
{
    let mut made = Vec::new(alloc);
    for part in path {
        made.push(part.step())?;
    }
    Ok(made)
}

// A list of the same variables.
fn copy_variables(alloc: Global, variables: &[u16]) -> Result<Vec<u16>, Memory>
    ensures { IfOk result (λ v. v.items ≡ variables.now) }
{
    Ok(Vec::from_slice(alloc, variables)?)
}

// The stop at the node's next pivot, which is not narrow.
pub(crate) fn wide(
    alloc: Global,
    paths: &Paths,
    work: &Work,
    row: u16,
    col: u16,
) -> Result<SearchStop, Memory>
    requires there { work.now.info.number < length paths.now.paths }
    requires row { row < length work.now.dict.basic }
    requires column { col < length work.now.dict.nonbasic }
    requires next { NextPivot work.now.dict row col }
    requires wide { ¬ (IsNarrowPivot work.now.dict row col) }
    ensures { IfOk result (λ stop. IsWideStop (work_of paths.now.paths work.now) stop) }
{
    let path = paths.path(alloc, work.info.number as usize)?;
    let steps = steps(alloc, &path)?;
    let basis = copy_variables(alloc, work.dict.basis())?;
    Ok(SearchStop::WidePivot(steps, basis, work.dict.basic(row), work.dict.column(col)))
}
