// INDEX.
ghost use Rattle.std.specs.Prelude.{◌≡◌, ◌<◌, ◌≤◌, ◌⊎◌, ◌++◌, IfOk, IfSome, length, map};
ghost use Rattle.std.specs.Result.{result_map_both};
ghost use Rattle.calculations.specs.Calculation.{done, exact};
ghost use Rattle.formula_ast.specs.Functions.{Takes};
ghost use Rattle.formula_ast.specs.declared.func.Func.TheVariants as func;
ghost use Rattle.sheet_model.specs.Answers.{Answers};
ghost use Rattle.sheet_model.specs.declared.grid.Arg.TheVariants.{One};
ghost use Rattle.sheet_funcs.specs.Arguments.{at, grid_of};
ghost use Rattle.sheet_funcs.specs.Picks.{elements_in, from_to, index_of, part_of, pick_at, pick_of, picked, taken_from};
ghost use Rattle.sheet_funcs.specs.Within.{IsWithin};
ghost use Rattle.sheet_funcs.specs.declared.pick.Pick.TheVariants.{Part};

use crate::answers::{area, fault};
use crate::items::place_of;
use crate::pick::Pick;
use cell_refs::ErrorKind;
use sheet_model::{Arg, FuncStop, Grid, Memory, Value};
use std::alloc::Global;

/// INDEX: the value or the part of a grid at a row and a column, counted from 1; place 0 stands for all rows or all columns.
pub fn index(alloc: Global, args: &[Arg]) -> Result<Arg, FuncStop>
    requires { Takes func.Index (length args.now) }
    ensures exact { IfOk result (λ answer. answer ≡ exact (index_of args.now)) }
    ensures narrow { Answers (index_of args.now) result }
{
    let [source, at @ ..] = args else {
        unreachable!();
    };
    match source {
        Arg::One(value) => taken_from_value(alloc, value, index_at(1, 1, at)),
        Arg::Area(grid) => taken_from_grid(alloc, grid, index_at(grid.rows(), grid.cols(), at)),
    }
}

/// The part of a grid of this size that one or two places pick. One place alone is a column where there is one row, and else a
/// row.
pub fn index_at(rows: u32, cols: u32, at: &[Arg]) -> Pick
    requires rows { 0 < rows }
    requires columns { 0 < cols }
    requires places { (length at.now ≡ 1) ⊎ (length at.now ≡ 2) }
    ensures pick { result ≡ pick_of rows cols at.now }
    ensures within { IsWithin rows cols result }
{
    match at {
        [place] if rows == 1 => part_at(rows, cols, Ok(0), place_of(place)),
        [place] => part_at(rows, cols, place_of(place), Ok(0)),
        [row, column] => part_at(rows, cols, place_of(row), place_of(column)),
        _ => unreachable!(),
    }
}

// The part at a row and a column place; the first that is none is the fault.
fn part_at(
    rows: u32,
    cols: u32,
    row: Result<i128, ErrorKind>,
    column: Result<i128, ErrorKind>,
) -> Pick
    requires rows { 0 < rows }
    requires columns { 0 < cols }
    ensures pick { result ≡ pick_at rows cols row column }
    ensures within { IsWithin rows cols result }
{
    match (row, column) {
        (Err(kind), _) | (Ok(_), Err(kind)) => Pick::Fault(kind),
        (Ok(row), Ok(column)) => part(place_or_all(rows, row), place_or_all(cols, column)),
    }
}

// The part of the picked rows and columns.
fn part(rows: Option<(u32, u32)>, columns: Option<(u32, u32)>) -> Pick
    ensures { result ≡ part_of rows columns }
{
    match (rows, columns) {
        (Some((top, bottom)), Some((left, right))) => Pick::Part(top, left, bottom, right),
        _ => Pick::Fault(ErrorKind::Ref),
    }
}

// The first and the last of the rows or columns that a place picks.
fn place_or_all(size: u32, place: i128) -> Option<(u32, u32)>
    requires { 0 < size }
    ensures value { result ≡ picked size place }
    ensures order { IfSome result (λ p. p.0 ≤ p.1) }
    ensures within { IfSome result (λ p. p.1 < size) }
{
    if place == 0 {
        return Some((0, size - 1));
    }
    if place < 0 || place > size as i128 {
        return None;
    }
    let index = (place - 1) as u32;
    Some((index, index))
}

// What is picked of a single value.
fn taken_from_value(alloc: Global, value: &Value, pick: Pick) -> Result<Arg, FuncStop>
    requires { IsWithin 1 1 pick }
    ensures { Answers (done (taken_from (grid_of (One value.now)) pick)) result }
{
    match pick {
        Pick::Part(..) => Ok(Arg::One(value.copy(alloc)?)),
        Pick::Fault(kind) => Ok(fault(kind)),
    }
}

// What is picked of a grid.
fn taken_from_grid(alloc: Global, grid: &Grid, pick: Pick) -> Result<Arg, FuncStop>
    requires { IsWithin grid.now.rows grid.now.columns pick }
    ensures { Answers (done (taken_from grid.now pick)) result }
{
    match pick {
        Pick::Part(top, left, bottom, right) => {
            Ok(part_of(alloc, grid, top, left, bottom, right)?)
        }
        Pick::Fault(kind) => Ok(fault(kind)),
    }
}

// A part of a grid; one element is a single value.
fn part_of(
    alloc: Global,
    grid: &Grid,
    top: u32,
    left: u32,
    bottom: u32,
    right: u32,
) -> Result<Arg, Memory>
    requires { IsWithin grid.now.rows grid.now.columns (Part top left bottom right) }
    ensures { IfOk result (λ answer. answer ≡ taken_from grid.now (Part top left bottom right)) }
{
    if top == bottom && left == right {
        return Ok(Arg::One(grid.at(top, left).copy(alloc)?));
    }
    prove!(bottom < grid.rows() && right < grid.cols());
    let items = elements(alloc, grid, top, left, bottom, right)?;
    Ok(area(bottom + 1 - top, right + 1 - left, items))
}

// The elements of a part of a grid, row by row.
fn elements(
    alloc: Global,
    grid: &Grid,
    top: u32,
    left: u32,
    bottom: u32,
    right: u32,
) -> Result<Vec<Value>, Memory>
    requires { IsWithin grid.now.rows grid.now.columns (Part top left bottom right) }
    ensures { IfOk result (λ items. items.items ≡ elements_in grid.now top left bottom right) }
{
    prove!(bottom < grid.rows());
    let mut items = Vec::new(alloc);
    for row in top..bottom + 1 {
        push_copies(alloc, row_part(grid, row, left, right), &mut items)?;
    }
    Ok(items)
}

// A row's elements, from one column to another.
fn row_part(grid: &Grid, row: u32, left: u32, right: u32) -> &[Value]
    requires row { row < grid.now.rows }
    requires order { left ≤ right }
    requires right { right < grid.now.columns }
    ensures { result.now ≡ map (λ column. at grid.now row column) (from_to left right) }
{
    let front = row as usize * grid.cols() as usize;
    &grid.items()[front + left as usize..front + right as usize + 1]
}

// Puts copies of values behind others.
fn push_copies(alloc: Global, items: &[Value], to: &mut Vec<Value>) -> Result<(), Memory>
    ensures { IfOk result (λ _. to.new.items ≡ to.old.items ++ items.now) }
{
    for item in items {
        to.push(item.copy(alloc)?)?;
    }
    Ok(())
}
