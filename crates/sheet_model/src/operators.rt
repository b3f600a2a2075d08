// The operators.
ghost use Rattle.std.specs.Prelude.{◌≡◌, IfOk, length, zip};
ghost use Rattle.std.specs.Result.{result_map_both};
ghost use Rattle.calculations.specs.Calculation.{Calculation, exact, for_each, turned_into};
ghost use Rattle.sheet_model.specs.Answers.{Answers};
ghost use Rattle.sheet_model.specs.Operators.{infix_of, infix_value, minus_of, on_each, on_pairs, percent_of, single, with_items};
ghost use Rattle.sheet_model.specs.Sides.{side_value};
ghost use Rattle.sheet_model.specs.declared.grid.Arg.TheVariants.{Area, One};
ghost use Rattle.sheet_model.specs.declared.value.Value.{Value};

use crate::arithmetic::{infix_value, minus_value, percent_value};
use crate::grid::{Arg, Grid};
use crate::stop::FuncStop;
use crate::value::Value;
use cell_refs::{ErrorKind, Op};
use std::alloc::Global;

/// An infix operator on two single values, or on each pair of elements of two grids of one size; a single value stands beside
/// each element of a grid. An error stays in its own element.
pub fn infix(alloc: Global, op: Op, a: &Arg, b: &Arg) -> Result<Arg, FuncStop>
    ensures exact { IfOk result (λ answer. answer ≡ exact (infix_of op a.now b.now)) }
    ensures narrow { Answers (infix_of op a.now b.now) result }
{
    match (side_of(a), side_of(b)) {
        (Side::One(first), Side::One(second)) => as_one(infix_value(alloc, op, first, second)),
        (Side::One(first), Side::Area(grid)) => {
            on_grid(alloc, grid, |second| infix_value(alloc, op, first, second))
        }
        (Side::Area(grid), Side::One(second)) => {
            on_grid(alloc, grid, |first| infix_value(alloc, op, first, second))
        }
        (Side::Area(first), Side::Area(second)) => on_grids(alloc, op, first, second),
    }
}

/// The value, or each element, with its sign turned.
pub fn minus(alloc: Global, a: &Arg) -> Result<Arg, FuncStop>
    ensures exact { IfOk result (λ answer. answer ≡ exact (minus_of a.now)) }
    ensures narrow { Answers (minus_of a.now) result }
{
    on_each(alloc, a, minus_value)
}

/// The value, or each element, divided by 100.
pub fn percent(alloc: Global, a: &Arg) -> Result<Arg, FuncStop>
    ensures exact { IfOk result (λ answer. answer ≡ exact (percent_of a.now)) }
    ensures narrow { Answers (percent_of a.now) result }
{
    on_each(alloc, a, percent_value)
}

// An argument as an operator takes it.
enum Side<'a> {
    One(&'a Value),
    Area(&'a Grid),
}

// A grid of one element is that element.
fn side_of(arg: &Arg) -> Side<'_>
    ensures { side_value result ≡ single arg.now }
{
    match arg {
        Arg::One(value) => Side::One(value),
        Arg::Area(grid) => match grid.items() {
            [value] => Side::One(value),
            _ => Side::Area(grid),
        },
    }
}

// A value as an argument.
fn as_one(answer: Result<Value, FuncStop>) -> Result<Arg, FuncStop>
    ensures { result ≡ result_map_both One (λ stop. stop) answer }
{
    answer.map(Arg::One)
}

// What is done to a value, done to each element of an argument.
fn on_each<F: Fn(&Value) -> Result<Value, FuncStop>>(
    alloc: Global,
    arg: &Arg,
    work: F,
) -> Result<Arg, FuncStop>
    requires { F.IsAlwaysCallable work }
    ensures { (f : Value → Calculation Value)
        → ((x : _) (r : _) → F.post work x r → Answers (f x.now) r)
        → Answers (on_each f (single arg.now)) result }
{
    match side_of(arg) {
        Side::One(value) => as_one(work(value)),
        Side::Area(grid) => on_grid(alloc, grid, work),
    }
}

// What is done to a value, done to each element of a grid.
fn on_grid<F: Fn(&Value) -> Result<Value, FuncStop>>(
    alloc: Global,
    grid: &Grid,
    work: F,
) -> Result<Arg, FuncStop>
    requires { F.IsAlwaysCallable work }
    ensures { (f : Value → Calculation Value)
        → ((x : _) (r : _) → F.post work x r → Answers (f x.now) r)
        → Answers (turned_into (with_items grid.now) (for_each f grid.now.items)) result }
{
    let answers = each(alloc, grid.items(), work)?;
    Ok(Arg::Area(grid.with_items(answers)))
}

// What is done to a value, done to each of some.
fn each<F: Fn(&Value) -> Result<Value, FuncStop>>(
    alloc: Global,
    items: &[Value],
    work: F,
) -> Result<Vec<Value>, FuncStop>
    requires { F.IsAlwaysCallable work }
    ensures count { IfOk result (λ answers. length answers.items ≡ length items.now) }
    ensures narrow { (f : Value → Calculation Value)
        → ((x : _) (r : _) → F.post work x r → Answers (f x.now) r) → Answers
        (for_each f items.now) (result_map_both (λ answers. answers.items) (λ stop. stop) result) }
{
    let mut answers = Vec::new(alloc);
    for item in items {
        answers.push(work(item)?)?;
    }
    Ok(answers)
}

// An infix operator on two grids.
fn on_grids(alloc: Global, op: Op, first: &Grid, second: &Grid) -> Result<Arg, FuncStop>
    ensures { Answers (on_pairs (infix_value op) (Area first.now) (Area second.now)) result }
{
    if first.rows() != second.rows() || first.cols() != second.cols() {
        return Ok(Arg::One(Value::Error(ErrorKind::Value)));
    }
    let items = each_pair(alloc, op, first.items(), second.items())?;
    Ok(Arg::Area(first.with_items(items)))
}

// An infix operator on each pair of values.
fn each_pair(
    alloc: Global,
    op: Op,
    first: &[Value],
    second: &[Value],
) -> Result<Vec<Value>, FuncStop>
    requires { length first.now ≡ length second.now }
    ensures count { IfOk result (λ answers. length answers.items ≡ length first.now) }
    ensures narrow { Answers
        (for_each (λ (p : Value × Value). infix_value op p.0 p.1) (zip first.now second.now))
        (result_map_both (λ answers. answers.items) (λ stop. stop) result) }
{
    let mut answers = Vec::new(alloc);
    for (index, a) in first.iter().enumerate() {
        answers.push(infix_value(alloc, op, a, &second[index])?)?;
    }
    Ok(answers)
}
