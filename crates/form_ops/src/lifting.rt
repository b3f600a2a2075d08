// What is done to single values, done element by element.
ghost use Rattle.std.specs.Prelude.{◌≡◌, IfOk, length, zip};
ghost use Rattle.std.specs.Result.{result_map_both};
ghost use Rattle.form_ops.specs.Sides.{side_value};
ghost use Rattle.form_table.specs.Operators.{grid_made, infix_abs, on_each, on_pairs};
ghost use Rattle.form_table.specs.Wanted.{single};
ghost use Rattle.form_values.specs.Trials.{Answers, Trial, each_tried};
ghost use Rattle.form_values.specs.declared.abs.Abs.{Abs};
ghost use Rattle.form_values.specs.declared.abs.AbsArg.TheVariants.{Area};

use crate::results::{as_one, fault};
use crate::singles::infix_value;
use cell_refs::{ErrorKind, Op};
use form_values::{Abs, AbsArg, AbsGrid, OpRefusal};
use std::alloc::Global;

/// An argument as an operator takes it.
#[derive(Drop)]
pub(crate) enum Side<'a> {
    One(&'a Abs),
    Area(&'a AbsGrid),
}

/// A grid of one element is that element.
pub(crate) fn side_of(arg: &AbsArg) -> Side<'_>
    ensures { side_value result ≡ single arg.now }
{
    match arg {
        AbsArg::One(value) => Side::One(value),
        AbsArg::Area(grid) => match grid.items() {
            [value] => Side::One(value),
            _ => Side::Area(grid),
        },
    }
}

/// What is done to a value, done to each element of an argument.
pub(crate) fn on_each<F: Fn(&Abs) -> Result<Abs, OpRefusal>>(
    alloc: Global,
    arg: &AbsArg,
    work: F,
) -> Result<AbsArg, OpRefusal>
    requires { F.IsAlwaysCallable work }
    ensures { (f : Abs → Trial Abs) → ((x : _) (r : _) → F.post work x r → Answers (f x.now) r)
        → Answers (on_each f (single arg.now)) result }
{
    match side_of(arg) {
        Side::One(value) => as_one(work(value)),
        Side::Area(grid) => on_grid(alloc, grid, work),
    }
}

/// What is done to a value, done to each element of a grid.
pub(crate) fn on_grid<F: Fn(&Abs) -> Result<Abs, OpRefusal>>(
    alloc: Global,
    grid: &AbsGrid,
    work: F,
) -> Result<AbsArg, OpRefusal>
    requires { F.IsAlwaysCallable work }
    ensures { (f : Abs → Trial Abs) → ((x : _) (r : _) → F.post work x r → Answers (f x.now) r)
        → Answers (grid_made grid.now (each_tried f grid.now.items)) result }
{
    let answers = each(alloc, grid.items(), work)?;
    Ok(AbsArg::Area(grid.with_items(answers)))
}

// What is done to a value, done to each of some up to the first refusal.
fn each<F: Fn(&Abs) -> Result<Abs, OpRefusal>>(
    alloc: Global,
    items: &[Abs],
    work: F,
) -> Result<Vec<Abs>, OpRefusal>
    requires { F.IsAlwaysCallable work }
    ensures count { IfOk result (λ answers. length answers.items ≡ length items.now) }
    ensures narrow { (f : Abs → Trial Abs)
        → ((x : _) (r : _) → F.post work x r → Answers (f x.now) r)
        → Answers (each_tried f items.now)
        (result_map_both (λ answers. answers.items) (λ refusal. refusal) result) }
{
    let mut answers = Vec::new(alloc);
    for item in items {
        answers.push(work(item)?)?;
    }
    Ok(answers)
}

/// An infix operator on two grids.
pub(crate) fn on_grids(
    alloc: Global,
    op: Op,
    first: &AbsGrid,
    second: &AbsGrid,
) -> Result<AbsArg, OpRefusal>
    ensures { Answers (on_pairs (infix_abs op) (Area first.now) (Area second.now)) result }
{
    if first.rows() != second.rows() || first.cols() != second.cols() {
        return Ok(AbsArg::One(fault(ErrorKind::Value)));
    }
    let items = each_pair(alloc, op, first.items(), second.items())?;
    Ok(AbsArg::Area(first.with_items(items)))
}

// An infix operator on each pair of values up to the first refusal.
fn each_pair(alloc: Global, op: Op, first: &[Abs], second: &[Abs]) -> Result<Vec<Abs>, OpRefusal>
    requires { length first.now ≡ length second.now }
    ensures count { IfOk result (λ answers. length answers.items ≡ length first.now) }
    ensures narrow { Answers
        (each_tried (λ (p : Abs × Abs). infix_abs op p.0 p.1) (zip first.now second.now))
        (result_map_both (λ answers. answers.items) (λ refusal. refusal) result) }
{
    let mut answers = Vec::new(alloc);
    for (index, a) in first.iter().enumerate() {
        answers.push(infix_value(alloc, op, a, &second[index])?)?;
    }
    Ok(answers)
}
