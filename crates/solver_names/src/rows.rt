// The expanded rows of constraints.
ghost use Rattle.std.specs.Prelude.{◌≡◌, ◌≤◌, ◌<◌, ◌++◌, ℕ, All, IfOk, OnOk, length, map};
ghost use Rattle.std.specs.List.{range_with_len};
ghost use Rattle.cell_refs.specs.Areas.{area_len};
ghost use Rattle.solver_names.specs.Answers.{row_of};
ghost use Rattle.solver_names.specs.Constraints as said;
ghost use Rattle.solver_names.specs.Faults as found;
ghost use Rattle.solver_names.specs.Fitting.{IsFitting, PlaceFits};
ghost use Rattle.solver_names.specs.Stated.{numbered};
ghost use Rattle.solver_names.specs.declared.limits.TheConstants.{MOST_CONSTRAINTS, MOST_ROWS};

use crate::constraints::{Code, Constraint, Side};
use crate::said::Said;
use crate::statements::RowOf;
use cell_refs::{Area, Cell};
use memory::Memory;
use optimality::Relation;
use std::alloc::Global;
use workbook::Place;

// How many rows a constraint has.
#[tactic(auto, using(crate::proofs::RowLists::rows_counted, crate::proofs::RowLists::few_cells))]
fn rows_in(constraint: &Constraint) -> u32
    ensures rows { result ≡ length (found.rows_of constraint.now) }
    ensures within { result ≤ 4194304 }
{
    let Said::Says(Code::Related(_)) = constraint.code else {
        return 0;
    };
    let Said::Says(left) = &constraint.left else {
        return 0;
    };
    // (this call lends the proof that the area lies within the rows and columns of a sheet)
    let _top = left.top();
    left.len()
}

/// How many rows there are.
pub(crate) fn row_count(constraints: &[Constraint]) -> u32
    requires { length constraints.now ≤ MOST_CONSTRAINTS }
    ensures { result ≡ length (found.all_rows constraints.now) }
{
    let mut count = 0;
    for constraint in constraints {
        count += rows_in(constraint);
    }
    count
}

// Where the right side of the row of a left cell stands, by the cell's place.
fn right_place(constraint: &Constraint, place: u32) -> Place
    requires { PlaceFits constraint.now.right place }
    ensures { result ≡ said.right_place constraint.now.k constraint.now.right place }
{
    let Said::Says(Side::Area(right)) = &constraint.right else {
        return Place::Side(constraint.k);
    };
    if right.len() == 1 {
        return Place::Cell(right.at(0));
    }
    Place::Cell(right.at(place))
}

// Adds the rows of a constraint whose code is a relation.
fn add_related(
    rows: &mut Vec<(Relation, Cell, Place)>,
    constraint: &Constraint,
    relation: Relation,
    left: Area,
) -> Result<(), Memory>
    requires { (i : ℕ) → i < area_len left → PlaceFits constraint.now.right i }
    ensures { OnOk result (rows.new.items ≡ rows.old.items
        ++ map (found.row_at constraint.now relation left) (range_with_len 0 (area_len left))) }
{
    for place in 0..left.len() {
        rows.push((relation, left.at(place), right_place(constraint, place)))?;
    }
    Ok(())
}

// Adds the rows of a constraint, not yet numbered.
fn add_rows(rows: &mut Vec<(Relation, Cell, Place)>, constraint: &Constraint) -> Result<(), Memory>
    requires { IsFitting constraint.now }
    ensures { OnOk result (rows.new.items ≡ rows.old.items ++ found.rows_of constraint.now) }
{
    let Said::Says(Code::Related(relation)) = constraint.code else {
        return Ok(());
    };
    let Said::Says(left) = &constraint.left else {
        return Ok(());
    };
    add_related(rows, constraint, relation, *left)
}

// All rows, not yet numbered.
fn all_rows(
    alloc: Global,
    constraints: &[Constraint],
) -> Result<Vec<(Relation, Cell, Place)>, Memory>
    requires { All IsFitting constraints.now }
    ensures { IfOk result (λ v. v.items ≡ found.all_rows constraints.now) }
{
    let mut rows = Vec::new(alloc);
    for constraint in constraints {
        add_rows(&mut rows, constraint)?;
    }
    Ok(rows)
}

/// All rows, numbered from 1 on.
pub(crate) fn rows_of(alloc: Global, constraints: &[Constraint]) -> Result<Vec<RowOf>, Memory>
    requires fit { All IsFitting constraints.now }
    requires few { length (found.all_rows constraints.now) ≤ MOST_ROWS }
    ensures { IfOk result (λ v. map row_of v.items ≡ numbered 1 (found.all_rows constraints.now)) }
{
    let mut numbered = Vec::new(alloc);
    let mut k = 0;
    for (rel, left, right) in &all_rows(alloc, constraints)? {
        k += 1;
        numbered.push(RowOf {
            k,
            left: *left,
            rel: *rel,
            right: *right,
        })?;
    }
    Ok(numbered)
}
