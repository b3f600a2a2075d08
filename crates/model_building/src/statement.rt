// The conditions of a sheet's statement: all but the forms of its places.
ghost use Rattle.std.specs.Prelude.{◌≡◌, ◌≤◌, IfOk, length, map};
ghost use Rattle.std.specs.Option.{option_map};
ghost use Rattle.cell_refs.specs.declared.adj.TheConstants.{DECISIONS};
ghost use Rattle.optimality.specs.Kinds.{goal_of};
ghost use Rattle.lin_model.specs.Lists.{lists_of};
ghost use Rattle.sheet_problems.specs.Forms.{condition_of, conditions_of};
ghost use Rattle.sheet_problems.specs.FromSolverNames.{groups_of, row_of, statement_of};

use cell_refs::Adj;
use lin_model::{Condition, Conditions, Goal};
use memory::Memory;
use sheet_problems::{RowOf, Statement};
use std::alloc::Global;

// Of each row its relation, and the number of the decision that its left side is, where it is one.
fn row_conditions(alloc: Global, decisions: &Adj, rows: &[RowOf]) -> Result<Vec<Condition>, Memory>
    ensures { IfOk result (λ v. v.items ≡ map (condition_of decisions.now) (map row_of rows.now)) }
{
    let mut conditions = Vec::new(alloc);
    for row in rows {
        conditions.push(Condition::new(decisions.find(row.left), row.rel))?;
    }
    Ok(conditions)
}

// What is wanted of the objective, where there is one.
fn goal_wanted(of: &Statement) -> Option<Goal>
    ensures { option_map goal_of result ≡ (conditions_of (statement_of of.now)).goal }
{
    match of.objective {
        Some(_) => Some(of.goal),
        None => None,
    }
}

// Equal lists of numbers.
fn copies_of(alloc: Global, groups: &[Vec<u16>]) -> Result<Vec<Vec<u16>>, Memory>
    ensures { IfOk result (λ copies. lists_of copies.items ≡ groups_of groups.now) }
{
    let mut copies = Vec::new(alloc);
    for group in groups {
        copies.push(Vec::from_slice(alloc, group)?)?;
    }
    Ok(copies)
}

/// The conditions that a statement makes with the forms of its objective and of its rows' sides.
pub fn conditions(alloc: Global, of: &Statement) -> Result<Conditions, Memory>
    requires few { length of.now.adj ≤ DECISIONS }
    ensures { IfOk result (λ c. c ≡ conditions_of (statement_of of.now)) }
{
    let decisions = of.adj.cells().len() as u16;
    let rows = row_conditions(alloc, &of.adj, &of.rows)?;
    let whole = Vec::from_slice(alloc, &of.whole)?;
    let binary = Vec::from_slice(alloc, &of.binary)?;
    let explicit = Vec::from_slice(alloc, &of.explicit)?;
    let different = copies_of(alloc, &of.different)?;
    Ok(Conditions::new(
        decisions,
        goal_wanted(of),
        rows,
        whole,
        binary,
        explicit,
        of.not_negative,
        different,
    ))
}
