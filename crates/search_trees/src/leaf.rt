// Leaves with their multipliers.
ghost use Rattle.std.specs.Prelude.{◌≡◌, ◌≢◌, ◌↔◌, IfOk, IsTrue, List};
ghost use Rattle.fractions.specs.Rational.{ℚ};
ghost use Rattle.opt_certificate.specs.Trees.{node_of};
ghost use Rattle.search_certificates.specs.Leaves.{without_last_zeros};
ghost use Rattle.search_trees.specs.Solved.{EndsInZero, IsLeafOf, RunEnds};

use frac128::Frac;
use linear_programs::Standard;
use memory::Memory;
use opt_certificate::TreeNode;
use simplex::{LpAnswer, LpStop, Work, solve};
use std::alloc::Global;

// Whether the last number is 0.
fn ends_in_zero(numbers: &[Frac]) -> bool
    ensures { IsTrue result ↔ EndsInZero numbers.now }
{
    let count = numbers.len();
    if count == 0 {
        return false;
    }
    numbers[count - 1].is_zero()
}

// The multipliers without the zeros at their end.
fn without_last_zeros(multipliers: Vec<Frac>) -> Vec<Frac>
    ensures { result.items ≡ without_last_zeros multipliers.items }
{
    let mut left = multipliers;
    while ends_in_zero(&left) {
        left.pop();
    }
    left
}

/// The leaf of a program whose run ends after so many pivots, at a best point or without a point.
pub(crate) fn solved(alloc: Global, of: &Standard, pivots: u32) -> Result<TreeNode, Memory>
    requires { RunEnds of.now pivots }
    ensures { IfOk result (λ n. IsLeafOf of.now (node_of n)) }
{
    let _regular = of.rows();
    let mut work = Work {
        left: pivots as u64,
    };
    match solve(alloc, of, &mut work) {
        Ok(LpAnswer::Best(_, _, found)) => Ok(TreeNode::Best(without_last_zeros(found))),
        Ok(LpAnswer::Infeasible(found)) => Ok(TreeNode::Empty(without_last_zeros(found))),
        Ok(LpAnswer::Unbounded(_, _)) => unreachable!(),
        Err(LpStop::Memory) => Err(Memory),
        Err(LpStop::WidePivot(_, _, _)) => unreachable!(),
        Err(LpStop::Spent) => unreachable!(),
    }
}
