ghost use Rattle.std.specs.Prelude.{◌≡◌, ◌≢◌, ◌<◌, ◌+◌, ℕ, List, [], ◌∷◌, length, AllPairs, IfOk, IfErr, MatchResult};
ghost use Rattle.dictionaries.specs.Dictionary.{Dictionary, first_of_program, pivoted, SameBasis};
ghost use Rattle.dictionaries.specs.Narrow.{IsNarrowPivot};
ghost use Rattle.dictionaries.specs.Bland.{NextPivot};
ghost use Rattle.dictionaries.specs.Run.{Follow, Leads, IsReached};
ghost use Rattle.simplex.specs.Solved.{IsAnswer, IsStop};

use crate::answer::{LpAnswer, LpStop, best, in_memory, infeasible, unbounded_answer, wide};
use crate::choose::{Next, choose_next};
use frac128::Wide;
use linear_programs::Standard;
use std::alloc::Global;
use tableau::{Dict, start};

/// The units that may still be spent; each pivot takes one.
#[derive(Drop)]
pub struct Work {
    pub left: u64,
}

/// Makes the next pivot of the run of the program, as `choose_next` gives it. On `Wide` nothing has changed.
pub fn make_pivot(of: &Standard, dict: &mut Dict, row: u16, col: u16) -> Result<(), Wide>
    requires reached { IsReached of.now dict.old }
    requires next { NextPivot dict.old row col }
    ensures made { MatchResult result (λ _. (dict.new ≡ pivoted dict.old row col)
        × IsNarrowPivot dict.old row col)
        (λ _. (dict.new ≡ dict.old) × ¬ (IsNarrowPivot dict.old row col)) }
    ensures reached { IsReached of.now dict.new }
{
    let _regular = of.rows();
    dict.pivot(row, col)?;
    Ok(())
}

/// Goes on with the run from a dictionary on it, one unit a pivot, until it ends or no unit is left.
pub fn resume(
    alloc: Global,
    of: &Standard,
    dict: &mut Dict,
    work: &mut Work,
) -> Result<LpAnswer, LpStop>
    requires { IsReached of.now dict.old }
    ensures run { (k : ℕ) × Leads k dict.old dict.new × (k + work.new.left ≡ work.old.left) }
    ensures reached { IsReached of.now dict.new }
    ensures answer { IfOk result (λ a. IsAnswer of.now dict.new a) }
    ensures stop { IfErr result (λ e. IsStop dict.new work.new.left e) }
    // However long the run is, no two of its dictionaries have the same basic variables.
    ensures unrepeated { (later : List Dictionary) → Follow (first_of_program of.now) later
        → AllPairs (λ d e. ¬ (SameBasis d e)) (first_of_program of.now ∷ later) }
{
    let _regular = of.rows();
    loop {
        match choose_next(of, dict) {
            Next::Best => return in_memory(best(alloc, of, dict)),
            Next::Infeasible => return in_memory(infeasible(alloc, of, dict)),
            Next::Unbounded(col) => return in_memory(unbounded_answer(alloc, of, dict, col)),
            Next::Pivot(row, col) => {
                if work.left == 0 {
                    return Err(LpStop::Spent);
                }
                match make_pivot(of, dict, row, col) {
                    Ok(()) => work.left -= 1,
                    Err(_) => return Err(wide(alloc, dict, row, col)),
                }
            }
        }
    }
}

/// Solves the program.
pub fn solve(alloc: Global, of: &Standard, work: &mut Work) -> Result<LpAnswer, LpStop>
    ensures run { (d : Dictionary) × (k : ℕ) × Leads k (first_of_program of.now) d
        × (k + work.new.left ≡ work.old.left)
        × MatchResult result (λ a. IsAnswer of.now d a) (λ e. IsStop d work.new.left e) }
    // However long the run is, no two of its dictionaries have the same basic variables.
    ensures unrepeated { (later : List Dictionary) → Follow (first_of_program of.now) later
        → AllPairs (λ d e. ¬ (SameBasis d e)) (first_of_program of.now ∷ later) }
{
    let _regular = of.rows();
    match start(alloc, of) {
        Ok(mut dict) => resume(alloc, of, &mut dict, work),
        Err(_) => Err(LpStop::Memory),
    }
}
