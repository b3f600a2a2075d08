// The best value of a model with the price of each of its rows.
ghost use Rattle.std.specs.Prelude.{◌≡◌, ◌+◌, ℕ, IfOk, MatchResult};
ghost use Rattle.dictionaries.specs.Bland.{IsBestEnd};
ghost use Rattle.dictionaries.specs.Run.{IsReached, Leads};
ghost use Rattle.fractions.specs.Vectors.{at};
ghost use Rattle.model_prices.specs.Prices.{program_of, IsContinuous};
ghost use Rattle.sensitivity.specs.Prices.{last_multipliers};
ghost use Rattle.simplex.specs.Solved.{IsAnswer as IsLpAnswer};
ghost use Rattle.sensitivity.specs.Answers.{BestValueIs, IsAnswer, IsStop, IsPriced};
ghost use Rattle.sensitivity.specs.Truth.{PricesAreTrue};

use crate::price_list::all_prices;
use crate::row_prices::{Price, in_model};
use crate::stop::PriceStop;
use frac128::Frac;
use lin_model::LinModel;
use linear_programs::Standard;
use simplex::{LpAnswer, LpStop, Work, resume};
use std::alloc::Global;
use tableau::{Dict, start};

/// The best value with the price of each row, in the order of the rows; or that the model has no point, or no best one.
#[derive(Drop)]
pub enum PriceAnswer {
    Best(Frac, Vec<Price>),
    Infeasible,
    Unbounded,
}

// The answer where the run has its best end, with this value and these multipliers.
fn best(
    alloc: Global,
    of: &LinModel,
    program: &Standard,
    dict: &Dict,
    value: Frac,
    multipliers: &[Frac],
) -> Result<PriceAnswer, PriceStop>
    requires program { program.now ≡ program_of of.now }
    requires end { IsBestEnd dict.now }
    requires value { value ≡ at dict.now.objective 0 }
    requires multipliers { multipliers.now ≡ last_multipliers of.now dict.now }
    ensures { (left : ℕ) → MatchResult result (IsAnswer of.now dict.now) (IsStop of.now dict.now left) }
{
    match all_prices(alloc, of, program, dict, multipliers) {
        Ok(Ok(prices)) => Ok(PriceAnswer::Best(in_model(of.goal(), value), prices)),
        Ok(Err(place)) => Err(PriceStop::WideRange(place)),
        Err(_) => Err(PriceStop::Memory),
    }
}

// The answer that the program's answer gives.
fn answer_of(
    alloc: Global,
    of: &LinModel,
    program: &Standard,
    dict: &Dict,
    found: &LpAnswer,
) -> Result<PriceAnswer, PriceStop>
    requires program { program.now ≡ program_of of.now }
    requires found { IsLpAnswer program.now dict.now found.now }
    requires value { BestValueIs dict.now found.now }
    ensures { (left : ℕ) → MatchResult result (IsAnswer of.now dict.now) (IsStop of.now dict.now left) }
{
    match found {
        LpAnswer::Best(_, value, multipliers) => {
            best(alloc, of, program, dict, *value, multipliers)
        }
        LpAnswer::Infeasible(_) => Ok(PriceAnswer::Infeasible),
        LpAnswer::Unbounded(_, _) => Ok(PriceAnswer::Unbounded),
    }
}

// Goes on with the run from a dictionary on it, and prices the rows at its best end.
fn run_to_prices(
    alloc: Global,
    of: &LinModel,
    program: &Standard,
    dict: &mut Dict,
    work: &mut Work,
) -> Result<PriceAnswer, PriceStop>
    requires program { program.now ≡ program_of of.now }
    requires reached { IsReached program.now dict.old }
    ensures run { (k : ℕ) × Leads k dict.old dict.new × (k + work.new.left ≡ work.old.left) }
    ensures answer { MatchResult result (IsAnswer of.now dict.new) (IsStop of.now dict.new work.new.left) }
{
    let _regular = program.rows();
    match resume(alloc, program, dict, work) {
        Ok(found) => answer_of(alloc, of, program, dict, &found),
        Err(LpStop::WidePivot(basis, leaving, entering)) => {
            Err(PriceStop::WidePivot(basis, leaving, entering))
        }
        Err(LpStop::Spent) => Err(PriceStop::Spent),
        Err(LpStop::Memory) => Err(PriceStop::Memory),
    }
}

/// The best value of the model with the price of each row, by the simplex method on its standard program. It takes one unit
/// for that program, and one for each pivot.
pub fn prices(alloc: Global, of: &LinModel, work: &mut Work) -> Result<PriceAnswer, PriceStop>
    requires { IsContinuous of.now }
    ensures answer { IsPriced of.now work.old.left work.new.left result }
    ensures truth { IfOk result (PricesAreTrue of.now) }
{
    let _valid = of.whole();
    if work.left == 0 {
        return Err(PriceStop::Spent);
    }
    work.left -= 1;
    let program = of.standard(alloc, of.bounds(), false)?;
    let mut dict = start(alloc, &program)?;
    run_to_prices(alloc, of, &program, &mut dict, work)
}
