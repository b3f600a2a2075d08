// The prices of the rows of a sheet.
ghost use Rattle.std.specs.Prelude.{◌≡◌, ℕ, All, IfOk, List};
ghost use Rattle.commands.specs.Lines.{CanBeSaid};
ghost use Rattle.model_prices.specs.Prices.{IsContinuous};
ghost use Rattle.sheet_linear_model.specs.Answers.{prepared_of};
ghost use Rattle.sheet_linear_model.specs.Prepared.{IsPrepared};
ghost use Rattle.sheet_prices.specs.Answers.{HasAim, Prices};
ghost use Rattle.sheet_prices.specs.Prices.{IsTrueOf};
ghost use Rattle.solver_names.specs.Answers.{statement_of};
ghost use Rattle.cell_refs.specs.Listed.{IsListed};
ghost use Rattle.workbook.specs.State.{State};

use crate::questions::{first_whole, has_aim};
use crate::telling::{tell, tell_stop};
use commands::Answer;
use memory::Memory;
use sensitivity::prices;
use sheet_linear_model::Prepared;
use simplex::Work;
use std::alloc::Global;

// The prices where no cell is to be whole.
fn price_continuous(alloc: Global, of: &Prepared, units: u64) -> Result<Answer, Memory>
    requires prepared { (book : State) × (sheet : ℕ) × IsPrepared book sheet (prepared_of of.now) }
    requires aim { HasAim (statement_of of.now.statement) }
    requires continuous { IsContinuous of.now.model }
    ensures prices { IfOk result (Prices (prepared_of of.now) units) }
    ensures truth { IfOk result (λ answer. (book : State) (sheet : ℕ)
        → IsPrepared book sheet (prepared_of of.now)
        → IsTrueOf book (statement_of of.now.statement) answer) }
    ensures said { IfOk result (λ answer. (sheets : List (List ℕ)) → CanBeSaid sheets answer) }
{
    let mut work = Work { left: units };
    match prices(alloc, &of.model, &mut work) {
        Ok(found) => tell(alloc, of, found),
        Err(stop) => tell_stop(alloc, of, units, stop),
    }
}

/// What each row's right side is worth by the unit, by a run of the model's standard program that may take so many units: one opens it,
/// and each pivot takes one. Without an objective that is to be greatest or least, or with a cell that is to be whole, that is answered.
pub fn price_rows(alloc: Global, of: &Prepared, units: u64) -> Result<Answer, Memory>
    requires { (book : State) × (sheet : ℕ) × IsPrepared book sheet (prepared_of of.now) }
    ensures prices { IfOk result (Prices (prepared_of of.now) units) }
    ensures truth { IfOk result (λ answer. (book : State) (sheet : ℕ)
        → IsPrepared book sheet (prepared_of of.now)
        → IsTrueOf book (statement_of of.now.statement) answer) }
    ensures said { IfOk result (λ answer. (sheets : List (List ℕ))
        → All (IsListed sheets) of.now.statement.adj → CanBeSaid sheets answer) }
{
    if !has_aim(&of.statement) {
        return Ok(Answer::NoObjective);
    }
    match first_whole(of.statement.adj.cells(), of.model.whole()) {
        Some(cell) => Ok(Answer::NotContinuous(cell)),
        None => price_continuous(alloc, of, units),
    }
}
