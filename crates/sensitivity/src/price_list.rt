// The prices of all rows.
ghost use Rattle.std.specs.Prelude.{◌≡◌, ◌<◌, ◌+◌, Ok, Err, IfOk, MatchResult};
ghost use Rattle.model_prices.specs.Prices.{program_of};
ghost use Rattle.sensitivity.specs.Prices.{last_multipliers, ArePrices};

use crate::row_prices::{Price, price_of_row, relation_of_row, standard_rows};
use frac128::Frac;
use lin_model::LinModel;
use linear_programs::Standard;
use memory::Memory;
use std::alloc::Global;
use tableau::Dict;

/// The price of each row of the model, or the place of the first row of which a sum or quotient isn't narrow.
pub(crate) fn all_prices(
    alloc: Global,
    of: &LinModel,
    program: &Standard,
    dict: &Dict,
    multipliers: &[Frac],
) -> Result<Result<Vec<Price>, u16>, Memory>
    requires program { program.now ≡ program_of of.now }
    requires multipliers { multipliers.now ≡ last_multipliers of.now dict.now }
    ensures { IfOk result (λ r. MatchResult r (λ v. ArePrices of.now dict.now (Ok v.items))
        (λ place. ArePrices of.now dict.now (Err place))) }
{
    let _few = of.whole();
    let _height = program.rows();
    let _width = program.columns();
    let slacks = program.objective().len() as u16 + 1;
    let mut prices = Vec::new(alloc);
    let mut first: u16 = 0;
    for place in 0..of.rows().len() as u16 {
        let relation = relation_of_row(of, place);
        let price = match price_of_row(of, dict, multipliers, place, first, slacks + first) {
            Ok(price) => price,
            Err(_) => return Ok(Err(place)),
        };
        prices.push(price)?;
        first += standard_rows(relation);
    }
    Ok(Ok(prices))
}
