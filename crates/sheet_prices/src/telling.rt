// The prices of a model, or why there are none, as they are told of its sheet.
ghost use Rattle.std.specs.Prelude.{◌≡◌, ◌<◌, ◌≤◌, ℕ, IfOk, Ok, Err, length, map, zip};
ghost use Rattle.sheet_linear_model.specs.Answers.{prepared_of};
ghost use Rattle.sheet_linear_model.specs.Lines.{numbers_of};
ghost use Rattle.sheet_linear_model.specs.Prepared.{IsPrepared};
ghost use Rattle.sheet_prices.specs.Answers.{Tells};
ghost use Rattle.sheet_prices.specs.Inner.{FitsNumbers, StopFitsNumbers};
ghost use Rattle.sheet_prices.specs.Prices.{line_of, lines_of};
ghost use Rattle.workbook.specs.State.{State};

use commands::{Answer, PriceLine, PriceLines};
use memory::Memory;
use sensitivity::{Price, PriceAnswer, PriceStop};
use sheet_linear_model::{Prepared, row_numbers};
use std::alloc::Global;

// The line of a row of this number.
fn line_of(row: u16, price: &Price) -> PriceLine
    ensures { result ≡ line_of (row, price.now) }
{
    PriceLine {
        row,
        price: price.price,
        low: price.low,
        high: price.high,
    }
}

// The lines of the rows of these numbers.
fn lines_of(alloc: Global, numbers: &[u16], prices: &[Price]) -> Result<Vec<PriceLine>, Memory>
    requires { length numbers.now ≤ length prices.now }
    ensures { IfOk result (λ lines. lines.items ≡ map line_of (zip numbers.now prices.now)) }
{
    let mut lines = Vec::new(alloc);
    for (place, number) in numbers.iter().enumerate() {
        lines.push(line_of(*number, &prices[place]))?;
    }
    Ok(lines)
}

/// Tells the prices of the model.
pub(crate) fn tell(alloc: Global, of: &Prepared, found: PriceAnswer) -> Result<Answer, Memory>
    requires prepared { (book : State) × (sheet : ℕ) × IsPrepared book sheet (prepared_of of.now) }
    requires fits { FitsNumbers (numbers_of (prepared_of of.now)) found }
    ensures { IfOk result (λ answer. (units : ℕ) → Tells (prepared_of of.now) units (Ok found) answer) }
{
    match found {
        PriceAnswer::Best(value, prices) => {
            let numbers = row_numbers(alloc, of)?;
            let rows = lines_of(alloc, &numbers, &prices)?;
            Ok(Answer::Prices(PriceLines { value, rows }))
        }
        PriceAnswer::Infeasible => Ok(Answer::Infeasible),
        PriceAnswer::Unbounded => Ok(Answer::Unbounded),
    }
}

/// Tells why the model has none, with so many units.
pub(crate) fn tell_stop(
    alloc: Global,
    of: &Prepared,
    units: u64,
    stop: PriceStop,
) -> Result<Answer, Memory>
    requires prepared { (book : State) × (sheet : ℕ) × IsPrepared book sheet (prepared_of of.now) }
    requires fits { StopFitsNumbers (numbers_of (prepared_of of.now)) stop }
    ensures { IfOk result (Tells (prepared_of of.now) units (Err stop)) }
{
    match stop {
        PriceStop::WidePivot(basis, leaves, enters) => {
            Ok(Answer::WidePivot(Vec::new(alloc), basis, leaves, enters))
        }
        PriceStop::Spent => Ok(Answer::Budget(units)),
        PriceStop::WideRange(place) => {
            let numbers = row_numbers(alloc, of)?;
            Ok(Answer::WideRange(numbers[usize::from(place)]))
        }
        PriceStop::Memory => Err(Memory),
    }
}
