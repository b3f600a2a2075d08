// The prices of a sheet's rows, and their lines.
ghost use Rattle.std.specs.Prelude.{◌≡◌, ◌++◌, OnOk, codes, map, string_bytes};
ghost use Rattle.frac128.specs.Printed.{printed};
ghost use Rattle.model_lines.specs.Ended.{ended};
ghost use Rattle.model_lines.specs.Lines.{bound_text};
ghost use Rattle.commands.specs.Prices.{price_line, prices_text};

use crate::refusals::{say_number, say_text};
use frac128::Frac;
use sheet_model::Memory;

/// What a row's right side is worth by the unit, and between which changes of it (Chvátal, Linear Programming, chapters 5 and 10). The
/// right side is the number in the row's relation to which the rest stands; a change of it is in its units.
#[derive(Clone, Copy)]
pub struct PriceLine {
    /// The number of the row among those of all constraints, from 1, as the model's lines have it.
    pub row: u16,
    /// By how much the best value rises with each unit that the right side rises: negative where it falls.
    pub price: Frac,
    /// The price holds from this change of the right side on, which is 0 or less; none where it holds for each lesser one. Where several
    /// bases belong to one corner it may hold below, too.
    pub low: Option<Frac>,
    /// And up to this one, which is 0 or more; none where it holds for each greater one. It may hold above, too.
    pub high: Option<Frac>,
}

/// The best value of the objective, and the prices of the rows that are no bounds, in their order.
#[derive(Drop)]
pub struct PriceLines {
    pub value: Frac,
    pub rows: Vec<PriceLine>,
}

/// Appends the lines of prices, with line ends between them.
pub(crate) fn say_prices(prices: &PriceLines, to: &mut String) -> Result<(), Memory>
    ensures { OnOk result (string_bytes to.new ≡ string_bytes to.old ++ prices_text prices.now) }
{
    say_best(prices.value, to)?;
    to.push_str("\n")?;
    say_rows(&prices.rows, to)?;
    to.push_str("end")?;
    Ok(())
}

/// Appends the best value of an objective.
pub(crate) fn say_best(value: Frac, to: &mut String) -> Result<(), Memory>
    ensures { OnOk result (string_bytes to.new
        ≡ string_bytes to.old ++ (codes "optimal " ++ printed value)) }
{
    to.push_str("optimal ")?;
    value.write(to)
}

// Appends the line of each row, with its end.
fn say_rows(rows: &[PriceLine], to: &mut String) -> Result<(), Memory>
    ensures { OnOk result (string_bytes to.new
        ≡ string_bytes to.old ++ ended (map price_line rows.now)) }
{
    for row in rows {
        say_row(row, to)?;
        to.push_str("\n")?;
    }
    Ok(())
}

// Appends the line of a row, without its end.
fn say_row(row: &PriceLine, to: &mut String) -> Result<(), Memory>
    ensures { OnOk result (string_bytes to.new ≡ string_bytes to.old ++ price_line row.now) }
{
    say_number("row ", u64::from(row.row), to)?;
    to.push_str(" price ")?;
    row.price.write(to)?;
    to.push_str(" from ")?;
    say_change(row.low, to)?;
    to.push_str(" to ")?;
    say_change(row.high, to)
}

// Appends a change of a right side, or a stroke where there is none.
fn say_change(change: Option<Frac>, to: &mut String) -> Result<(), Memory>
    ensures { OnOk result (string_bytes to.new ≡ string_bytes to.old ++ bound_text change) }
{
    match change {
        Some(number) => number.write(to),
        None => say_text("-", to),
    }
}
