//! Shadow prices of the rows of a linear model, each with the range that the last dictionary gives it, in which it holds
//! (Chvátal, Linear Programming, chapters 5 and 10).
#![tactic(auto)]

mod answer;
mod continuous;
mod price_list;
mod ranges;
mod row_prices;
mod slopes;
mod stop;

pub use answer::{PriceAnswer, prices};
pub use continuous::is_continuous;
pub use row_prices::Price;
pub use stop::PriceStop;
