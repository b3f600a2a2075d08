//! The prices of the rows of a sheet, and what they say of it: with the right side of one row moved within the range of its price, the best
//! value moves by so many times the price.
//! The main call is `price_rows`, over what `prepare` of `sheet_linear_model` has made. It refuses a sheet without an objective that is to
//! be greatest or least, and one with a cell that is to be whole. The laws say that prices of the model are prices of the sheet.
//! Below it stand `sheet_linear_model` and `sensitivity`, which finds the prices of a model. Above it stands `session`.
//! Chvátal, Linear Programming, has prices as dual variables in chapter 5, and their ranges in chapter 10.
#![tactic(auto)]

ghost use Rattle.sheet_prices.specs.Examples.{RaisedRightsHold};
ghost use Rattle.sheet_prices.specs.Laws.{AnswersAreTheSheets, BestValuesAgree, PricesAreTheSheets, RaisedRowsAgree};

use sheet_problems::examples_hold as worths;

mod pricing;
mod questions;
mod telling;

pub use pricing::price_rows;

/// Where there is an objective, the sheet with the right side of a row moved agrees with its linear model with that row moved: they have
/// one goal, permit the same assignments, and have the same objective under these.
pub fn raised_rows_agree()
    ensures { RaisedRowsAgree }
{}

/// So the best value of such a model is that of the sheet.
pub fn best_values_agree()
    ensures { BestValuesAgree }
{}

/// With no row moved, the best value of the model is that of the sheet, where there is an objective; where the model is infeasible or
/// unbounded, so is the sheet.
pub fn answers_are_the_sheets()
    ensures { AnswersAreTheSheets }
{}

/// Where there is an objective, what is true of the prices of the model is true of the sheet, row by row.
pub fn prices_are_the_sheets()
    ensures { PricesAreTheSheets }
{}

/// Right sides of rows of a small sheet, worked out by hand.
pub fn examples_hold()
    ensures { RaisedRightsHold }
{
    worths();
}
