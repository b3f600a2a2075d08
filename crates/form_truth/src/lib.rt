//! The form table is right: each row, for every assignment. This crate has the laws and their proofs.
#![tactic(auto)]

mod answers;
mod functions;
mod operators;

pub use answers::{answers_are_right, what_bends_has_no_form};
pub use functions::{
    functions_of_areas_are_right, functions_of_items_are_right, functions_of_logicals_are_right,
    functions_of_numbers_are_right, products_are_right, searches_are_right,
    tests_of_values_are_right,
};
pub use operators::{choices_are_right, operators_are_right};
