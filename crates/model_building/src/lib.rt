//! What the names of a sheet state, as the conditions of a linear model.
//! The main call is `conditions`. It makes of a `Statement` the `Conditions` from which `lin_model` builds a model, once the forms of the
//! objective and of the sides are there.
//! Below it stand `sheet_problems`, which says which problem the sheet states, and `lin_model`. Above it stands `sheet_linear_model`.
//! What a statement's names mean is written in docs/FORMATS.md; they are those of Excel's Solver.
#![tactic(auto)]

mod statement;

pub use statement::conditions;
