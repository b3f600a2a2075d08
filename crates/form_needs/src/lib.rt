//! What the model of a sheet needs, and the first reason why there is none.
//! This crate has the definitions and their laws, and one type, `FormRefusal`: the reasons, each with its cell or place. `refusal_laws`
//! says that there is one first refusal or none, and that with none each side and the objective have the form of a number.
//! Below it stands `sheet_problems`, which has the problem of a sheet. Above it stand `needed_cells`, which computes over these
//! definitions, and `commands`, which prints refusals.
//! Which reason comes first is the program's own rule.
#![tactic(auto)]

mod refusal;

ghost use Rattle.form_needs.specs.Laws.{FormsWhereNoneIsRefused, OneRefusal};

pub use refusal::FormRefusal;

/// A sheet has one first refusal or none. Where nothing is refused, each side and the objective have the form of a number.
pub fn refusal_laws()
    ensures one { OneRefusal }
    ensures forms { FormsWhereNoneIsRefused }
{}
