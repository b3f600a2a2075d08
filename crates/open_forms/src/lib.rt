//! The forms of the objective and of the sides of a statement, made for one command over whatever cells it takes as decisions.
//! The main call is `make_forms`, which makes all forms over some decision cells and sides; no table keeps them. `objective` and `sides`
//! read the forms of numbers from these, and `roots` lists the places from which a model is made.
//! Below it stands `sheet_linear_model`, which does so over the decision cells alone and keeps the forms. Above it stands `sheet_quick`,
//! which takes parameter cells as decisions too.
//! What forms are is the program's own (docs/FORMS.md).
#![tactic(auto)]

mod making;
mod numbers;
mod places;

pub use extract_incr::Forms;
pub use making::make_forms;
pub use numbers::{objective, sides};
pub use places::roots;
pub use sheet_linear_model::{Linked, Steps};
