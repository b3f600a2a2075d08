//! Quick models of sheets: some cells of numbers are taken as parameters, and the forms are found once, over the decision cells and
//! these. Then a value of a parameter costs its putting in and a search, and the forms are not found again.
#![tactic(auto)]

mod forms;
mod giving;
mod laws;
mod opening;
mod parameters;
mod quick;
mod stops;

pub use giving::give;
pub use laws::quick_laws;
pub use opening::open_quick;
pub use quick::SheetQuick;
pub use stops::{NoGiven, NoQuick};
