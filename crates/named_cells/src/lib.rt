//! The cells that a text names by references, as the text of the decision cells does.
//! The main call is `cells_in`. It answers with the `Cells` of all references of a text, each cell once and in its order, or with nothing
//! where the text is no such list. `Cells` keeps the areas as they are named, and lists their cells where they are asked for.
//! Below it stands `statement_laws`, of which it has that the cells lie on the sheets. Above it stands `sheet_quick`, which reads parameter
//! cells so.
//! References are those of OpenFormula (OpenDocument 1.2 part 2, section 5.8). Lists of them are those of Excel Solver's name for the
//! decision cells (docs/FORMATS.md).
#![tactic(auto)]

mod cells;
mod texts;

pub use cells::Cells;
pub use texts::cells_in;
