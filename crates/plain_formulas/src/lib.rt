//! Formulas that look at each cell to which they refer: no function in them chooses among its arguments or picks from them.
#![tactic(auto)]

ghost use Rattle.plain_formulas.specs.Plain.{PlainLooksAtAll};

mod plain;

pub use plain::is_plain;

/// A plain formula looks at all cells to which it refers, whatever is known of cells, and at no others.
pub fn plain_looks_at_all()
    ensures { PlainLooksAtAll }
{}
