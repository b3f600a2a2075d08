//! Numbers that overrode cells and are then written into them: every cell keeps its value. This crate has the definitions and their
//! law.
#![tactic(auto)]

ghost use Rattle.written_cells.specs.Written.{WrittenIsOverridden};

/// Where the number of each overridden cell is written into it, every cell is what it was.
pub fn written_laws()
    ensures written { WrittenIsOverridden }
{}
