//! What holds of every statement that the names of a sheet make.
//! This crate has the definitions and their laws, and no code that runs. `statement_laws` says that each cell of a statement lies on one of
//! the sheets, that no decision cell is named twice, and that each side is there. `limits_of_names_are` says the limits as numbers.
//! Below it stands `sheet_problems`, which has the problem that a statement makes. Above it stand `named_cells` and `sheet_linear_model`.
//! The names are those of Excel's Solver (docs/FORMATS.md); the limits are the program's own.
#![tactic(auto)]

ghost use Rattle.statement_laws.specs.Laws.{FaultsAreListed, GroupsAreLeftSides, StatementsAreWhole};
ghost use Rattle.statement_laws.specs.Limits.{LimitsOfNamesAre};

/// Each cell that a statement names lies on one of the sheets, each to be decided once, and each side is there. Cells that are to be
/// different are to be decided, each stands once in its group, and the groups are the left sides that ask for it.
pub fn statement_laws()
    ensures whole { StatementsAreWhole }
    ensures groups { GroupsAreLeftSides }
    ensures faults { FaultsAreListed }
{}

/// The limits of what the names of a sheet state are these numbers.
pub fn limits_of_names_are()
    ensures { LimitsOfNamesAre }
{}
