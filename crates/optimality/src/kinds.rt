// What is asked of a row, and of the objective.
use frac128::Frac;

/// How a row's left side stands to its right side, and a row's form to 0.
#[derive(Clone, Copy, Debug, PartialEq, Eq)]
pub enum Relation {
    AtMost,
    Equal,
    AtLeast,
}

/// What is wanted of the objective.
#[derive(Clone, Copy, Debug, PartialEq, Eq)]
pub enum Goal {
    Max,
    Min,
    /// The model has a row for the value that is to be reached.
    Reach(Frac),
}
