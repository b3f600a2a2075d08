use frac128::Frac;
use thiserror::Error;

/// How far a search has come: a best point and its value, that there is no point, a point and a direction that leads on
/// from it without end, or that more is to be done. Points and directions have one number a decision.
#[derive(Drop)]
pub enum Progress {
    Optimal(Vec<Frac>, Frac),
    Infeasible,
    Unbounded(Vec<Frac>, Vec<Frac>),
    More,
}

/// Why a search stops: a pivot that is not narrow, with the node's path, the basic variables, and the variables that leave
/// and enter; the budget, with the units spent; or no memory. A step of a path is a decision, whether the step goes to the
/// upper part, and the bound that this part sets.
#[derive(Debug, Drop, Error)]
pub enum SearchStop {
    #[error("a pivot of a node is too wide")]
    WidePivot(Vec<(u16, bool, i128)>, Vec<u16>, u16, u16),
    #[error("the budget is spent after {0} units")]
    Budget(u64),
    #[error("memory ran out")]
    Memory,
}
