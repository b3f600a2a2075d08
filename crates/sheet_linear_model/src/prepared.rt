// What is made of the names of a sheet.
ghost use Rattle.std.specs.Prelude.{◌≡◌};
ghost use Rattle.sheet_linear_model.specs.declared.prepared.NoModel.TheVariants as none;

use affine_forms::Form;
use commands::Answer;
use lin_model::LinModel;
use memory::Memory;
use solver_names::Statement;

/// What the names state, the forms of the objective and of both sides of each row, and the linear model. Without an objective its
/// form is 0.
#[derive(Drop)]
pub struct Prepared {
    pub statement: Statement,
    pub objective: Form,
    pub sides: Vec<(Form, Form)>,
    pub model: LinModel,
}

/// Why a sheet has no linear model.
#[derive(Drop)]
pub enum NoModel {
    /// What every command answers that needs it: the first fault of its names, else the first refusal of a needed place, else the
    /// first row whose difference of sides isn't narrow.
    Refused(Answer),
    Memory,
}

impl From<Memory> for NoModel {
    ghost from_gives = { λ _ e. e ≡ none.Memory };

    fn from(_: Memory) -> NoModel {
        NoModel::Memory
    }
}
