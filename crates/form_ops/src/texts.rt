// Texts joined.
ghost use Rattle.form_table.specs.Operators.{joined};
ghost use Rattle.form_values.specs.Trials.{Answers};

use crate::results::fault;
use form_values::{Abs, OpRefusal};
use sheet_model::Value;

/// Two values of which one is open, joined: the first error is the result, and else the first that is open decides.
pub(crate) fn concatenation(a: &Abs, b: &Abs) -> Result<Abs, OpRefusal>
    ensures { Answers (joined a.now b.now) result }
{
    if let Abs::Known(Value::Error(kind)) = a {
        return Ok(fault(*kind));
    }
    if let Abs::Known(Value::Error(kind)) = b {
        return Ok(fault(*kind));
    }
    match a {
        Abs::Known(_) => Err(OpRefusal::Undecided(1)),
        Abs::Affine(_) | Abs::Test(_, _) => Err(OpRefusal::Undecided(0)),
    }
}
