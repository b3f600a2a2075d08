// The value of a certified claim.
ghost use Rattle.std.specs.Prelude.{◌≡◌, ◌↔◌, IfOk, IsTrue, length};
ghost use Rattle.optimality.specs.Kinds.{goal_of};
ghost use Rattle.opt_certificate.specs.Claims.{IsOfSize, claim_of};
ghost use Rattle.opt_certificate.specs.Certificate.{optimal};
ghost use Rattle.optcheck_cli.specs.Inner.{Compared, ValueJudged, told_of};

use crate::verdict::Verdict;
use cell_refs::Cell;
use certificate_texts::Cert;
use frac128::Frac;
use lin_model::Goal;
use memory::Memory;
use opt_certificate::Claim;
use sheet_linear_model::Prepared;
use std::alloc::Global;

/// Whether the value of a certified claim is the objective's: it is told exactly where an optimal point is claimed and there is an
/// objective.
pub(crate) fn judge_value(alloc: Global, of: &Prepared, cert: &Cert) -> Result<Verdict, Memory>
    requires { IsOfSize (length of.now.model.whole) cert.now.claim }
    ensures { IfOk result (ValueJudged of.now.model of.now.statement.objective
        (goal_of of.now.statement.goal) (claim_of cert.now.claim) cert.now.value) }
{
    match &cert.claim {
        Claim::Optimal(point) => judge_point(alloc, of, point, cert.value),
        Claim::Infeasible => Ok(Verdict::Yes),
        Claim::Unbounded(_, _) => Ok(Verdict::Yes),
    }
}

// What is found of the value of a claimed optimal point.
fn judge_point(
    alloc: Global,
    of: &Prepared,
    point: &[Frac],
    value: Option<Frac>,
) -> Result<Verdict, Memory>
    requires { length point.now ≡ length of.now.model.whole }
    ensures { IfOk result (ValueJudged of.now.model of.now.statement.objective
        (goal_of of.now.statement.goal) (optimal point.now) value) }
{
    // (this call lends the proof that the model is valid)
    let _marks = of.model.whole();
    let wanted = of.model.greatest_form(alloc, false)?;
    match wanted.eval(point) {
        Ok(greatest) => {
            let told = objective_value(of.statement.objective, of.statement.goal, greatest);
            Ok(compared(value, told))
        }
        Err(_) => Ok(Verdict::Wide(0)),
    }
}

// The objective's number, where there is an objective, by that of the form that is to be as great as can be.
fn objective_value(objective: Option<Cell>, goal: Goal, greatest: Frac) -> Option<Frac>
    ensures { result ≡ told_of objective (goal_of goal) greatest }
{
    match objective {
        None => None,
        Some(_) => Some(match goal {
            Goal::Max => greatest,
            Goal::Min => greatest.neg(),
            Goal::Reach(wanted) => wanted,
        }),
    }
}

// A yes where the values are one.
fn compared(value: Option<Frac>, told: Option<Frac>) -> Verdict
    ensures { Compared (value ≡ told) result }
{
    if is_same(value, told) {
        Verdict::Yes
    } else {
        Verdict::No
    }
}

// Whether both are one number, or both none.
fn is_same(one: Option<Frac>, other: Option<Frac>) -> bool
    ensures { IsTrue result ↔ (one ≡ other) }
{
    match one {
        None => other.is_none(),
        Some(number) => match other {
            None => false,
            Some(second) => number == second,
        },
    }
}
