// Whether conditions, an objective and sides are a statement.
ghost use Rattle.std.specs.Prelude.{◌≡◌, ◌↔◌, ◌<◌, All, IsTrue, Some, length};
ghost use Rattle.std.specs.Option.{option_map};
ghost use Rattle.affine_forms.specs.Assigned.{ReachTo};
ghost use Rattle.affine_forms.specs.Forms.{AffineForm, decision_form};
ghost use Rattle.linear_models.specs.Agreement.{Fits, IsGroupIn, IsOwn};
ghost use Rattle.linear_models.specs.Conditions.{constraint_of, objective_where};
ghost use Rattle.linear_models.specs.Statement.{IsOnce};
ghost use Rattle.lin_model.specs.Inner.{RowFits, RowsFit};
ghost use Rattle.optimality.specs.Kinds.{goal_of};
ghost use Rattle.lin_model.specs.Lists.{lists_of};

use crate::conditions::{Condition, Conditions};
use crate::groups::is_in;
use affine_forms::Form;
use optimality::Goal;

// Whether all numbers are below n.
fn are_below(list: &[u16], n: u16) -> bool
    ensures { IsTrue result ↔ All (λ j. j < n) list.now }
{
    list.iter().all(|j| *j < n)
}

// Whether the left side is one of the first n decisions, where the row says that it is a decision.
fn is_own(row: &Condition, left: &Form, n: u16) -> bool
    ensures { IsTrue result
        ↔ ((right : AffineForm) → IsOwn n (constraint_of row.now (left.now, right))) }
{
    match row.own() {
        None => true,
        Some(decision) => is_decision(left, decision, n),
    }
}

// Whether the form is that of the decision, which is one of the first n.
fn is_decision(form: &Form, decision: u16, n: u16) -> bool
    ensures { IsTrue result ↔ ((decision < n) × (form.now ≡ decision_form decision)) }
{
    decision < n && form.is_decision(decision)
}

// Whether a row and its sides fit n decisions.
fn row_fits(row: &Condition, sides: &(Form, Form), n: u16) -> bool
    ensures { IsTrue result ↔ RowFits n (constraint_of row.now sides.now) }
{
    let left = &sides.0;
    let right = &sides.1;
    if !is_own(row, left, n) {
        return false;
    }
    if !left.reaches_to(n as usize) {
        return false;
    }
    right.reaches_to(n as usize)
}

// Whether all rows and their sides do.
fn rows_fit(rows: &[Condition], sides: &[(Form, Form)], n: u16) -> bool
    requires { length sides.now ≡ length rows.now }
    ensures { IsTrue result ↔ RowsFit n rows.now sides.now }
{
    for (place, row) in rows.iter().enumerate() {
        if !row_fits(row, &sides[place], n) {
            return false;
        }
    }
    true
}

// Whether the objective does, where there is one.
fn objective_fits(goal: Option<Goal>, objective: &Form, n: u16) -> bool
    ensures { IsTrue result ↔ ((f : AffineForm)
        → objective_where (option_map goal_of goal) objective.now ≡ Some f → ReachTo f.terms n) }
{
    match goal {
        None => true,
        Some(_) => objective.reaches_to(n as usize),
    }
}

// Whether no number stands in the list twice.
fn are_once(list: &[u16]) -> bool
    ensures { IsTrue result ↔ IsOnce list.now }
{
    for (place, decision) in list.iter().enumerate() {
        if is_in(*decision, &list[place + 1..]) {
            return false;
        }
    }
    true
}

// Whether the group is of the first n decisions, none of them twice.
fn group_fits(group: &[u16], n: u16) -> bool
    ensures { IsTrue result ↔ IsGroupIn n group.now }
{
    are_below(group, n) && are_once(group)
}

// Whether all groups are.
fn groups_fit(groups: &[Vec<u16>], n: u16) -> bool
    ensures { IsTrue result ↔ All (IsGroupIn n) (lists_of groups.now) }
{
    for group in groups {
        if !group_fits(group, n) {
            return false;
        }
    }
    true
}

impl Conditions {
    /// Whether they make a statement with this objective and these sides: at most 512 decisions and 256 rows with two
    /// sides each, numbers of decisions, in a group none twice, and forms in them; and where a row's left side is a decision,
    /// its form is that one.
    /// It is the test for what `linear` requires of conditions that no statement gives, as those of tests.
    pub fn fits(&self, objective: &Form, sides: &[(Form, Form)]) -> bool
        ensures { IsTrue result ↔ Fits self.now objective.now sides.now }
    {
        let n = self.decisions();
        if n > 512 {
            return false;
        }
        if self.rows().len() > 256 {
            return false;
        }
        if sides.len() != self.rows().len() {
            return false;
        }
        if !objective_fits(self.goal(), objective, n) {
            return false;
        }
        if !rows_fit(self.rows(), sides, n) {
            return false;
        }
        if !are_below(self.whole(), n) {
            return false;
        }
        if !are_below(self.binary(), n) {
            return false;
        }
        groups_fit(self.groups(), n)
    }
}
