// Linear models.
ghost use Rattle.std.specs.Prelude.{◌≡◌, IfOk};
ghost use Rattle.linear_models.specs.Model.{IsValid};
ghost use Rattle.optimality.specs.Kinds.{goal_of, relation_of};
ghost use Rattle.lin_model.specs.Lists.{lists_of};

use crate::bounds::BoundBox;
use crate::groups::copy_groups;
use affine_forms::Form;
use memory::Memory;
use optimality::{Goal, Relation};
use std::alloc::Global;
use std::marker::Model;

/// A form in a relation to 0.
#[derive(Drop)]
pub struct FormRow {
    form: Form,
    relation: Relation,
}

impl Model for FormRow {
    ghost use Rattle.affine_forms.specs.Forms.{AffineForm};
    ghost use Rattle.optimality.specs.Problem.{Relation as Kind};
    ghost use Rattle.optimality.specs.Kinds.{relation_of};

    ghost Value = { AffineForm × Kind };

    ghost view = { λ r. (r.form, relation_of r.relation) };
}

impl FormRow {
    pub fn new(form: Form, relation: Relation) -> FormRow
        ensures { result ≡ (form, relation_of relation) }
    {
        FormRow { form, relation }
    }

    pub fn form(&self) -> &Form
        ensures { result.now ≡ self.now.0 }
    {
        &self.form
    }

    pub fn relation(&self) -> Relation
        ensures { relation_of result ≡ self.now.1 }
    {
        self.relation
    }

    /// An equal row.
    pub fn copy(&self) -> Result<FormRow, Memory>
        ensures { IfOk result (λ copy. copy ≡ self.now) }
    {
        let form = self.form.copy()?;
        Ok(FormRow {
            form,
            relation: self.relation,
        })
    }
}

/// An objective, rows, whole marks, bounds and groups: one mark and one bound on either side for each decision. The
/// decisions of a group hold different numbers.
#[derive(Drop)]
pub struct LinModel {
    goal: Goal,
    objective: Form,
    rows: Vec<FormRow>,
    whole: Vec<bool>,
    bounds: BoundBox,
    groups: Vec<Vec<u16>>,
}

impl Model for LinModel {
    ghost use Rattle.linear_models.specs.Model.{Model as Linear, IsValid};
    ghost use Rattle.lin_model.specs.ModelFields.{model_of};

    ghost Value = { Linear };

    ghost view = { model_of };

    ghost invariant = { λ m. IsValid (model_of m) };
}

impl LinModel {
    pub fn new(
        goal: Goal,
        objective: Form,
        rows: Vec<FormRow>,
        whole: Vec<bool>,
        bounds: BoundBox,
        groups: Vec<Vec<u16>>,
    ) -> LinModel
        requires valid { IsValid (record {
          goal = goal_of goal;
          objective = objective;
          rows = rows.items;
          whole = whole.items;
          bounds = bounds;
          groups = lists_of groups.items;
        }) }
        ensures { result ≡ record {
          goal = goal_of goal;
          objective = objective;
          rows = rows.items;
          whole = whole.items;
          bounds = bounds;
          groups = lists_of groups.items;
        } }
    {
        LinModel {
            goal,
            objective,
            rows,
            whole,
            bounds,
            groups,
        }
    }

    pub fn goal(&self) -> Goal
        ensures { goal_of result ≡ self.now.goal }
    {
        self.goal
    }

    /// The constant 0 where a value is to be reached or there is no objective.
    pub fn objective(&self) -> &Form
        ensures { result.now ≡ self.now.objective }
    {
        &self.objective
    }

    pub fn rows(&self) -> &[FormRow]
        ensures { result.now ≡ self.now.rows }
    {
        &self.rows
    }

    /// Which decisions are to be whole.
    pub fn whole(&self) -> &[bool]
        ensures whole { result.now ≡ self.now.whole }
        ensures valid { IsValid self.now }
    {
        &self.whole
    }

    pub fn bounds(&self) -> &BoundBox
        ensures { result.now ≡ self.now.bounds }
    {
        &self.bounds
    }

    /// The groups of decisions that hold different numbers: each has a whole mark and two bounds.
    pub fn groups(&self) -> &[Vec<u16>]
        ensures groups { lists_of result.now ≡ self.now.groups }
        ensures valid { IsValid self.now }
    {
        &self.groups
    }

    /// An equal model.
    pub fn copy(&self) -> Result<LinModel, Memory>
        ensures { IfOk result (λ copy. copy ≡ self.now) }
    {
        let alloc = *self.whole.allocator();
        let objective = self.objective.copy()?;
        let rows = copy_rows(alloc, &self.rows)?;
        let whole = Vec::from_slice(alloc, &self.whole)?;
        let bounds = self.bounds.copy(alloc)?;
        let groups = copy_groups(alloc, &self.groups)?;
        Ok(LinModel {
            goal: self.goal,
            objective,
            rows,
            whole,
            bounds,
            groups,
        })
    }
}

// Equal rows.
fn copy_rows(alloc: Global, rows: &[FormRow]) -> Result<Vec<FormRow>, Memory>
    ensures { IfOk result (λ copies. copies.items ≡ rows.now) }
{
    let mut copies = Vec::new(alloc);
    for row in rows {
        copies.push(row.copy()?)?;
    }
    Ok(copies)
}
