// A linear model as it is printed.
ghost use Rattle.std.specs.Prelude.{◌≡◌, ◌++◌, All, OnOk, length, option_map, string_bytes, zip};
ghost use Rattle.affine_forms.specs.Assigned.{ReachTo};
ghost use Rattle.optimality.specs.Kinds.{goal_of};
ghost use Rattle.model_lines.specs.Groups.{AreGroups, groups_of};
ghost use Rattle.model_lines.specs.Lines.{model_text};
ghost use Rattle.cell_refs.specs.Listed.{IsListed};

use crate::print::print_lines;
use affine_forms::Form;
use cell_refs::{Adj, SheetNames};
use lin_model::{Goal, LinModel};
use memory::Memory;
use std::marker::Model;

/// The cells to be decided, the objective where there is one, the numbers of the rows that are no bounds, the model, and the
/// numbers of decisions that are to be different, group by group. A row of the model without a number isn't printed.
#[derive(Drop)]
pub struct ModelLines {
    adj: Adj,
    goal: Option<Goal>,
    objective: Form,
    numbers: Vec<u16>,
    model: LinModel,
    groups: Vec<Vec<u16>>,
}

impl Model for ModelLines {
    ghost use Rattle.std.specs.Prelude.{◌≡◌, length, option_map, zip};
    ghost use Rattle.affine_forms.specs.Assigned.{ReachTo};
    ghost use Rattle.optimality.specs.Kinds.{goal_of};
    ghost use Rattle.model_lines.specs.Groups.{AreGroups, groups_of};
    ghost use Rattle.model_lines.specs.Lines.{ModelLines};

    ghost Value = { ModelLines };

    ghost view = { λ m. record {
      decisions = m.adj;
      aim = option_map (λ g. (goal_of g, m.objective)) m.goal;
      rows = zip m.numbers.items m.model.rows;
      whole = m.model.whole;
      bounds = m.model.bounds;
      groups = groups_of m.groups.items;
    } };

    ghost invariant = { λ m. (length m.adj ≡ length m.model.whole)
        × ReachTo m.objective.terms (length m.adj)
        × AreGroups (length m.adj) (groups_of m.groups.items) };
}

impl ModelLines {
    /// The lines of a model over these cells. Without a goal there is no objective.
    pub fn new(
        adj: Adj,
        goal: Option<Goal>,
        objective: Form,
        numbers: Vec<u16>,
        model: LinModel,
        groups: Vec<Vec<u16>>,
    ) -> ModelLines
        requires marks { length adj ≡ length model.whole }
        requires reach { ReachTo objective.terms (length adj) }
        requires groups { AreGroups (length adj) (groups_of groups.items) }
        ensures { result ≡ record {
          decisions = adj;
          aim = option_map (λ g. (goal_of g, objective)) goal;
          rows = zip numbers.items model.rows;
          whole = model.whole;
          bounds = model.bounds;
          groups = groups_of groups.items;
        } }
    {
        ModelLines {
            adj,
            goal,
            objective,
            numbers,
            model,
            groups,
        }
    }

    /// Appends the lines, with line ends between them.
    pub fn print(&self, sheets: &SheetNames, to: &mut String) -> Result<(), Memory>
        requires { All (IsListed sheets.now) self.now.decisions }
        ensures { OnOk result (string_bytes to.new
            ≡ string_bytes to.old ++ model_text sheets.now self.now) }
    {
        let cells = self.adj.cells();
        print_lines(
            self.goal,
            &self.objective,
            &self.numbers,
            &self.model,
            &self.groups,
            cells,
            sheets,
            to,
        )
    }
}
