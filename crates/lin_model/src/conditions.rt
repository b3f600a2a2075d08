// What is stated beside the forms.
ghost use Rattle.std.specs.Prelude.{◌≡◌};
ghost use Rattle.std.specs.Option.{option_map};
ghost use Rattle.optimality.specs.Kinds.{goal_of, relation_of};
ghost use Rattle.lin_model.specs.Lists.{lists_of};

use optimality::{Goal, Relation};
use std::marker::Model;

/// Of a row of two sides: their relation, and the number of the decision that the left side is, where it is one.
#[derive(Debug, Drop)]
pub struct Condition {
    own: Option<u16>,
    relation: Relation,
}

impl Model for Condition {
    ghost use Rattle.linear_models.specs.Conditions.{Condition as Stated};
    ghost use Rattle.optimality.specs.Kinds.{relation_of};

    ghost Value = { Stated };

    ghost view = { λ c. record { own = c.own; relation = relation_of c.relation } };
}

impl Condition {
    pub fn new(own: Option<u16>, relation: Relation) -> Condition
        ensures { result ≡ record { own = own; relation = relation_of relation } }
    {
        Condition { own, relation }
    }

    pub fn own(&self) -> Option<u16>
        ensures { result ≡ self.now.own }
    {
        self.own
    }

    pub fn relation(&self) -> Relation
        ensures { relation_of result ≡ self.now.relation }
    {
        self.relation
    }
}

/// All of a statement but its forms. The lists have numbers of decisions: those that are whole, those that are 0 or 1,
/// those with a lower bound of their own, and groups of N that hold the numbers 1 to N, each once. Without an objective
/// there is no goal.
#[derive(Debug, Drop)]
pub struct Conditions {
    decisions: u16,
    goal: Option<Goal>,
    rows: Vec<Condition>,
    whole: Vec<u16>,
    binary: Vec<u16>,
    explicit: Vec<u16>,
    not_negative: bool,
    groups: Vec<Vec<u16>>,
}

impl Model for Conditions {
    ghost use Rattle.linear_models.specs.Conditions.{Conditions as Stated};
    ghost use Rattle.std.specs.Option.{option_map};
    ghost use Rattle.optimality.specs.Kinds.{goal_of};
    ghost use Rattle.lin_model.specs.Lists.{lists_of};

    ghost Value = { Stated };

    ghost view = { λ c. record {
      decisions = c.decisions;
      goal = option_map goal_of c.goal;
      rows = c.rows.items;
      whole = c.whole.items;
      binary = c.binary.items;
      explicit = c.explicit.items;
      not_negative = c.not_negative;
      groups = lists_of c.groups.items;
    } };
}

impl Conditions {
    pub fn new(
        decisions: u16,
        goal: Option<Goal>,
        rows: Vec<Condition>,
        whole: Vec<u16>,
        binary: Vec<u16>,
        explicit: Vec<u16>,
        not_negative: bool,
        groups: Vec<Vec<u16>>,
    ) -> Conditions
        ensures { result ≡ record {
          decisions = decisions;
          goal = option_map goal_of goal;
          rows = rows.items;
          whole = whole.items;
          binary = binary.items;
          explicit = explicit.items;
          not_negative = not_negative;
          groups = lists_of groups.items;
        } }
    {
        Conditions {
            decisions,
            goal,
            rows,
            whole,
            binary,
            explicit,
            not_negative,
            groups,
        }
    }

    pub fn decisions(&self) -> u16
        ensures { result ≡ self.now.decisions }
    {
        self.decisions
    }

    /// What is wanted of the objective; none where there is no objective.
    pub fn goal(&self) -> Option<Goal>
        ensures { option_map goal_of result ≡ self.now.goal }
    {
        self.goal
    }

    pub fn rows(&self) -> &[Condition]
        ensures { result.now ≡ self.now.rows }
    {
        &self.rows
    }

    /// The decisions that are to be whole.
    pub fn whole(&self) -> &[u16]
        ensures { result.now ≡ self.now.whole }
    {
        &self.whole
    }

    /// The decisions that are to be 0 or 1.
    pub fn binary(&self) -> &[u16]
        ensures { result.now ≡ self.now.binary }
    {
        &self.binary
    }

    /// The decisions that have a lower bound of their own, and so need not be at least 0.
    pub fn explicit(&self) -> &[u16]
        ensures { result.now ≡ self.now.explicit }
    {
        &self.explicit
    }

    /// Whether the other decisions are at least 0.
    pub fn not_negative(&self) -> bool
        ensures { result ≡ self.now.not_negative }
    {
        self.not_negative
    }

    /// The groups of decisions that hold the numbers from 1 to as many as they are, each once.
    pub fn groups(&self) -> &[Vec<u16>]
        ensures { lists_of result.now ≡ self.now.groups }
    {
        &self.groups
    }
}
