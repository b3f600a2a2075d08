// A certificate that is being read: what is read of it, and what is still to come.
ghost use Rattle.std.specs.Prelude.{◌≡◌, ◌≢◌, ◌↔◌, [], IfOk, IsTrue};
ghost use Rattle.frac128.specs.Narrow.{IsNarrowWhole};
ghost use Rattle.opt_certificate.specs.Trees.{node_of};
ghost use Rattle.certificate_lines.specs.Line.{IsLine, claim_line, end_line, point_line, ray_line, split_line};
ghost use Rattle.certificate_lines.specs.Machine.{at_claim, at_end};
ghost use Rattle.certificate_texts.specs.Drafts.{IsLeaf, IsOpen, Taken, state_of};
ghost use Rattle.certificate_texts.specs.Lines.{line_of, said_of};
ghost use Rattle.certificate_texts.specs.Nodes.{node_line};

use crate::line::{Line, Said};
use frac128::Frac;
use memory::Memory;
use opt_certificate::TreeNode;
use std::alloc::Global;

/// The greatest weight of a text that is read.
pub(crate) const MOST_WEIGHT: usize = 100_000;

/// What is to come.
#[derive(Clone, Copy)]
pub(crate) enum State {
    Claim,
    /// The point, and a tree.
    Point,
    /// The point, and a direction.
    Start,
    Ray,
    /// So many trees, and the last line.
    Trees(usize),
    Nothing,
}

/// What is claimed.
#[derive(Clone, Copy)]
pub(crate) enum Kind {
    Optimal,
    Infeasible,
    Unbounded,
}

/// What is read of a certificate. The nodes stand in preorder, without the places of their parts.
#[derive(Drop)]
pub(crate) struct Draft {
    pub kind: Kind,
    pub value: Option<Frac>,
    pub point: Vec<Frac>,
    pub ray: Vec<Frac>,
    pub nodes: Vec<TreeNode>,
    pub state: State,
    pub weight: usize,
}

impl Draft {
    /// Nothing is read, and the claim is to come.
    pub fn new(alloc: Global) -> Draft
        ensures state { state_of result.state ≡ at_claim }
        ensures nodes { result.nodes.items ≡ [] }
        ensures weight { result.weight ≡ 0 }
    {
        Draft {
            kind: Kind::Infeasible,
            value: None,
            point: Vec::new(alloc),
            ray: Vec::new(alloc),
            nodes: Vec::new(alloc),
            state: State::Claim,
            weight: 0,
        }
    }

    /// Whether nothing is to come.
    pub fn is_whole(&self) -> bool
        ensures { IsTrue result ↔ (state_of self.now.state ≡ at_end) }
    {
        matches!(self.state, State::Nothing)
    }

    // Takes the first line.
    fn take_claim(&mut self, said: Said) -> bool
        requires { IsOpen self.old }
        ensures { Taken self.old (claim_line (said_of said)) result self.new }
    {
        let State::Claim = self.state else {
            return false;
        };
        match said {
            Said::Optimal(value) => {
                self.value = value;
                self.state = State::Point;
                true
            }
            Said::Infeasible => {
                self.kind = Kind::Infeasible;
                self.state = State::Trees(1);
                true
            }
            Said::Unbounded => {
                self.state = State::Start;
                true
            }
        }
    }

    // Takes the line of a point.
    fn take_point(&mut self, point: Vec<Frac>) -> bool
        requires { IsOpen self.old }
        ensures { Taken self.old (point_line point.items) result self.new }
    {
        match self.state {
            State::Point => {
                self.point = point;
                self.kind = Kind::Optimal;
                self.state = State::Trees(1);
                true
            }
            State::Start => {
                self.point = point;
                self.state = State::Ray;
                true
            }
            _ => false,
        }
    }

    // Takes the line of a direction.
    fn take_ray(&mut self, ray: Vec<Frac>) -> bool
        requires { IsOpen self.old }
        ensures { Taken self.old (ray_line ray.items) result self.new }
    {
        let State::Ray = self.state else {
            return false;
        };
        self.ray = ray;
        self.kind = Kind::Unbounded;
        self.state = State::Trees(0);
        true
    }

    // Takes the line of a split.
    fn take_split(&mut self, decision: u16, floor: i128) -> Result<bool, Memory>
        requires draft { IsOpen self.old }
        requires floor { IsNarrowWhole floor }
        ensures { IfOk result (λ b. Taken self.old (split_line decision floor) b self.new) }
    {
        let State::Trees(waiting) = self.state else {
            return Ok(false);
        };
        if waiting == 0 {
            return Ok(false);
        }
        self.nodes.push(TreeNode::Split(decision, floor, 0, 0))?;
        self.state = State::Trees(waiting + 1);
        Ok(true)
    }

    // Takes the line of a leaf of so many rows.
    fn take_leaf(&mut self, leaf: TreeNode, rows: usize) -> Result<bool, Memory>
        requires draft { IsOpen self.old }
        requires leaf { IsLeaf (node_of leaf) rows }
        ensures { IfOk result (λ b. Taken self.old (node_line (node_of leaf)) b self.new) }
    {
        let State::Trees(waiting) = self.state else {
            return Ok(false);
        };
        if waiting == 0 || rows >= MOST_WEIGHT - self.weight {
            return Ok(false);
        }
        self.nodes.push(leaf)?;
        self.state = State::Trees(waiting - 1);
        self.weight += rows + 1;
        Ok(true)
    }

    // Takes the last line.
    fn take_end(&mut self) -> bool
        requires { IsOpen self.old }
        ensures { Taken self.old end_line result self.new }
    {
        let State::Trees(waiting) = self.state else {
            return false;
        };
        if waiting != 0 {
            return false;
        }
        self.state = State::Nothing;
        true
    }

    /// Takes one more line; false where it can't follow, or is too heavy.
    pub fn take(&mut self, line: Line) -> Result<bool, Memory>
        requires draft { IsOpen self.old }
        requires line { IsLine (line_of line) }
        ensures { IfOk result (λ b. Taken self.old (line_of line) b self.new) }
    {
        match line {
            Line::Claim(said) => Ok(self.take_claim(said)),
            Line::Point(point) => Ok(self.take_point(point)),
            Line::Ray(ray) => Ok(self.take_ray(ray)),
            Line::Split(decision, floor) => self.take_split(decision, floor),
            Line::Best(multipliers) => {
                let rows = multipliers.len();
                self.take_leaf(TreeNode::Best(multipliers), rows)
            }
            Line::Empty(multipliers) => {
                let rows = multipliers.len();
                self.take_leaf(TreeNode::Empty(multipliers), rows)
            }
            Line::Clash(one, other) => self.take_leaf(TreeNode::Clash(one, other), 0),
            Line::End => Ok(self.take_end()),
        }
    }
}
