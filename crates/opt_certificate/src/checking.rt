// The check of a certificate.
ghost use Rattle.std.specs.Prelude.{◌≡◌, ◌↔◌, IsTrue, Ok, Option, length, true};
ghost use Rattle.opt_certificate.specs.Certificate.{IsTrueOf, Tree as Certificate, optimal, unbounded};
ghost use Rattle.affine_forms.specs.Assigned.{ReachTo};
ghost use Rattle.linear_models.specs.Model.{IsValid, maximised};
ghost use Rattle.opt_certificate.specs.Checks.{Checked, TreeChecked};
ghost use Rattle.opt_certificate.specs.Claims.{IsOfSize, claim_of};
ghost use Rattle.opt_certificate.specs.Nodes.{IsListed};
ghost use Rattle.opt_certificate.specs.Trees.{IsTree};

use crate::point::is_point;
use crate::tree::Tree;
use crate::walk::nodes_prove;
use crate::way::is_way_out;
use affine_forms::Form;
use frac128::Frac;
use lin_model::LinModel;
use std::alloc::Global;
use thiserror::Error;

/// What a certificate claims of its model.
#[derive(Debug, Drop)]
pub enum Claim {
    /// The point is optimal.
    Optimal(Vec<Frac>),
    Infeasible,
    /// From the point on, the direction makes the objective better than every number.
    Unbounded(Vec<Frac>, Vec<Frac>),
}

impl Claim {
    /// Whether its lists have a number for each of so many decisions.
    pub fn is_of_size(&self, decisions: usize) -> bool
        ensures { IsTrue result ↔ IsOfSize decisions self.now }
    {
        match self {
            Claim::Optimal(point) => point.len() == decisions,
            Claim::Infeasible => true,
            Claim::Unbounded(point, direction) => point.len() == decisions
                && direction.len() == decisions,
        }
    }
}

/// Why a check has no answer.
#[derive(Clone, Copy, Debug, PartialEq, Eq, Error)]
pub enum CheckStop {
    /// A sum at the node of this number in preorder does not fit 128 bits.
    #[error("a sum at node {0} is too wide")]
    Wide(u32),
    #[error("memory ran out")]
    Memory,
}

// Whether the tree proves that no point has a greater objective, or without that number that there is no point.
fn check_tree(
    alloc: Global,
    of: &LinModel,
    tree: &Tree,
    most: Option<Frac>,
) -> Result<bool, CheckStop>
    requires valid { IsValid of.now }
    ensures { (t : Option Certificate) → IsListed tree.now t → TreeChecked of.now most t result }
{
    let nodes = tree.nodes();
    if nodes.is_empty() {
        return Ok(false);
    }
    nodes_prove(alloc, of, nodes, most)
}

// Whether the point is optimal, by the tree.
fn check_optimal(
    alloc: Global,
    of: &LinModel,
    tree: &Tree,
    wanted: &Form,
    point: &[Frac],
) -> Result<bool, CheckStop>
    requires valid { IsValid of.now }
    requires wanted { wanted.now ≡ maximised of.now.goal of.now.objective }
    requires below { ReachTo wanted.now.terms (length of.now.whole) }
    requires one_each { length point.now ≡ length of.now.whole }
    ensures { (t : Option Certificate) → IsListed tree.now t
        → Checked of.now t (optimal point.now) result }
{
    match is_point(of, point) {
        Ok(true) => match wanted.eval(point) {
            Ok(most) => check_tree(alloc, of, tree, Some(most)),
            Err(_) => Err(CheckStop::Wide(0)),
        },
        Ok(false) => Ok(false),
        Err(_) => Err(CheckStop::Wide(0)),
    }
}

// Whether the direction leads out of the model from the point.
fn check_unbounded(
    of: &LinModel,
    wanted: &Form,
    point: &[Frac],
    direction: &[Frac],
) -> Result<bool, CheckStop>
    requires valid { IsValid of.now }
    requires wanted { wanted.now ≡ maximised of.now.goal of.now.objective }
    requires below { ReachTo wanted.now.terms (length of.now.whole) }
    requires point { length point.now ≡ length of.now.whole }
    requires direction { length direction.now ≡ length of.now.whole }
    ensures { (t : Option Certificate)
        → Checked of.now t (unbounded point.now direction.now) result }
{
    match is_point(of, point) {
        Ok(true) => match is_way_out(of, wanted, direction) {
            Ok(true) => Ok(true),
            Ok(false) => Ok(false),
            Err(_) => Err(CheckStop::Wide(0)),
        },
        Ok(false) => Ok(false),
        Err(_) => Err(CheckStop::Wide(0)),
    }
}

// The check, by the claim.
fn check_claim(alloc: Global, of: &LinModel, tree: &Tree, claim: &Claim) -> Result<bool, CheckStop>
    requires valid { IsValid of.now }
    requires sizes { IsOfSize (length of.now.whole) claim.now }
    ensures { (t : Option Certificate) → IsListed tree.now t
        → Checked of.now t (claim_of claim.now) result }
{
    let Ok(wanted) = of.greatest_form(alloc, false) else {
        return Err(CheckStop::Memory);
    };
    match claim {
        Claim::Optimal(point) => check_optimal(alloc, of, tree, &wanted, point),
        Claim::Infeasible => check_tree(alloc, of, tree, None),
        Claim::Unbounded(point, direction) => check_unbounded(of, &wanted, point, direction),
    }
}

/// Whether the certificate proves its claim. A yes comes exactly where each of its parts holds and no sum of the check
/// is too wide, and then the claim is true of the model.
pub fn check(alloc: Global, of: &LinModel, tree: &Tree, claim: &Claim) -> Result<bool, CheckStop>
    requires sizes { IsOfSize (length of.now.whole) claim.now }
    ensures listed { IsTree tree.now }
    ensures checked { (t : Option Certificate) → IsListed tree.now t
        → Checked of.now t (claim_of claim.now) result }
    ensures holds { result ≡ Ok true → IsTrueOf of.now (claim_of claim.now) }
{
    let _marks = of.whole();
    let _nodes = tree.nodes();
    check_claim(alloc, of, tree, claim)
}
