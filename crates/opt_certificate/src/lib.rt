//! Certificates of linear models, and their check, which trusts nobody who made them.
#![tactic(auto)]

ghost use Rattle.opt_certificate.specs.Certificate.{CertificatesHold};
ghost use Rattle.opt_certificate.specs.Clashes.{ClashLeavesNoPoint};
ghost use Rattle.opt_certificate.specs.Nodes.{ListedOnce};

mod checking;
mod clash;
mod groups;
mod leaf;
mod node;
mod point;
mod sums;
mod tree;
mod walk;
mod way;

pub use checking::{CheckStop, Claim, check};
pub use tree::{Tree, TreeNode};

/// What a certificate claims is true of its model.
pub fn certificates_hold()
    ensures { CertificatesHold }
{}

/// Nodes are those of one tree at most.
pub fn nodes_list_one_tree()
    ensures { ListedOnce }
{}

/// A box in which two decisions of a group are fixed to one number has no point whose groups are different.
pub fn clash_leaves_no_point()
    ensures { ClashLeavesNoPoint }
{}
