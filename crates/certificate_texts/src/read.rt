// Reading a certificate's text.
ghost use Rattle.std.specs.Prelude.{◌≡◌, ◌≤◌, ◌^◌, IfOk, Option, length, map};
ghost use Rattle.std.specs.List.{AllByRecursion};
ghost use Rattle.opt_certificate.specs.Certificate.{Tree as Certificate};
ghost use Rattle.opt_certificate.specs.Claims.{claim_of};
ghost use Rattle.opt_certificate.specs.Nodes.{IsListed};
ghost use Rattle.opt_certificate.specs.Trees.{node_of};
ghost use Rattle.certificate_lines.specs.Line.{IsLine};
ghost use Rattle.certificate_texts.specs.Answers.{AnswerOf, CertIsOf, IsBlank, IsWhole, LinesRead, value_in};
ghost use Rattle.certificate_texts.specs.Drafts.{IsOpen, TextTaken, claim_in};
ghost use Rattle.certificate_texts.specs.Forests.{lines_of_trees, trees_in};
ghost use Rattle.certificate_texts.specs.Nodes.{node_line};

use crate::cert::{Cert, CertFault};
use crate::cutting::cut;
use crate::draft::{Draft, Kind, MOST_WEIGHT};
use crate::line::read_line;
use crate::places::set_places;
use frac128::Frac;
use memory::Memory;
use opt_certificate::{Claim, Tree, TreeNode};
use std::alloc::Global;

// Reads a line; false where none can stand there.
fn add_line(
    alloc: Global,
    text: &[u8],
    draft: &mut Draft,
    room: &mut String,
) -> Result<bool, Memory>
    requires { IsOpen draft.old }
    ensures { IfOk result (λ b. TextTaken draft.old text.now b draft.new) }
{
    let Some(line) = read_line(alloc, text, MOST_WEIGHT - 1, room)? else {
        return Ok(false);
    };
    let taken = draft.take(line)?;
    Ok(taken)
}

// Reads all lines, or names the one at which the text stops.
fn read_lines(alloc: Global, text: &[u8], draft: &mut Draft) -> Result<(), CertFault>
    requires size { length text.now ≤ 2 ^ 24 }
    requires blank { IsBlank draft.old }
    ensures { LinesRead text.now result draft.new }
{
    let mut room = String::new(alloc);
    let mut rest = text;
    let mut count = 0u32;
    while !draft.is_whole() {
        let (line, end) = cut(rest, b'\n');
        let [_, behind @ ..] = end else {
            return Err(CertFault::Line(count + 1));
        };
        match add_line(alloc, line, draft, &mut room) {
            Ok(true) => {}
            Ok(false) => return Err(CertFault::Line(count + 1)),
            Err(_) => return Err(CertFault::Memory),
        }
        count += 1;
        rest = behind;
    }
    if rest.is_empty() {
        Ok(())
    } else {
        Err(CertFault::Line(count + 1))
    }
}

// The tree of nodes in preorder.
fn tree_of(alloc: Global, nodes: Vec<TreeNode>) -> Result<Tree, Memory>
    requires size { length nodes.items ≤ 2 ^ 32 }
    requires lines { AllByRecursion IsLine (map node_line (map node_of nodes.items)) }
    requires tree { (t : Option Certificate)
        × (map node_line (map node_of nodes.items) ≡ lines_of_trees (trees_in t)) }
    ensures { IfOk result (λ made. (t : Option Certificate)
        → map node_line (map node_of nodes.items) ≡ lines_of_trees (trees_in t)
        → IsListed made t) }
{
    let mut nodes = nodes;
    set_places(alloc, &mut nodes)?;
    let Some(tree) = Tree::from_nodes(nodes) else {
        unreachable!();
    };
    Ok(tree)
}

// The claim.
fn claim(kind: Kind, point: Vec<Frac>, ray: Vec<Frac>) -> Claim
    ensures { claim_of result ≡ claim_in kind point.items ray.items }
{
    match kind {
        Kind::Optimal => Claim::Optimal(point),
        Kind::Infeasible => Claim::Infeasible,
        Kind::Unbounded => Claim::Unbounded(point, ray),
    }
}

// The value, which is told of an optimal point alone.
fn value_told(kind: Kind, value: Option<Frac>) -> Option<Frac>
    ensures { result ≡ value_in kind value }
{
    match kind {
        Kind::Optimal => value,
        Kind::Infeasible => None,
        Kind::Unbounded => None,
    }
}

// The certificate that is read.
fn cert_of(alloc: Global, draft: Draft) -> Result<Cert, Memory>
    requires { IsWhole draft }
    ensures { IfOk result (CertIsOf draft) }
{
    let Draft {
        kind,
        value,
        point,
        ray,
        nodes,
        state: _,
        weight: _,
    } = draft;
    let tree = tree_of(alloc, nodes)?;
    let claim = claim(kind, point, ray);
    let value = value_told(kind, value);
    Ok(Cert { tree, claim, value })
}

/// The certificate that the text is. `Line` names the first line, counted from 1, of which this holds: with the text up
/// to its end no certificate begins, or the leaves so far weigh more than 100,000, each one and its greatest row; or it
/// is the line behind the last one that ends with a line feed, where the certificate isn't over there.
pub fn read_cert(alloc: Global, text: &str) -> Result<Cert, CertFault>
    requires { length text.now ≤ 2 ^ 24 }
    ensures { AnswerOf text.now result }
{
    let mut draft = Draft::new(alloc);
    match read_lines(alloc, text.as_bytes(), &mut draft) {
        Ok(()) => match cert_of(alloc, draft) {
            Ok(cert) => Ok(cert),
            Err(_) => Err(CertFault::Memory),
        },
        Err(fault) => Err(fault),
    }
}
