// Writing a certificate.
ghost use Rattle.std.specs.Prelude.{◌≡◌, ◌<◌, ◌≤◌, ◌^◌, ◌++◌, ◌∷◌, [], suc, All, IfSome, None, OnErr, OnOk, Option, map, string_bytes};
ghost use Rattle.fractions.specs.Whole.{whole_ℚ};
ghost use Rattle.frac128.specs.Narrow.{IsNarrow, IsNarrowWhole};
ghost use Rattle.frac128.specs.Printed.{printed};
ghost use Rattle.opt_certificate.specs.Certificate.{Tree as Certificate, optimal, unbounded};
ghost use Rattle.opt_certificate.specs.Claims.{claim_of};
ghost use Rattle.opt_certificate.specs.Nodes.{HasNarrowFloor, IsListed};
ghost use Rattle.opt_certificate.specs.Trees.{node_of};
ghost use Rattle.certificate_lines.specs.Cert.{Cert, cert_text, cert_weight, claim_lines};
ghost use Rattle.certificate_lines.specs.Heads.{most_weight};
ghost use Rattle.certificate_lines.specs.Laws.{IsReadBack};
ghost use Rattle.certificate_lines.specs.Line.{clash_line, pair_words, spaced, split_line, text_of, value_words};
ghost use Rattle.certificate_texts.specs.Fits.{HasText, IsFit, NodeFits};
ghost use Rattle.certificate_texts.specs.Nodes.{listed_text, node_line};

use frac128::Frac;
use memory::Memory;
use opt_certificate::{Claim, Tree, TreeNode};

// A number behind a space.
fn write_number(number: Frac, to: &mut String) -> Result<(), Memory>
    ensures text { OnOk result (string_bytes to.new ≡ string_bytes to.old ++ 32 ∷ printed number) }
    ensures narrow { IsNarrow number }
{
    let _num = number.num();
    to.push_str(" ")?;
    number.write(to)?;
    Ok(())
}

// Numbers, each behind a space.
fn write_numbers(numbers: &[Frac], to: &mut String) -> Result<(), Memory>
    ensures text { OnOk result (string_bytes to.new
        ≡ string_bytes to.old ++ spaced (map printed numbers.now)) }
    ensures narrow { OnOk result (All IsNarrow numbers.now) }
{
    for number in numbers {
        write_number(*number, to)?;
    }
    Ok(())
}

// A number that is not 0, behind a space and its row, which is one above its place.
fn write_pair(place: usize, number: Frac, to: &mut String) -> Result<(), Memory>
    ensures text { OnOk result (string_bytes to.new
        ≡ string_bytes to.old ++ spaced (pair_words (suc place) (number ∷ []))) }
    ensures narrow { IsNarrow number }
{
    let _num = number.num();
    if number.is_zero() {
        return Ok(());
    }
    write_number(whole(place as i128 + 1), to)?;
    to.push_str(":")?;
    number.write(to)?;
    Ok(())
}

// The numbers that are not 0, each behind a space and its row.
fn write_pairs(numbers: &[Frac], to: &mut String) -> Result<(), Memory>
    ensures text { OnOk result (string_bytes to.new
        ≡ string_bytes to.old ++ spaced (pair_words 1 numbers.now)) }
    ensures narrow { OnOk result (All IsNarrow numbers.now) }
{
    for (place, number) in numbers.iter().enumerate() {
        write_pair(place, *number, to)?;
    }
    Ok(())
}

// A whole number that fits.
fn whole(n: i128) -> Frac
    requires { IsNarrowWhole n }
    ensures { result ≡ whole_ℚ n }
{
    match Frac::new(n, 1) {
        Some(number) => number,
        None => unreachable!(),
    }
}

// A split's line.
fn write_split(decision: u16, floor: i128, to: &mut String) -> Result<(), Memory>
    requires { IsNarrowWhole floor }
    ensures text { OnOk result (string_bytes to.new
        ≡ string_bytes to.old ++ text_of (split_line decision floor ∷ [])) }
    ensures decision { decision < 2 ^ 16 }
{
    to.push_str("split")?;
    write_number(whole(i128::from(decision) + 1), to)?;
    write_number(whole(floor), to)?;
    to.push_str("\n")?;
    Ok(())
}

// The line of two decisions of a group.
fn write_clash(one: u16, other: u16, to: &mut String) -> Result<(), Memory>
    ensures text { OnOk result (string_bytes to.new
        ≡ string_bytes to.old ++ text_of (clash_line one other ∷ [])) }
    ensures decisions { (one < 2 ^ 16) × (other < 2 ^ 16) }
{
    to.push_str("clash")?;
    write_number(whole(i128::from(one) + 1), to)?;
    write_number(whole(i128::from(other) + 1), to)?;
    to.push_str("\n")?;
    Ok(())
}

// A node's line.
fn write_node(node: &TreeNode, to: &mut String) -> Result<(), Memory>
    requires { HasNarrowFloor (node_of node.now) }
    ensures text { OnOk result (string_bytes to.new
        ≡ string_bytes to.old ++ text_of (node_line (node_of node.now) ∷ [])) }
    ensures fits { OnOk result (NodeFits (node_of node.now)) }
{
    match node {
        TreeNode::Split(decision, floor, _, _) => {
            let number = *floor;
            write_split(*decision, number, to)
        }
        TreeNode::Best(multipliers) => {
            to.push_str("best")?;
            write_pairs(multipliers, to)?;
            to.push_str("\n")?;
            Ok(())
        }
        TreeNode::Empty(multipliers) => {
            to.push_str("empty")?;
            write_pairs(multipliers, to)?;
            to.push_str("\n")?;
            Ok(())
        }
        TreeNode::Clash(one, other) => write_clash(*one, *other, to),
    }
}

// The lines of nodes.
fn write_nodes(nodes: &[TreeNode], to: &mut String) -> Result<(), Memory>
    requires { All HasNarrowFloor (map node_of nodes.now) }
    ensures text { OnOk result (string_bytes to.new
        ≡ string_bytes to.old ++ text_of (map node_line (map node_of nodes.now))) }
    ensures fits { OnOk result (All (λ node. NodeFits (node_of node)) nodes.now) }
{
    for node in nodes {
        write_node(node, to)?;
    }
    Ok(())
}

// A value behind a space, where it is told.
fn write_value(value: Option<Frac>, to: &mut String) -> Result<(), Memory>
    ensures text { OnOk result (string_bytes to.new
        ≡ string_bytes to.old ++ spaced (value_words value)) }
    ensures narrow { OnOk result (IfSome value IsNarrow) }
{
    match value {
        Some(number) => write_number(number, to),
        None => Ok(()),
    }
}

// The claim of an optimal point, with its value where that is told.
fn write_optimal(value: Option<Frac>, point: &[Frac], to: &mut String) -> Result<(), Memory>
    ensures text { OnOk result (string_bytes to.new
        ≡ string_bytes to.old ++ text_of (claim_lines (optimal point.now) value)) }
    ensures point { OnOk result (All IsNarrow point.now) }
    ensures value { OnOk result (IfSome value IsNarrow) }
{
    to.push_str("cert optimal")?;
    write_value(value, to)?;
    to.push_str("\npoint")?;
    write_numbers(point, to)?;
    to.push_str("\n")?;
    Ok(())
}

// The claim that the objective has no end.
fn write_unbounded(point: &[Frac], direction: &[Frac], to: &mut String) -> Result<(), Memory>
    ensures text { OnOk result (string_bytes to.new
        ≡ string_bytes to.old ++ text_of (claim_lines (unbounded point.now direction.now) None)) }
    ensures point { OnOk result (All IsNarrow point.now) }
    ensures direction { OnOk result (All IsNarrow direction.now) }
{
    to.push_str("cert unbounded\npoint")?;
    write_numbers(point, to)?;
    to.push_str("\nray")?;
    write_numbers(direction, to)?;
    to.push_str("\n")?;
    Ok(())
}

// All lines.
fn write_lines(
    nodes: &[TreeNode],
    claim: &Claim,
    value: Option<Frac>,
    to: &mut String,
) -> Result<(), Memory>
    requires { All HasNarrowFloor (map node_of nodes.now) }
    ensures text { OnOk result (string_bytes to.new
        ≡ string_bytes to.old ++ listed_text (claim_of claim.now) value (map node_of nodes.now)) }
    ensures fits { OnOk result (IsFit (claim_of claim.now) value (map node_of nodes.now)) }
{
    match claim {
        Claim::Optimal(point) => {
            write_optimal(value, point, to)?;
            write_nodes(nodes, to)?;
            to.push_str("end\n")?;
            Ok(())
        }
        Claim::Infeasible => {
            to.push_str("cert infeasible\n")?;
            write_nodes(nodes, to)?;
            to.push_str("end\n")?;
            Ok(())
        }
        Claim::Unbounded(point, direction) => {
            write_unbounded(point, direction, to)?;
            to.push_str("end\n")?;
            Ok(())
        }
    }
}

/// Appends the certificate's text, or nothing where memory runs out. It reads back as the same certificate where it has a
/// text of its own (`HasText`) and weighs at most 100,000. Else the text has what can be told: no nodes with the claim
/// that the objective has no end, and a value with that of an optimal point alone.
pub fn write_cert(
    tree: &Tree,
    claim: &Claim,
    value: Option<Frac>,
    to: &mut String,
) -> Result<(), Memory>
    ensures ok { OnOk result ((t : Option Certificate) → IsListed tree.now t
        → string_bytes to.new ≡ string_bytes to.old
        ++ cert_text (record { tree = t; claim = claim_of claim.now; value = value })) }
    ensures err { OnErr result (string_bytes to.new ≡ string_bytes to.old) }
    ensures reads_back { OnOk result ((c : Cert) → IsListed tree.now c.tree
        → c.claim ≡ claim_of claim.now → c.value ≡ value
        → HasText c → cert_weight c ≤ most_weight → IsReadBack c) }
{
    let mut text = String::new(*to.allocator());
    let nodes = tree.nodes();
    write_lines(nodes, claim, value, &mut text)?;
    to.push_str(text.as_str())?;
    Ok(())
}
