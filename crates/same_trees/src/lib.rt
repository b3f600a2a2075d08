//! Whether two trees of formulas are equal.
#![tactic(auto)]

ghost use Rattle.std.specs.Prelude.{◌≡◌, ◌↔◌, IsTrue, map};
ghost use Rattle.cell_refs.specs.declared.span.Span.{Span};
ghost use Rattle.formula_ast.specs.View.{tree_of};

use cell_refs::Area;
use formula_ast::{Expr, Node};

/// Whether two trees are equal, the places of their parts in the text among what they say.
#[cycle(comparing)]
pub fn is_same(one: &Expr, other: &Expr) -> bool
    ensures { IsTrue result ↔ (one.now ≡ other.now) }
{
    one.span == other.span && is_same_node(&one.node, &other.node)
}

// Whether two parts are equal where they stand in one place.
#[cycle(comparing)]
fn is_same_node(one: &Node, other: &Node) -> bool
    ensures { (at : Span) → IsTrue result ↔ (tree_of at one.now ≡ tree_of at other.now) }
{
    match (one, other) {
        (Node::Number(x), Node::Number(y)) => x == y,
        (Node::Text(s), Node::Text(t)) => s == t,
        (Node::Logical(b), Node::Logical(c)) => b == c,
        (Node::Fault(k), Node::Fault(l)) => k == l,
        (Node::Missing, Node::Missing) => true,
        (Node::Array(rows, columns, xs), Node::Array(other_rows, other_columns, ys)) => {
            is_same_size((*rows, *columns), (*other_rows, *other_columns)) && are_same(xs, ys)
        }
        (Node::Reference(areas), Node::Reference(others)) => are_same_areas(areas, others),
        (Node::Name(s), Node::Name(t)) => s == t,
        (Node::Unknown(s, xs), Node::Unknown(t, ys)) => s == t && are_same(xs, ys),
        (Node::Call(f, xs), Node::Call(g, ys)) => f == g && are_same(xs, ys),
        (Node::Plus(x), Node::Plus(y)) => is_same(x, y),
        (Node::Minus(x), Node::Minus(y)) => is_same(x, y),
        (Node::Percent(x), Node::Percent(y)) => is_same(x, y),
        (Node::Infix(op, left, right), Node::Infix(other_op, other_left, other_right)) => {
            op == other_op && is_same(left, other_left) && is_same(right, other_right)
        }
        _ => false,
    }
}

// Whether two lists of trees are equal.
#[cycle(comparing)]
fn are_same(one: &[Expr], other: &[Expr]) -> bool
    ensures { IsTrue result ↔ (one.now ≡ other.now) }
{
    if one.len() != other.len() {
        return false;
    }
    for (place, expr) in one.iter().enumerate() {
        if !is_same(expr, &other[place]) {
            return false;
        }
    }
    true
}

// Whether two arrays have the same numbers of rows and columns.
fn is_same_size(one: (u16, u16), other: (u16, u16)) -> bool
    ensures { IsTrue result ↔ (one ≡ other) }
{
    one == other
}

// Whether two lists of areas are equal.
fn are_same_areas(one: &[Area], other: &[Area]) -> bool
    ensures { IsTrue result ↔ (one.now ≡ other.now) }
{
    one == other
}
