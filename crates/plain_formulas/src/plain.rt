// Which formulas are plain.
ghost use Rattle.std.specs.Prelude.{◌≡◌};
ghost use Rattle.formula_ast.specs.Tree.{trees};
ghost use Rattle.plain_formulas.specs.Plain.{are_plain, is_plain, takes_all};

use formula_ast::{Expr, Func, Node};

// Whether a function neither chooses among its arguments nor picks from them.
fn takes_all(func: Func) -> bool
    ensures { result ≡ takes_all func }
{
    match func {
        Func::If | Func::IfError | Func::Choose => false,
        Func::Index | Func::VLookup | Func::HLookup => false,
        Func::SumIf | Func::Rows | Func::Columns => false,
        _ => true,
    }
}

/// Whether no function in a formula chooses among its arguments or picks from them. A formula with a list of constants in it isn't
/// counted among these.
#[cycle(reading)]
pub fn is_plain(tree: &Expr) -> bool
    ensures { result ≡ is_plain tree.now }
{
    match &tree.node {
        Node::Array(_, _, _) => false,
        Node::Unknown(_, _) => false,
        Node::Call(func, args) => takes_all(*func) && are_plain(args),
        Node::Plus(of) => is_plain(of),
        Node::Minus(of) => is_plain(of),
        Node::Percent(of) => is_plain(of),
        Node::Infix(_, left, right) => is_plain(left) && is_plain(right),
        _ => true,
    }
}

// Whether all of some are.
#[cycle(reading)]
fn are_plain(exprs: &[Expr]) -> bool
    ensures { result ≡ are_plain (trees exprs.now) }
{
    for expr in exprs {
        if !is_plain(expr) {
            return false;
        }
    }
    true
}
