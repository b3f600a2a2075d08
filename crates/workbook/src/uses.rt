// The names in formulas.
ghost use Rattle.std.specs.Prelude.{◌≡◌, option_map};
ghost use Rattle.formula_ast.specs.Tree.{trees};
ghost use Rattle.workbook.specs.Uses.{any_use, name_nothing, names_nothing, is_wanted, some_use};

use formula_ast::{Expr, Node};

/// Whether a name stands in a formula, where it is looked for one, and else any; not in calls of functions that there aren't.
#[cycle(using_names)]
pub(crate) fn uses(expr: &Expr, wanted: Option<&str>) -> bool
    ensures { result ≡ some_use (is_wanted (option_map (λ w. w.now) wanted.entry)) expr.now }
{
    match &expr.node {
        Node::Name(name) => is_wanted(wanted, name.as_str()),
        Node::Call(_, args) => one_uses(args, wanted),
        Node::Plus(of) => uses(of, wanted),
        Node::Minus(of) => uses(of, wanted),
        Node::Percent(of) => uses(of, wanted),
        Node::Infix(_, left, right) => uses(left, wanted) || uses(right, wanted),
        _ => false,
    }
}

// Whether the wanted name stands in one of some parts; of no wanted name, whether any stands there.
#[cycle(using_names)]
fn one_uses(exprs: &[Expr], wanted: Option<&str>) -> bool
    ensures { result
        ≡ any_use (is_wanted (option_map (λ w. w.now) wanted.entry)) (trees exprs.now) }
{
    for expr in exprs {
        if uses(expr, wanted) {
            return true;
        }
    }
    false
}

// Whether a name is the one for which is looked, in any case of ASCII letters.
fn is_wanted(wanted: Option<&str>, name: &str) -> bool
    ensures { result ≡ is_wanted (option_map (λ w. w.now) wanted.entry) name.now }
{
    match wanted {
        Some(wanted) => name.eq_ignore_ascii_case(wanted),
        None => true,
    }
}

/// Whether neither a name nor a call of a function that there isn't stands in a formula.
#[cycle(naming_nothing)]
pub(crate) fn names_nothing(expr: &Expr) -> bool
    ensures { result ≡ names_nothing expr.now }
{
    match &expr.node {
        Node::Name(_) => false,
        Node::Unknown(_, _) => false,
        Node::Call(_, args) => name_nothing(args),
        Node::Plus(of) => names_nothing(of),
        Node::Minus(of) => names_nothing(of),
        Node::Percent(of) => names_nothing(of),
        Node::Infix(_, left, right) => names_nothing(left) && names_nothing(right),
        _ => true,
    }
}

// Whether neither a name nor a call of an unknown function stands in any of some parts.
#[cycle(naming_nothing)]
fn name_nothing(exprs: &[Expr]) -> bool
    ensures { result ≡ name_nothing (trees exprs.now) }
{
    for expr in exprs {
        if !names_nothing(expr) {
            return false;
        }
    }
    true
}
