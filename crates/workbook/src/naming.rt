// Formulas with what their names stand for in the names' places.
ghost use Rattle.std.specs.Prelude.{◌≡◌, ◌<◌, All, IfOk, IfSome, length, option_map};
ghost use Rattle.formula_ast.specs.Functions.{Takes};
ghost use Rattle.formula_ast.specs.Sound.{AreSoundWithin, IsForward, IsSound, IsWithin, count};
ghost use Rattle.formula_ast.specs.Tree.{span_of, trees};
ghost use Rattle.formula_ast.specs.Tree as tree;
ghost use Rattle.workbook.specs.Kinds.{all_with_names, meant, with_names};
ghost use Rattle.workbook.specs.Known.{names_in};
ghost use Rattle.workbook.specs.Scoped.{IsShort};

use crate::named::{Scope, in_place};
use cell_refs::{Op, Span};
use formula_ast::{Expr, Func, Node};
use memory::Memory;
use std::alloc::Global;

/// A formula with what its names stand for in their places; none where one stands for nothing, or where there is no function of
/// that name.
#[cycle(naming)]
pub(crate) fn with_names(alloc: Global, scope: &Scope, expr: &Expr) -> Result<Option<Expr>, Memory>
    requires listed { scope.now.home.0 < length scope.now.sheets.now }
    requires short { All IsShort (names_in scope.now) }
    ensures { IfOk result (λ found. found
        ≡ with_names (meant scope.now.sheets.now (names_in scope.now) scope.now.home.0) expr.now) }
{
    expr.soundness();
    let span = expr.span;
    match &expr.node {
        Node::Name(name) => in_place(alloc, scope, span, name.as_str()),
        Node::Unknown(_, _) => Ok(None),
        Node::Call(func, args) => Ok(call(span, *func, all_named(alloc, scope, span, args)?)),
        Node::Plus(of) => Ok(plus(span, box_with_names(alloc, scope, of)?)),
        Node::Minus(of) => Ok(minus(span, box_with_names(alloc, scope, of)?)),
        Node::Percent(of) => Ok(percent(span, box_with_names(alloc, scope, of)?)),
        Node::Infix(op, left, right) => {
            let Some(left) = box_with_names(alloc, scope, left)? else {
                return Ok(None);
            };
            Ok(infix(span, *op, left, box_with_names(alloc, scope, right)?))
        }
        _ => Ok(Some(expr.copy(alloc)?)),
    }
}

// A formula with what names stand for in their places, in a box.
#[cycle(naming)]
fn box_with_names(alloc: Global, scope: &Scope, expr: &Expr) -> Result<Option<Box<Expr>>, Memory>
    requires listed { scope.now.home.0 < length scope.now.sheets.now }
    requires short { All IsShort (names_in scope.now) }
    ensures found { IfOk result (λ found. option_map (λ b. b.value) found
        ≡ with_names (meant scope.now.sheets.now (names_in scope.now) scope.now.home.0) expr.now) }
    ensures span { IfOk result (λ found. IfSome found (λ b. span_of b.value ≡ span_of expr.now)) }
    ensures sound { IfOk result (λ found. IfSome found (λ b. IsSound b.value)) }
{
    let Some(made) = with_names(alloc, scope, expr)? else {
        return Ok(None);
    };
    made.soundness();
    Ok(Some(Box::new(alloc, made)?))
}

// Some parts, each with what names stand for in their places.
#[cycle(naming)]
fn all_named(
    alloc: Global,
    scope: &Scope,
    span: Span,
    exprs: &[Expr],
) -> Result<Option<Vec<Expr>>, Memory>
    requires listed { scope.now.home.0 < length scope.now.sheets.now }
    requires short { All IsShort (names_in scope.now) }
    requires within { AreSoundWithin span (trees exprs.now) }
    ensures found { IfOk result (λ found. option_map (λ v. trees v.items) found
        ≡ all_with_names (meant scope.now.sheets.now (names_in scope.now) scope.now.home.0)
        (trees exprs.now)) }
    ensures sound { IfOk result (λ found. IfSome found (λ v. AreSoundWithin span (trees v.items))) }
    ensures count { IfOk result (λ found.
        IfSome found (λ v. count (trees v.items) ≡ count (trees exprs.now))) }
{
    let mut found = Vec::new(alloc);
    for expr in exprs {
        let Some(made) = with_names(alloc, scope, expr)? else {
            return Ok(None);
        };
        made.soundness();
        found.push(made)?;
    }
    Ok(Some(found))
}

// A call of these arguments.
fn call(span: Span, func: Func, args: Option<Vec<Expr>>) -> Option<Expr>
    requires forward { IsForward span }
    requires takes { IfSome args (λ v. Takes func (count (trees v.items))) }
    requires sound { IfSome args (λ v. AreSoundWithin span (trees v.items)) }
    ensures { result ≡ option_map (tree.Call span func) (option_map (λ v. trees v.items) args) }
{
    match args {
        Some(args) => Some(Expr {
            span,
            node: Node::Call(func, args),
        }),
        None => None,
    }
}

// A part with a plus before it.
fn plus(span: Span, of: Option<Box<Expr>>) -> Option<Expr>
    requires forward { IsForward span }
    requires within { IfSome of (λ b. IsWithin (span_of b.value) span) }
    requires sound { IfSome of (λ b. IsSound b.value) }
    ensures { result ≡ option_map (tree.Plus span) (option_map (λ b. b.value) of) }
{
    match of {
        Some(of) => Some(Expr {
            span,
            node: Node::Plus(of),
        }),
        None => None,
    }
}

// A part with a minus before it.
fn minus(span: Span, of: Option<Box<Expr>>) -> Option<Expr>
    requires forward { IsForward span }
    requires within { IfSome of (λ b. IsWithin (span_of b.value) span) }
    requires sound { IfSome of (λ b. IsSound b.value) }
    ensures { result ≡ option_map (tree.Minus span) (option_map (λ b. b.value) of) }
{
    match of {
        Some(of) => Some(Expr {
            span,
            node: Node::Minus(of),
        }),
        None => None,
    }
}

// A part with a percent sign behind it.
fn percent(span: Span, of: Option<Box<Expr>>) -> Option<Expr>
    requires forward { IsForward span }
    requires within { IfSome of (λ b. IsWithin (span_of b.value) span) }
    requires sound { IfSome of (λ b. IsSound b.value) }
    ensures { result ≡ option_map (tree.Percent span) (option_map (λ b. b.value) of) }
{
    match of {
        Some(of) => Some(Expr {
            span,
            node: Node::Percent(of),
        }),
        None => None,
    }
}

// An operator between two parts.
fn infix(span: Span, op: Op, left: Box<Expr>, right: Option<Box<Expr>>) -> Option<Expr>
    requires forward { IsForward span }
    requires left { IsWithin (span_of left.value) span × IsSound left.value }
    requires within { IfSome right (λ b. IsWithin (span_of b.value) span) }
    requires sound { IfSome right (λ b. IsSound b.value) }
    ensures { result
        ≡ option_map (tree.Infix span op left.value) (option_map (λ b. b.value) right) }
{
    match right {
        Some(right) => Some(Expr {
            span,
            node: Node::Infix(op, left, right),
        }),
        None => None,
    }
}
