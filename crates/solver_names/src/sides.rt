// The right sides that are expressions.
ghost use Rattle.std.specs.Prelude.{◌≡◌, ◌<◌, ◌++◌, [], IfOk, OnOk, Ok, length, unwrap_or};
ghost use Rattle.formula_ast.specs.Tree.{trees};
ghost use Rattle.solver_names.specs.Answers.{statement_of};
ghost use Rattle.solver_names.specs.Sides as sides;
ghost use Rattle.solver_names.specs.Sides.{all_placed, one_less, placed, placed_in};
ghost use Rattle.solver_names.specs.Stated.{statement_in};
ghost use Rattle.solver_names.specs.Texts.{named};
ghost use Rattle.solver_names.specs.declared.name.Name.TheVariants as name;

use crate::constraints::{Constraint, Side};
use crate::name::Name;
use crate::names::names_of;
use crate::said::Said;
use crate::statements::Statement;
use cell_refs::{SheetId, Span};
use formula_ast::{Expr, Node};
use memory::Memory;
use std::alloc::Global;
use workbook::Workbook;

// A span one byte before.
fn one_less(span: Span) -> Span
    ensures { result ≡ one_less span }
{
    Span {
        start: span.start.saturating_sub(1),
        end: span.end.saturating_sub(1),
    }
}

// The tree with each span one byte before.
#[cycle(placing)]
fn one_byte_before(alloc: Global, expr: &Expr) -> Result<Expr, Memory>
    ensures { IfOk result (λ e. e ≡ placed expr.now) }
{
    expr.soundness();
    let span = one_less(expr.span);
    let node = match &expr.node {
        Node::Number(x) => Node::Number(*x),
        Node::Text(text) => Node::Text(text.clone()?),
        Node::Logical(holds) => Node::Logical(*holds),
        Node::Fault(kind) => Node::Fault(*kind),
        Node::Missing => Node::Missing,
        Node::Array(rows, columns, items) => {
            Node::Array(*rows, *columns, all_placed(alloc, items)?)
        }
        Node::Reference(areas) => Node::Reference(Vec::from_slice(alloc, areas)?),
        Node::Name(name) => Node::Name(name.clone()?),
        Node::Unknown(name, args) => Node::Unknown(name.clone()?, all_placed(alloc, args)?),
        Node::Call(func, args) => Node::Call(*func, all_placed(alloc, args)?),
        Node::Plus(of) => Node::Plus(Box::new(alloc, one_byte_before(alloc, of)?)?),
        Node::Minus(of) => Node::Minus(Box::new(alloc, one_byte_before(alloc, of)?)?),
        Node::Percent(of) => Node::Percent(Box::new(alloc, one_byte_before(alloc, of)?)?),
        Node::Infix(op, left, right) => {
            let left = Box::new(alloc, one_byte_before(alloc, left)?)?;
            let right = Box::new(alloc, one_byte_before(alloc, right)?)?;
            Node::Infix(*op, left, right)
        }
    };
    Ok(Expr { span, node })
}

#[cycle(placing)]
fn all_placed(alloc: Global, exprs: &[Expr]) -> Result<Vec<Expr>, Memory>
    ensures { IfOk result (λ v. trees v.items ≡ all_placed (trees exprs.now)) }
{
    let mut all = Vec::new(alloc);
    for expr in exprs {
        all.push(one_byte_before(alloc, expr)?)?;
    }
    Ok(all)
}

// The tree of constraint k with its places in the text itself, which may have no equals sign.
fn in_text(
    alloc: Global,
    book: &Workbook,
    sheet: SheetId,
    k: u16,
    tree: &Expr,
) -> Result<Expr, Memory>
    ensures { IfOk result (λ e. e
        ≡ placed_in (unwrap_or (named book.now sheet.0 (name.Right k)) []) tree.now) }
{
    let text = Name::Right(k).find(alloc, book, sheet)?.unwrap_or("");
    if text.starts_with('=') {
        return Ok(tree.copy(alloc)?);
    }
    one_byte_before(alloc, tree)
}

// Adds the right side of a constraint, where it is an expression.
fn add_side(
    alloc: Global,
    book: &Workbook,
    sheet: SheetId,
    constraint: &Constraint,
    trees: &mut Vec<(u16, Expr)>,
) -> Result<(), Memory>
    ensures { OnOk result (trees.new.items ≡ trees.old.items
        ++ sides.side_tree book.now sheet.0 constraint.now.k constraint.now.right) }
{
    let Said::Says(Side::Tree(tree)) = &constraint.right else {
        return Ok(());
    };
    let tree = in_text(alloc, book, sheet, constraint.k, tree)?;
    trees.push((constraint.k, tree))?;
    Ok(())
}

/// The right sides that are expressions, with the numbers of their constraints, which rise, and with their places in the names'
/// texts.
pub fn side_trees(
    alloc: Global,
    book: &Workbook,
    of: &Statement,
) -> Result<Vec<(u16, Expr)>, Memory>
    requires listed { of.now.sheet.0 < length book.now.sheets }
    requires of_book { statement_in book.now of.now.sheet.0 ≡ Ok (statement_of of.now) }
    ensures { IfOk result (λ v. v.items ≡ sides.sides_in book.now of.now.sheet.0) }
{
    let names = names_of(alloc, book, of.sheet)?;
    let mut trees = Vec::new(alloc);
    for constraint in &names.constraints {
        add_side(alloc, book, of.sheet, constraint, &mut trees)?;
    }
    Ok(trees)
}
