// Trees of formulas as texts: each part with the bytes where it stands.

use crate::texts::show;
use cell_refs::{Area, SheetNames};
use formula_ast::{Expr, Node};
use frac128::Frac;
use memory::Memory;

// Appends a label and a word.
fn put(label: &str, word: &str, to: &mut String) -> Result<(), Memory> {
    to.push_str(label)?;
    Ok(to.push_str(word)?)
}

/// The top row, the left column, the bottom row and the right column.
pub(crate) fn sides(area: &Area) -> (u16, u16, u16, u16) {
    (area.top(), area.left(), area.bottom(), area.right())
}

/// Appends areas, each with its sheet's name before its sides.
pub(crate) fn show_areas(
    areas: &[Area],
    sheets: &SheetNames,
    to: &mut String,
) -> Result<(), Memory> {
    put("Reference(", "", to)?;
    for area in areas {
        if (area.sheet().0 as usize) < sheets.len() {
            put(" ", sheets.at(area.sheet()), to)?;
        }
        show(&sides(area), to)?;
    }
    Ok(())
}

fn show_number(number: Frac, to: &mut String) -> Result<(), Memory> {
    put("Number(", "", to)?;
    number.write(to)
}

// Appends a part without parts of its own.
fn show_leaf(node: &Node, sheets: &SheetNames, to: &mut String) -> Result<(), Memory> {
    match node {
        Node::Number(number) => show_number(*number, to),
        Node::Text(text) => put("Text(", text.as_str(), to),
        Node::Logical(true) => put("Logical(", "True", to),
        Node::Logical(false) => put("Logical(", "False", to),
        Node::Fault(kind) => put("Fault(", kind.text(), to),
        Node::Name(name) => put("Name(", name.as_str(), to),
        Node::Reference(areas) => show_areas(areas, sheets, to),
        _ => put("Missing(", "", to),
    }
}

// Appends parts, each behind a blank.
#[cycle(showing)]
fn show_all(exprs: &[Expr], sheets: &SheetNames, to: &mut String) -> Result<(), Memory> {
    for expr in exprs {
        put(" ", "", to)?;
        show_tree(expr, sheets, to)?;
    }
    Ok(())
}

// Appends a tree.
#[cycle(showing)]
pub(crate) fn show_tree(expr: &Expr, sheets: &SheetNames, to: &mut String) -> Result<(), Memory> {
    match &expr.node {
        Node::Array(rows, columns, items) => {
            put("Array", "", to)?;
            show(&(*rows, *columns), to)?;
            show_all(items, sheets, to)?;
        }
        Node::Unknown(name, args) => {
            put("Unknown(", name.as_str(), to)?;
            show_all(args, sheets, to)?;
        }
        Node::Call(func, args) => {
            put("Call(", func.name(), to)?;
            show_all(args, sheets, to)?;
        }
        Node::Plus(of) => {
            put("Plus(", "", to)?;
            show_tree(of, sheets, to)?;
        }
        Node::Minus(of) => {
            put("Minus(", "", to)?;
            show_tree(of, sheets, to)?;
        }
        Node::Percent(of) => {
            put("Percent(", "", to)?;
            show_tree(of, sheets, to)?;
        }
        Node::Infix(op, left, right) => {
            put("Infix(", "", to)?;
            show(op, to)?;
            put(" ", "", to)?;
            show_tree(left, sheets, to)?;
            put(" ", "", to)?;
            show_tree(right, sheets, to)?;
        }
        _ => show_leaf(&expr.node, sheets, to)?,
    }
    Ok(write!(to, ")@{}-{}", expr.span.start, expr.span.end)?)
}
