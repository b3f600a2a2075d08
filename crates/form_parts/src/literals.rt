// Numbers, texts, logicals, errors and arrays.
ghost use Rattle.std.specs.Prelude.{◌≡◌, IfOk};
ghost use Rattle.form_extraction.specs.Formulas.{plain};
ghost use Rattle.formula_ast.specs.Sound.{IsRectangular};
ghost use Rattle.formula_ast.specs.Tree.{trees};
ghost use Rattle.recalculation.specs.Evaluation.{literal, literals};
ghost use Rattle.sheet_model.specs.declared.grid.Arg.TheVariants.{Area as Elements};

use crate::part::Part;
use cell_refs::Span;
use form_values::AbsArg;
use formula_ast::{Expr, Node};
use memory::Memory;
use sheet_model::{Arg, Grid, Text, Value};
use std::alloc::Global;

/// A part with a known value that looks at nothing.
pub fn known_part(alloc: Global, span: Span, value: Arg) -> Result<Part, Memory>
    ensures { IfOk result (λ part. part ≡ plain span value) }
{
    Ok(Part::plain(alloc, span, AbsArg::of_known(alloc, value)?))
}

/// An array of so many rows and columns.
pub fn array_part(
    alloc: Global,
    span: Span,
    rows: u16,
    columns: u16,
    items: &[Expr],
) -> Result<Part, Memory>
    requires { IsRectangular rows columns (trees items.now) }
    ensures { IfOk result (λ part. part ≡ plain span (Elements
        (record { rows = rows; columns = columns; items = literals (trees items.now) }))) }
{
    let values = literals(alloc, items)?;
    match Grid::new(rows as u32, columns as u32, values) {
        Some(grid) => known_part(alloc, span, Arg::Area(grid)),
        None => unreachable!(),
    }
}

// The items of an array.
fn literals(alloc: Global, items: &[Expr]) -> Result<Vec<Value>, Memory>
    ensures { IfOk result (λ values. values.items ≡ literals (trees items.now)) }
{
    let mut values = Vec::new(alloc);
    for item in items {
        values.push(literal(item)?)?;
    }
    Ok(values)
}

// An item of an array.
fn literal(item: &Expr) -> Result<Value, Memory>
    ensures { IfOk result (λ value. value ≡ literal item.now) }
{
    match &item.node {
        Node::Number(number) => Ok(Value::Number(*number)),
        Node::Text(text) => Ok(Value::Text(Text::new(text.clone()?))),
        Node::Logical(holds) => Ok(Value::Logical(*holds)),
        _ => Ok(Value::Empty),
    }
}
