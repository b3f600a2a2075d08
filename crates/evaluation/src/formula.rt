// Formulas, part by part.
ghost use Rattle.std.specs.Prelude.{◌≡◌, IfOk};
ghost use Rattle.evaluation.specs.Tables.{is_place, read_at, table_place, unread, unread_at};
ghost use Rattle.evaluation.specs.Composed.{plain};
ghost use Rattle.evaluation.specs.Parts.{part_of};
ghost use Rattle.formula_ast.specs.Tree.{trees};
ghost use Rattle.recalculation.specs.Looking.{arguments};
ghost use Rattle.sheet_model.specs.declared.grid.Arg.TheVariants.{One};

use crate::calls::call_part;
use crate::cells::Cells;
use crate::literals::{array_part, reference_part, table_part};
use crate::operators::{infix_part, minus_part, percent_part};
use crate::part::Part;
use cell_refs::ErrorKind;
use formula_ast::{Expr, Func, Node};
use sheet_model::{Arg, Memory, Text, Value};
use std::alloc::Global;

/// The cells at which a formula looks, and its value on narrow numbers where all of these have a value.
#[cycle(evaluating)]
pub fn evaluate<C: Cells>(alloc: Global, cells: &C, expr: &Expr) -> Result<Part, Memory>
    ensures { IfOk result (λ part. part ≡ part_of (C.known cells.now) expr.now) }
{
    match &expr.node {
        Node::Number(number) => Ok(one(alloc, Value::Number(*number))),
        Node::Text(text) => Ok(one(alloc, Value::Text(Text::new(text.clone()?)))),
        Node::Logical(holds) => Ok(one(alloc, Value::Logical(*holds))),
        Node::Fault(kind) => Ok(one(alloc, Value::Error(*kind))),
        Node::Missing => Ok(one(alloc, Value::Empty)),
        Node::Array(rows, columns, items) => array_part(alloc, *rows, *columns, items),
        Node::Reference(areas) => reference_part(alloc, cells, areas),
        Node::Name(_) | Node::Unknown(_, _) => {
            Ok(one(alloc, Value::Error(ErrorKind::Malformed)))
        }
        Node::Call(function, args) => {
            let args = arguments(alloc, cells, *function, args)?;
            call_part(alloc, cells, *function, args)
        }
        Node::Plus(of) => evaluate(alloc, cells, of),
        Node::Minus(of) => minus_part(alloc, evaluate(alloc, cells, of)?),
        Node::Percent(of) => percent_part(alloc, evaluate(alloc, cells, of)?),
        Node::Infix(op, left, right) => {
            let left = evaluate(alloc, cells, left)?;
            let right = evaluate(alloc, cells, right)?;
            infix_part(alloc, *op, left, right)
        }
    }
}

// The parts of a call's arguments; the values of a table are left unread.
#[cycle(evaluating)]
fn arguments<C: Cells>(
    alloc: Global,
    cells: &C,
    function: Func,
    exprs: &[Expr],
) -> Result<Vec<Part>, Memory>
    ensures { IfOk result (λ parts. parts.items
        ≡ unread_at (table_place function) (arguments (C.known cells.now) (trees exprs.now))) }
{
    let mut parts = Vec::new(alloc);
    for (index, expr) in exprs.iter().enumerate() {
        parts.push(argument(alloc, cells, is_table(function, index), expr)?)?;
    }
    Ok(parts)
}

// The part of an argument, which is left unread where it is a table.
#[cycle(evaluating)]
fn argument<C: Cells>(alloc: Global, cells: &C, is_table: bool, expr: &Expr) -> Result<Part, Memory>
    ensures { IfOk result (λ part. part ≡ read_at is_table (part_of (C.known cells.now) expr.now)) }
{
    if is_table {
        if let Node::Reference(areas) = &expr.node {
            return table_part(alloc, areas);
        }
        return Ok(unread(evaluate(alloc, cells, expr)?));
    }
    evaluate(alloc, cells, expr)
}

// Whether an argument of a function, counted from 0, is its table.
fn is_table(function: Func, index: usize) -> bool
    ensures { result ≡ is_place (table_place function) index }
{
    match function {
        Func::Index | Func::Rows | Func::Columns => index == 0,
        Func::VLookup | Func::HLookup => index == 1,
        _ => false,
    }
}

// A part without its value, where it is a reference.
fn unread(part: Part) -> Part
    ensures { result ≡ unread part }
{
    let Part {
        looks,
        outcome,
        reference,
    } = part;
    if reference.is_some() {
        return Part {
            looks,
            outcome: None,
            reference,
        };
    }
    Part {
        looks,
        outcome,
        reference,
    }
}

// A single value.
fn one(alloc: Global, value: Value) -> Part
    ensures { result ≡ plain (One value) }
{
    Part::plain(alloc, Arg::One(value))
}
