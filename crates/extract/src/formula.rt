// Formulas, part by part.
ghost use Rattle.std.specs.Prelude.{◌≡◌, IfOk};
ghost use Rattle.formula_ast.specs.Tree.{trees};
ghost use Rattle.sheet_model.specs.declared.grid.Arg.TheVariants.{One};
ghost use Rattle.form_extraction.specs.Formulas.{joined, part_of, parts_of, plain, signed, turned};
ghost use Rattle.form_table.specs.Operators.{minus_form, percent_form};
ghost use Rattle.extract.specs.Unread.{is_place, read_at, table_place, unread_at};

use cell_refs::{ErrorKind, Op, Span};
use form_calls::{
    FormsOfCells, Part, array_part, call_part, infix_part, known_part, minus_part, percent_part,
    plus_part, reference_part, table_part, unread,
};
use formula_ast::{Expr, Func, Node};
use memory::Memory;
use sheet_model::{Arg, Text, Value};
use std::alloc::Global;

/// The part that a formula is: its form over those of the cells, as far as these are known, and the cells at which it looks.
#[cycle(extracting)]
pub(crate) fn form_part<C: FormsOfCells>(
    alloc: Global,
    forms: &C,
    expr: &Expr,
) -> Result<Part, Memory>
    ensures { IfOk result (λ part. part ≡ part_of (C.forms forms.now) expr.now) }
{
    let span = expr.span;
    match &expr.node {
        Node::Number(number) => one(alloc, span, Value::Number(*number)),
        Node::Text(text) => one(alloc, span, Value::Text(Text::new(text.clone()?))),
        Node::Logical(holds) => one(alloc, span, Value::Logical(*holds)),
        Node::Fault(kind) => one(alloc, span, Value::Error(*kind)),
        Node::Missing => one(alloc, span, Value::Empty),
        Node::Array(rows, columns, items) => array_part(alloc, span, *rows, *columns, items),
        Node::Reference(areas) => reference_part(alloc, forms, span, areas),
        Node::Name(_) | Node::Unknown(_, _) => {
            one(alloc, span, Value::Error(ErrorKind::Malformed))
        }
        Node::Call(function, args) => {
            let args = arguments(alloc, forms, *function, args)?;
            call_part(alloc, forms, span, *function, args)
        }
        Node::Plus(of) => with_plus(alloc, forms, span, of),
        Node::Minus(of) => with_minus(alloc, forms, span, of),
        Node::Percent(of) => in_hundredths(alloc, forms, span, of),
        Node::Infix(op, left, right) => with_infix(alloc, forms, span, *op, left, right),
    }
}

// A formula with a plus in front. The operators stand apart, so that a level of a formula takes little of the stack.
#[cycle(extracting)]
fn with_plus<C: FormsOfCells>(
    alloc: Global,
    forms: &C,
    span: Span,
    of: &Expr,
) -> Result<Part, Memory>
    ensures { IfOk result (λ part. part ≡ signed span (part_of (C.forms forms.now) of.now)) }
{
    let part = form_part(alloc, forms, of)?;
    Ok(plus_part(span, part))
}

// A formula with a minus in front.
#[cycle(extracting)]
fn with_minus<C: FormsOfCells>(
    alloc: Global,
    forms: &C,
    span: Span,
    of: &Expr,
) -> Result<Part, Memory>
    ensures { IfOk result (λ part. part
        ≡ turned span minus_form (part_of (C.forms forms.now) of.now)) }
{
    let part = form_part(alloc, forms, of)?;
    minus_part(alloc, span, part)
}

// A formula with a percent sign behind.
#[cycle(extracting)]
fn in_hundredths<C: FormsOfCells>(
    alloc: Global,
    forms: &C,
    span: Span,
    of: &Expr,
) -> Result<Part, Memory>
    ensures { IfOk result (λ part. part
        ≡ turned span percent_form (part_of (C.forms forms.now) of.now)) }
{
    let part = form_part(alloc, forms, of)?;
    percent_part(alloc, span, part)
}

// An operator between two formulas.
#[cycle(extracting)]
fn with_infix<C: FormsOfCells>(
    alloc: Global,
    forms: &C,
    span: Span,
    op: Op,
    left: &Expr,
    right: &Expr,
) -> Result<Part, Memory>
    ensures { IfOk result (λ part. part ≡ joined span op
        (part_of (C.forms forms.now) left.now) (part_of (C.forms forms.now) right.now)) }
{
    let left = form_part(alloc, forms, left)?;
    let right = form_part(alloc, forms, right)?;
    infix_part(alloc, span, op, left, right)
}

// The parts of a call's arguments; the forms of a table are left unread.
#[cycle(extracting)]
fn arguments<C: FormsOfCells>(
    alloc: Global,
    forms: &C,
    function: Func,
    exprs: &[Expr],
) -> Result<Vec<Part>, Memory>
    ensures { IfOk result (λ parts. parts.items
        ≡ unread_at (table_place function) (parts_of (C.forms forms.now) (trees exprs.now))) }
{
    let mut parts = Vec::new(alloc);
    for (index, expr) in exprs.iter().enumerate() {
        parts.push(argument(alloc, forms, is_table(function, index), expr)?)?;
    }
    Ok(parts)
}

// The part of an argument, which is left unread where it is a table.
#[cycle(extracting)]
fn argument<C: FormsOfCells>(
    alloc: Global,
    forms: &C,
    is_table: bool,
    expr: &Expr,
) -> Result<Part, Memory>
    ensures { IfOk result (λ part. part ≡ read_at is_table (part_of (C.forms forms.now) expr.now)) }
{
    if is_table {
        if let Node::Reference(areas) = &expr.node {
            return table_part(alloc, expr.span, areas);
        }
        return Ok(unread(form_part(alloc, forms, expr)?));
    }
    form_part(alloc, forms, expr)
}

// Whether an argument of a function, counted from 0, is its table.
fn is_table(function: Func, index: usize) -> bool
    ensures { result ≡ is_place (table_place function) index }
{
    match function {
        Func::Index | Func::Rows | Func::Columns => index == 0,
        Func::VLookup | Func::HLookup => index == 1,
        _ => false,
    }
}

// A single value.
fn one(alloc: Global, span: Span, value: Value) -> Result<Part, Memory>
    ensures { IfOk result (λ part. part ≡ plain span (One value)) }
{
    known_part(alloc, span, Arg::One(value))
}
