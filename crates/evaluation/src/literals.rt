// Numbers, texts, logicals, arrays and references.
ghost use Rattle.std.specs.Prelude.{◌≡◌, ◌<◌, IfOk, length};
ghost use Rattle.evaluation.specs.Composed.{plain, referred};
ghost use Rattle.formula_ast.specs.Sound.{IsRectangular};
ghost use Rattle.formula_ast.specs.Tree.{trees};
ghost use Rattle.recalculation.specs.Evaluation.{grid_of_areas, literal, literals};
ghost use Rattle.sheet_model.specs.declared.grid.Arg.TheVariants.{Area as Elements};

use crate::cells::Cells;
use crate::looked::Looks;
use crate::part::Part;
use crate::referred::Referred;
use crate::values::known_grid;
use cell_refs::Area;
use formula_ast::{Expr, Node};
use sheet_model::{Arg, Grid, Memory, Text, Value};
use std::alloc::Global;

/// An array of so many rows and columns.
pub(crate) fn array_part(
    alloc: Global,
    rows: u16,
    columns: u16,
    items: &[Expr],
) -> Result<Part, Memory>
    requires { IsRectangular rows columns (trees items.now) }
    ensures { IfOk result (λ part. part ≡ plain (Elements
        (record { rows = rows; columns = columns; items = literals (trees items.now) }))) }
{
    let values = literals(alloc, items)?;
    match Grid::new(rows as u32, columns as u32, values) {
        Some(grid) => Ok(Part::plain(alloc, Arg::Area(grid))),
        None => unreachable!(),
    }
}

/// A reference to some areas.
pub(crate) fn reference_part<C: Cells>(
    alloc: Global,
    cells: &C,
    areas: &[Area],
) -> Result<Part, Memory>
    requires { 0 < length areas.now }
    ensures { IfOk result (λ part. part ≡ referred (C.known cells.now) (grid_of_areas areas.now)) }
{
    let outcome = known_grid(alloc, cells, areas)?;
    let looks = Looks::of_areas(alloc, areas)?;
    let reference = Referred::new(alloc, areas)?;
    Ok(Part {
        looks,
        outcome,
        reference: Some(reference),
    })
}

/// A reference to some areas whose values are left unread.
pub(crate) fn table_part(alloc: Global, areas: &[Area]) -> Result<Part, Memory>
    requires { 0 < length areas.now }
    ensures { IfOk result (λ part. part ≡ record {
      looks = (grid_of_areas areas.now).cells;
      outcome = None;
      reference = Some (grid_of_areas areas.now);
    }) }
{
    let looks = Looks::of_areas(alloc, areas)?;
    let reference = Referred::new(alloc, areas)?;
    Ok(Part {
        looks,
        outcome: None,
        reference: Some(reference),
    })
}

// The items of an array.
fn literals(alloc: Global, items: &[Expr]) -> Result<Vec<Value>, Memory>
    ensures { IfOk result (λ values. values.items ≡ literals (trees items.now)) }
{
    let mut values = Vec::new(alloc);
    for item in items {
        values.push(literal(item)?)?;
    }
    Ok(values)
}

// An item of an array.
fn literal(item: &Expr) -> Result<Value, Memory>
    ensures { IfOk result (λ value. value ≡ literal item.now) }
{
    match &item.node {
        Node::Number(number) => Ok(Value::Number(*number)),
        Node::Text(text) => Ok(Value::Text(Text::new(text.clone()?))),
        Node::Logical(holds) => Ok(Value::Logical(*holds)),
        _ => Ok(Value::Empty),
    }
}
