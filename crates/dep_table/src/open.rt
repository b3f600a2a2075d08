// Reading the formulas of a workbook.
ghost use Rattle.std.specs.Prelude.{◌≡◌, IfOk, map, option_map};
ghost use Rattle.formula_ast.specs.Measures.{references_of};
ghost use Rattle.workbook.specs.Kinds.{book_of};
ghost use Rattle.dep_table.specs.Formulas.{AreSorted, pair_of, references_in, with_areas};
ghost use Rattle.dep_table.specs.References.{AreReferencesOf};

use cell_refs::Cell;
use column_strips::Formula;
use formula_ast::Expr;
use sheet_model::Memory;
use std::alloc::Global;
use workbook::Workbook;

/// The formulas of a workbook, by sheet, row and column.
pub(crate) fn formulas_of(alloc: Global, book: &Workbook) -> Result<Vec<Formula>, Memory>
    ensures sorted { IfOk result (λ v. AreSorted v.items) }
    ensures all { IfOk result (λ v. AreReferencesOf (references_in v.items) (book_of book.now)) }
{
    let mut formulas = Vec::new(alloc);
    let cells = book.text_cells(alloc)?;
    for found in &cells {
        add_formula(&mut formulas, found.cell, found.tree)?;
    }
    Ok(formulas)
}

// Adds the formula of a cell, where the cell has a tree.
fn add_formula(formulas: &mut Vec<Formula>, cell: Cell, tree: Option<&Expr>) -> Result<(), Memory>
    ensures { IfOk result (λ _. map pair_of formulas.new.items
        ≡ with_areas (map pair_of formulas.old.items) cell
        (option_map (λ t. references_of t.now) tree.entry)) }
{
    let Some(tree) = tree else {
        return Ok(());
    };
    let Ok(areas) = tree.references(*formulas.allocator()) else {
        return Err(Memory);
    };
    formulas.push(Formula { cell, areas })?;
    Ok(())
}
