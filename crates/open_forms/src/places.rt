// The places from which a model is made.
ghost use Rattle.std.specs.Prelude.{◌≡◌, ◌∷◌, ◌++◌, [], IfOk, OnOk, flat_map, map};
ghost use Rattle.form_needs.specs.Needed.{roots_of};
ghost use Rattle.solver_names.specs.Answers.{row_of, statement_of};
ghost use Rattle.solver_names.specs.Statement.{RowOf as Row};
ghost use Rattle.cell_refs.specs.declared.place.Place.TheVariants as place;

use memory::Memory;
use solver_names::{RowOf, Statement};
use std::alloc::Global;
use workbook::Place;

// Adds both sides of each row.
fn push_sides(roots: &mut Vec<Place>, rows: &[RowOf]) -> Result<(), Memory>
    ensures { OnOk result (roots.new.items ≡ roots.old.items
        ++ flat_map (λ (r : Row). place.Cell r.left ∷ r.right ∷ []) (map row_of rows.now)) }
{
    for row in rows {
        roots.push(Place::Cell(row.left))?;
        roots.push(row.right)?;
    }
    Ok(())
}

/// The objective, where there is one, and both sides of each row.
pub fn roots(alloc: Global, of: &Statement) -> Result<Vec<Place>, Memory>
    ensures { IfOk result (λ roots. roots.items ≡ roots_of (statement_of of.now)) }
{
    let mut roots = Vec::new(alloc);
    if let Some(cell) = of.objective {
        roots.push(Place::Cell(cell))?;
    }
    push_sides(&mut roots, &of.rows)?;
    Ok(roots)
}
