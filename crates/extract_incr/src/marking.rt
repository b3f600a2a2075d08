// The forms that an edit makes stale.
ghost use Rattle.std.specs.Prelude.{◌≡◌, IfOk, None, if◌then◌else◌, ℕ};
ghost use Rattle.cell_refs.specs.declared.cell.Cell.{Cell};
ghost use Rattle.column_strips.specs.Affected.{has_cell};
ghost use Rattle.needed_forms.specs.FromExtract.{form_at, without};
ghost use Rattle.extract_incr.specs.Marking.{AreAreasOf, have_one, is_side_to};
ghost use Rattle.cell_refs.specs.declared.place.Place.TheVariants as place;

use crate::circles::is_any_within;
use cell_refs::{Area, Cell};
use formula_ast::Expr;
use memory::Memory;
use needed_forms::FormTable;
use std::alloc::Global;
use workbook::Place;

/// The areas to which a side refers, with the number of its constraint.
#[derive(Drop)]
pub(crate) struct SideAreas {
    pub(crate) number: u16,
    pub(crate) areas: Vec<Area>,
}

/// The areas to which some sides refer, with their numbers.
pub(crate) fn areas_of(alloc: Global, sides: &[(u16, Expr)]) -> Result<Vec<SideAreas>, Memory>
    ensures { IfOk result (λ found. AreAreasOf found.items sides.now) }
{
    let mut found = Vec::new(alloc);
    for side in sides {
        let areas = side.1.references(alloc)?;
        found.push(SideAreas {
            number: side.0,
            areas,
        })?;
    }
    Ok(found)
}

/// Takes the forms of some cells out of a table.
pub(crate) fn take_cells(cells: &[Cell], table: &mut FormTable)
    ensures cells { (a : Cell) → form_at table.new (place.Cell a)
        ≡ (if has_cell cells.now a then None else form_at table.old (place.Cell a)) }
    ensures sides { (k : ℕ) → form_at table.new (place.Side k)
        ≡ form_at table.old (place.Side k) }
{
    for &cell in cells {
        table.take(Place::Cell(cell));
    }
}

/// Takes the forms of the sides that refer to one of some cells out of a table.
pub(crate) fn take_sides(sides: &[SideAreas], cells: &[Cell], table: &mut FormTable)
    ensures cells { (a : Cell) → form_at table.new (place.Cell a)
        ≡ form_at table.old (place.Cell a) }
    ensures sides { (k : ℕ) → form_at table.new (place.Side k)
        ≡ (if is_side_to sides.now cells.now k then None
        else form_at table.old (place.Side k)) }
{
    for side in sides {
        take_side(side, cells, table);
    }
}

// Takes the form of a side out of a table, if it refers to one of some cells.
fn take_side(side: &SideAreas, cells: &[Cell], table: &mut FormTable)
    ensures { table.new ≡ (if have_one side.now.areas.items cells.now
        then without table.old (place.Side side.now.number) else table.old) }
{
    if is_any_within(&side.areas, cells) {
        table.take(Place::Side(side.number));
    }
}
