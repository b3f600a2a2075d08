// Texts put into several cells.
ghost use Rattle.std.specs.Prelude.{◌≡◌, ◌≢◌, [], All, None, OnErr, OnOk, map, string_bytes, zip};
ghost use Rattle.workbook.specs.Filling.{AreHeldAlike, IsFilled};
ghost use Rattle.workbook.specs.Held.{IsKept, contents_of};
ghost use Rattle.cell_refs.specs.Listed.{IsListed};
ghost use Rattle.workbook.specs.Scoped.{IsShort};
ghost use Rattle.workbook.specs.Several.{IsField, first_without_room};
ghost use Rattle.workbook.specs.State.{formula_count};
ghost use Rattle.workbook.specs.Users.{AllAreCovered, Grows};

use crate::held::{Held, put_back, put_in};
use crate::named::Scope;
use crate::names::Names;
use crate::say::hold;
use crate::users::Users;
use cell_refs::{Cell, SheetNames};
use memory::Memory;
use sheet_model::Text;
use std::alloc::Global;
use std::collections::BTreeMap;
use std::mem::drop;

/// Puts a text into each cell, in their order. On want of memory each cell has what it had.
pub(crate) fn put_each<'a>(
    alloc: Global,
    sheets: &'a SheetNames,
    names: &'a Names,
    users: &mut Users,
    cells: &mut BTreeMap<Cell, Held>,
    at: &[Cell],
    texts: &[String],
) -> Result<(), Memory>
    requires short { All IsShort names.now }
    requires kept { IsKept sheets.now names.now cells.old.entries
        (formula_count (contents_of cells.old.entries)) }
    requires covered { AllAreCovered users.old cells.old.entries }
    requires listed { All (IsListed sheets.now) at.now }
    requires fields { All (λ text. IsField (string_bytes text)) texts.now }
    requires room { first_without_room (contents_of cells.old.entries)
        (zip at.now (map string_bytes texts.now)) ≡ None }
    ensures ok { OnOk result (IsFilled sheets.now names.now cells.old.entries
        (zip at.now (map string_bytes texts.now)) cells.new.entries) }
    ensures covered { OnOk result (AllAreCovered users.new cells.new.entries) }
    ensures grows { Grows users.old users.new }
    ensures some { OnErr result (zip at.now (map string_bytes texts.now) ≢ []) }
    ensures err { OnErr result (AreHeldAlike cells.old.entries cells.new.entries) }
{
    let [cell, later_cells @ ..] = at else {
        return Ok(());
    };
    let [text, later_texts @ ..] = texts else {
        return Ok(());
    };
    let scope = Scope {
        home: cell.sheet,
        sheets,
        names,
        change: None,
    };
    let text = Text::new(String::from_str(alloc, text.as_str())?);
    let held = hold(alloc, &scope, *cell, text)?;
    users.add_names(alloc, *cell, &held)?;
    let was = put_in(cells, *cell, held)?;
    if let Err(fault) = put_each(alloc, sheets, names, users, cells, later_cells, later_texts) {
        put_back(cells, *cell, was);
        return Err(fault);
    }
    drop(was);
    Ok(())
}
