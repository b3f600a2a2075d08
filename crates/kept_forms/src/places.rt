// The places of tables in a list of them.
ghost use Rattle.std.specs.Prelude.{◌≡◌, ◌&&◌, [], ◌∷◌, IfNone, IfSome, None, Some, false, is_none, length, nat_lt, not, slice_get};
ghost use Rattle.dep_table.specs.References.{AreReferencesOf};
ghost use Rattle.kept_forms.specs.Tables.{SheetKept, all_forms, is_searching, sheets_in};
ghost use Rattle.kept_tables.specs.Settled.{all_marked};
ghost use Rattle.kept_tables.specs.Tables.{first_idle, has_sheet};
ghost use Rattle.recalculation.specs.Entries.{Book};

use crate::sheet_table::SheetTable;
use cell_refs::{Cell, SheetId};
use dep_table::Deps;

/// Of how many sheets forms are kept.
pub(crate) const MOST_TABLES: usize = 8;

/// The place of the table of a sheet.
pub(crate) fn place_of(tables: &[SheetTable], sheet: SheetId) -> Option<usize>
    ensures found { IfSome result (λ place. (t : SheetKept)
        × (slice_get tables.now place ≡ Some t) × (t.sheet ≡ sheet.0)) }
    ensures none { IfNone result (has_sheet (sheets_in tables.now) sheet.0 ≡ false) }
{
    for (place, table) in tables.iter().enumerate() {
        if table.is_of(sheet) {
            return Some(place);
        }
    }
    None
}

/// The place of the first table whose sheet has no open search.
pub(crate) fn first_idle(tables: &[SheetTable], searching: &[bool]) -> Option<usize>
    ensures found { IfSome result (λ place. (t : SheetKept)
        × (slice_get tables.now place ≡ Some t)
        × (first_idle (is_searching searching.now) (sheets_in tables.now) ≡ Some t.sheet)) }
    ensures none { IfNone result
        (first_idle (is_searching searching.now) (sheets_in tables.now) ≡ None) }
{
    for (place, table) in tables.iter().enumerate() {
        if !is_searching(searching, table.sheet()) {
            return Some(place);
        }
    }
    None
}

/// Whether there is no place for a further table, and each sheet has an open search.
pub(crate) fn is_full(tables: &[SheetTable], searching: &[bool]) -> bool
    ensures { result ≡ (not (nat_lt (length (sheets_in tables.now)) MOST_TABLES)
        && is_none (first_idle (is_searching searching.now) (sheets_in tables.now))) }
{
    if tables.len() < MOST_TABLES {
        return false;
    }
    match first_idle(tables, searching) {
        Some(_) => false,
        None => true,
    }
}

// Whether a sheet has an open search.
fn is_searching(searching: &[bool], sheet: SheetId) -> bool
    ensures { result ≡ is_searching searching.now sheet.0 }
{
    match searching.get(sheet.0 as usize) {
        Some(searches) => *searches,
        None => false,
    }
}

/// Marks a cell in each table.
pub(crate) fn mark_all(tables: &mut Vec<SheetTable>, deps: &Deps, cell: Cell)
    ensures forms { (book : Book) → AreReferencesOf deps.now book
        → all_forms tables.new.items ≡ all_marked book (cell ∷ []) (all_forms tables.old.items) }
    ensures sheets { sheets_in tables.new.items ≡ sheets_in tables.old.items }
{
    for place in 0..tables.len() {
        let table = &mut tables[place];
        table.mark(deps, cell);
    }
}
