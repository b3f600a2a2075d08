// The error that VLOOKUP and HLOOKUP certainly find, though the key, keys or the kind of search are open.
ghost use Rattle.std.specs.Prelude.{◌≡◌, ◌<◌, ◌^◌, None, Some, if◌then◌else◌, is_none, length, map};
ghost use Rattle.std.specs.Result.{result_map_both};
ghost use Rattle.cell_refs.specs.declared.error_kind.ErrorKind.TheVariants.{NotAvailable};
ghost use Rattle.form_areas.specs.Agreed.{agreed_behind, is_end, joined};
ghost use Rattle.form_areas.specs.Kinds.{kinds_asked};
ghost use Rattle.form_ops.specs.Operands.{wanted_in};
ghost use Rattle.form_table.specs.CertainRecords.{by_field_error, end_at, ends_at, error_behind, error_there, errors_in, found_error, in_field_error, record_error, same_error, search_error};
ghost use Rattle.form_table.specs.Lookups.{error_of, kinds_in, known_value};
ghost use Rattle.form_table.specs.Wanted.{known_number, number_of, value_of};
ghost use Rattle.form_values.specs.declared.abs.Abs.TheVariants.{Known};

use crate::conditional::error_of;
use crate::lookups::may_be_key;
use crate::met_places::if_same;
use crate::records::{field_at, kind_in};
use crate::values::value_or_error;
use cell_refs::ErrorKind;
use form_ops::{Operand, known_number, operand_in};
use form_values::{Abs, AbsArg};
use sheet_funcs::MatchKind;
use sheet_model::{Value, compare};

/// The error that a lookup certainly finds in a table with these elements, row by row, if there is such a one: each record that it may
/// find has the same error in a known field, and where it may find none, that is #N/A. Of a table of which no element is seen there is
/// none.
pub fn record_error(
    fields: u32,
    items: &[Abs],
    keys: &[Abs],
    key: &AbsArg,
    field: &AbsArg,
    sorted: &[AbsArg],
) -> Option<ErrorKind>
    requires few { length keys.now < 2 ^ 32 }
    ensures { result ≡ record_error fields (map Some items.now) keys.now (value_of key.now)
        (number_of field.now) (kinds_in sorted.now) }
{
    let [_, ..] = items else {
        return None;
    };
    seen_error(fields, items, keys, key, field, sorted)
}

// The same of a table whose elements are seen.
fn seen_error(
    fields: u32,
    items: &[Abs],
    keys: &[Abs],
    key: &AbsArg,
    field: &AbsArg,
    sorted: &[AbsArg],
) -> Option<ErrorKind>
    requires few { length keys.now < 2 ^ 32 }
    ensures { result ≡ (if is_none (error_of (value_of key.now))
        then by_field_error fields (map Some items.now) (known_value (value_of key.now)) keys.now
        (known_number (number_of field.now)) (kinds_in sorted.now) else None) }
{
    match value_or_error(key) {
        Ok(key) => by_field_error(
            fields,
            items,
            key,
            keys,
            &operand_in(field),
            kind_in(sorted),
        ),
        Err(_) => None,
    }
}

// The same of a key that is no error.
fn by_field_error(
    fields: u32,
    items: &[Abs],
    key: &Abs,
    keys: &[Abs],
    field: &Operand,
    kind: Result<Option<MatchKind>, ErrorKind>,
) -> Option<ErrorKind>
    requires few { length keys.now < 2 ^ 32 }
    requires key { error_of key.now ≡ None }
    ensures { result ≡ by_field_error fields (map Some items.now) (known_value key.now) keys.now
        (known_number (wanted_in field.now)) (result_map_both kinds_asked (λ k. k) kind) }
{
    match (known_number(field), kind) {
        (Some(number), Ok(kind)) => {
            in_field_error(fields, items, key, keys, kind, number.floor())
        }
        _ => None,
    }
}

// The same of a known field, counted from 1.
fn in_field_error(
    fields: u32,
    items: &[Abs],
    key: &Abs,
    keys: &[Abs],
    kind: Option<MatchKind>,
    field: i128,
) -> Option<ErrorKind>
    requires few { length keys.now < 2 ^ 32 }
    requires key { error_of key.now ≡ None }
    ensures { result ≡ in_field_error fields (map Some items.now) (known_value key.now) keys.now
        (kinds_asked kind) (Rattle.form_table.specs.Lookups.field_at fields field) }
{
    match field_at(fields, field) {
        Ok(field) => found_error(fields, items, field, key, keys, kind),
        Err(_) => None,
    }
}

// The same of a field from 0, by the kind of search, or by both where it is open.
fn found_error(
    fields: u32,
    items: &[Abs],
    field: u32,
    key: &Abs,
    keys: &[Abs],
    kind: Option<MatchKind>,
) -> Option<ErrorKind>
    requires few { length keys.now < 2 ^ 32 }
    requires key { error_of key.now ≡ None }
    ensures { result ≡ found_error (errors_in fields (map Some items.now) field) (known_value key.now)
        keys.now (kinds_asked kind) }
{
    match kind {
        Some(kind) => search_error(fields, items, field, key, keys, kind),
        None => same_error(
            search_error(fields, items, field, key, keys, MatchKind::Equal),
            search_error(fields, items, field, key, keys, MatchKind::Rising),
        ),
    }
}

// The same of one kind of search: what it finds at each place where it may end has to be the same.
fn search_error(
    fields: u32,
    items: &[Abs],
    field: u32,
    key: &Abs,
    keys: &[Abs],
    kind: MatchKind,
) -> Option<ErrorKind>
    requires few { length keys.now < 2 ^ 32 }
    requires key { error_of key.now ≡ None }
    ensures { result ≡ search_error kind (errors_in fields (map Some items.now) field)
        (known_value key.now) 0 (Some NotAvailable) keys.now }
{
    let mut agreed = None;
    let mut before = Some(ErrorKind::NotAvailable);
    for (row, item) in keys.iter().enumerate() {
        let here = error_in(fields, items, field, row as u32);
        let there = error_there(kind, here, before);
        let end = end_at(kind, key, item);
        if is_end(end) {
            return joined(agreed, there);
        }
        agreed = agreed_behind(end, agreed, there);
        before = error_behind(kind, may_be_key(item), here, before);
    }
    joined(agreed, before)
}

// The error in a field of a row, if one is there.
fn error_in(fields: u32, items: &[Abs], field: u32, row: u32) -> Option<ErrorKind>
    ensures { result ≡ errors_in fields (map Some items.now) field row }
{
    match items.get(row as usize * fields as usize + field as usize) {
        Some(item) => error_of(item),
        None => None,
    }
}

// Whether a search ends at an element, where that is known.
fn end_at(kind: MatchKind, key: &Abs, item: &Abs) -> Option<bool>
    requires { error_of key.now ≡ None }
    ensures { result ≡ end_at kind (known_value key.now) item.now }
{
    let Abs::Known(value) = item else {
        return None;
    };
    if let Abs::Known(key) = key {
        return Some(ends_at(kind, key, value));
    }
    if may_be_key(item) {
        return None;
    }
    Some(false)
}

// Whether a search for a key ends at a value.
fn ends_at(kind: MatchKind, key: &Value, value: &Value) -> bool
    requires { error_of (Known key.now) ≡ None }
    ensures { result ≡ ends_at kind key.now value.now }
{
    if let Value::Empty | Value::Error(_) = value {
        return false;
    }
    let order = compare(value, key);
    match kind {
        MatchKind::Equal => order.is_eq(),
        MatchKind::Rising => order.is_gt(),
        MatchKind::Falling => order.is_lt(),
    }
}

// The error of what is found if the search ends at a row, by that of the row and of what would have been found before.
fn error_there(
    kind: MatchKind,
    here: Option<ErrorKind>,
    before: Option<ErrorKind>,
) -> Option<ErrorKind>
    ensures { result ≡ error_there kind here before }
{
    match kind {
        MatchKind::Equal => here,
        MatchKind::Rising | MatchKind::Falling => before,
    }
}

// The error of what would be found if it ended behind a row.
fn error_behind(
    kind: MatchKind,
    is_key: bool,
    here: Option<ErrorKind>,
    before: Option<ErrorKind>,
) -> Option<ErrorKind>
    ensures { result ≡ error_behind kind is_key here before }
{
    match kind {
        MatchKind::Rising | MatchKind::Falling if is_key => here,
        _ => before,
    }
}

// Whether a search certainly ends.
fn is_end(end: Option<bool>) -> bool
    ensures { result ≡ is_end end }
{
    match end {
        Some(ends) => ends,
        None => false,
    }
}

// What is agreed behind an element at which the search may have ended.
fn agreed_behind(
    end: Option<bool>,
    agreed: Option<Option<ErrorKind>>,
    there: Option<ErrorKind>,
) -> Option<Option<ErrorKind>>
    ensures { result ≡ agreed_behind end agreed there }
{
    match end {
        Some(_) => agreed,
        None => Some(joined(agreed, there)),
    }
}

// An error and what is agreed so far, if anything is.
fn joined(agreed: Option<Option<ErrorKind>>, error: Option<ErrorKind>) -> Option<ErrorKind>
    ensures { result ≡ joined agreed error }
{
    match agreed {
        Some(first) => same_error(first, error),
        None => error,
    }
}

// One error, where two are the same.
fn same_error(first: Option<ErrorKind>, second: Option<ErrorKind>) -> Option<ErrorKind>
    ensures { result ≡ same_error first second }
{
    match first {
        Some(kind) => if_same(kind, second),
        None => None,
    }
}
