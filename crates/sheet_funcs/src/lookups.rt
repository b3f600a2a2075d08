// MATCH, VLOOKUP and HLOOKUP.
ghost use Rattle.std.specs.Prelude.{◌≡◌, ◌<◌, ◌^◌, ◌∷◌, IfOk, IsOk, length};
ghost use Rattle.calculations.specs.Calculation.{exact};
ghost use Rattle.formula_ast.specs.Functions.{Takes};
ghost use Rattle.formula_ast.specs.declared.func.Func.TheVariants as func;
ghost use Rattle.sheet_model.specs.Answers.{Answers};
ghost use Rattle.sheet_model.specs.Grids.{Rectangle};
ghost use Rattle.sheet_funcs.specs.Arguments.{grid_of};
ghost use Rattle.sheet_funcs.specs.Lookups.{field_at, hlookup_of, is_sorted, kind_of, kind_where, lookup_of, lookup_pick, match_of, pick_in, place_value, record_pick, vlookup_of};
ghost use Rattle.sheet_funcs.specs.Rounding.{number_of};
ghost use Rattle.sheet_funcs.specs.Fields.{AreWithin, one_field};
ghost use Rattle.sheet_funcs.specs.TableViews.{HasKeys, IsIndexed, IsTable, keys_of};
ghost use Rattle.sheet_funcs.specs.Within.{IsWithin};

use crate::answers::fault;
use crate::given::{full_elements, value_or_error};
use crate::items::{columns_of, logical_of, number_of, place_of, rows_of};
use crate::pick::Pick;
use crate::search::place_of_key;
use crate::table_view::{TableView, across, down, keys_alone};
use cell_refs::ErrorKind;
use frac128::Frac;
use sheet_model::{Arg, FuncStop, Value};
use std::alloc::Global;

/// Which value a lookup is for: an equal one, or the last before a greater one, or the last before one that is less.
#[derive(Clone, Copy, Debug, PartialEq, Eq)]
pub enum MatchKind {
    Equal,
    Rising,
    Falling,
}

/// MATCH: the place of a key in a row or a column, counted from 1.
pub fn match_place(args: &[Arg]) -> Result<Arg, FuncStop>
    requires { Takes func.Match (length args.now) }
    ensures exact { IfOk result (λ answer. answer ≡ exact (match_of args.now)) }
    ensures narrow { Answers (match_of args.now) result }
    ensures answer { IsOk result }
{
    match args {
        [key, keys] => Ok(Arg::One(place_value(pick_by(key, keys, Ok(Frac::from_whole(1)))))),
        [key, keys, kind] => Ok(Arg::One(place_value(lookup_at(key, keys, kind)))),
        _ => unreachable!(),
    }
}

/// The place of a key in a row or a column, as a part of that grid.
pub fn lookup_at(key: &Arg, keys: &Arg, kind: &Arg) -> Pick
    ensures pick { result ≡ lookup_pick key.now keys.now (number_of kind.now) }
    ensures within { IsWithin (grid_of keys.now).rows (grid_of keys.now).columns result }
{
    pick_by(key, keys, number_of(kind))
}

// The same with the kind's number.
fn pick_by(key: &Arg, keys: &Arg, kind: Result<Frac, ErrorKind>) -> Pick
    ensures pick { result ≡ lookup_pick key.now keys.now kind }
    ensures within { IsWithin (grid_of keys.now).rows (grid_of keys.now).columns result }
{
    let key = match value_or_error(key) {
        Ok(key) => key,
        Err(kind) => return Pick::Fault(kind),
    };
    let kind = match kind {
        Ok(number) => kind_of(number),
        Err(kind) => return Pick::Fault(kind),
    };
    let (rows, columns) = (rows_of(keys), columns_of(keys));
    if rows != 1 && columns != 1 {
        return Pick::Fault(ErrorKind::NotAvailable);
    }
    let place = place_of_key(kind, key, full_elements(keys), 1, rows.max(columns));
    pick_in(keys, place)
}

// The place in a row or in a column.
fn pick_in(keys: &Arg, place: Option<u32>) -> Pick
    ensures { result ≡ pick_in (grid_of keys.now) place }
{
    match place {
        None => Pick::Fault(ErrorKind::NotAvailable),
        Some(place) if rows_of(keys) == 1 => Pick::Part(0, place, 0, place),
        Some(place) => Pick::Part(place, 0, place, 0),
    }
}

// What a number asks for.
fn kind_of(number: Frac) -> MatchKind
    ensures { result ≡ kind_of number }
{
    if number.is_zero() {
        MatchKind::Equal
    } else if number.is_negative() {
        MatchKind::Falling
    } else {
        MatchKind::Rising
    }
}

// A place in a row or a column, counted from 1.
fn place_value(pick: Pick) -> Value
    ensures { result ≡ place_value pick }
{
    match pick {
        Pick::Part(top, left, _, _) => {
            Value::Number(Frac::from_whole(top as i64 + left as i64 + 1))
        }
        Pick::Fault(kind) => Value::Error(kind),
    }
}

/// VLOOKUP: the element in a column, counted from 1, of the row whose first element is found.
pub fn vlookup(alloc: Global, args: &[Arg]) -> Result<Arg, FuncStop>
    requires { Takes func.VLookup (length args.now) }
    ensures exact { IfOk result (λ answer. answer ≡ exact (vlookup_of args.now)) }
    ensures narrow { Answers (vlookup_of args.now) result }
{
    let [key, table, column, rest @ ..] = args else {
        unreachable!();
    };
    lookup(alloc, &down(table), key, column, rest)
}

/// HLOOKUP: the element in a row, counted from 1, of the column whose first element is found.
pub fn hlookup(alloc: Global, args: &[Arg]) -> Result<Arg, FuncStop>
    requires { Takes func.HLookup (length args.now) }
    ensures exact { IfOk result (λ answer. answer ≡ exact (hlookup_of args.now)) }
    ensures narrow { Answers (hlookup_of args.now) result }
{
    let [key, table, row, rest @ ..] = args else {
        unreachable!();
    };
    lookup(alloc, &across(table), key, row, rest)
}

/// What VLOOKUP and HLOOKUP pick of a table of so many fields whose records have these keys: the field at a place, counted from
/// 1, of the record whose key is found, and the order of the keys may follow.
pub fn record_at(keys: &[Value], fields: u32, key: &Arg, place: &Arg, rest: &[Arg]) -> Pick
    requires { length keys.now < 2 ^ 32 }
    ensures pick { result ≡ record_pick fields keys.now (key.now ∷ place.now ∷ rest.now) }
    ensures within { IsWithin (length keys.now) fields result }
{
    match field_found(&keys_alone(keys, fields), key, place, rest) {
        Ok((record, field)) => Pick::Part(record, field, record, field),
        Err(kind) => Pick::Fault(kind),
    }
}

// What is looked up in a table.
fn lookup(
    alloc: Global,
    table: &TableView<'_>,
    key: &Arg,
    place: &Arg,
    rest: &[Arg],
) -> Result<Arg, FuncStop>
    requires { IsIndexed table.now }
    ensures { (g : Rectangle) → IsTable table.now g
        → Answers (lookup_of g (key.now ∷ place.now ∷ rest.now)) result }
{
    match field_found(table, key, place, rest) {
        Ok((record, field)) => Ok(Arg::One(table.at(record, field).copy(alloc)?)),
        Err(kind) => Ok(fault(kind)),
    }
}

// The record and the field that are picked.
fn field_found(
    table: &TableView<'_>,
    key: &Arg,
    place: &Arg,
    rest: &[Arg],
) -> Result<(u32, u32), ErrorKind>
    requires { HasKeys table.now }
    ensures pick { one_field result
        ≡ record_pick table.now.fields (keys_of table.now) (key.now ∷ place.now ∷ rest.now) }
    ensures within { IfOk result (AreWithin table.now.keys table.now.fields) }
{
    let key = value_or_error(key)?;
    let place = place_of(place)?;
    let sorted = is_sorted(rest)?;
    let field = field_at(table.fields, place)?;
    match place_of_key(
        kind_where(sorted),
        key,
        table.items,
        table.key_step,
        table.keys,
    ) {
        Some(record) => Ok((record, field)),
        None => Err(ErrorKind::NotAvailable),
    }
}

// Whether the keys are taken as sorted, which they are where nothing is said.
fn is_sorted(rest: &[Arg]) -> Result<bool, ErrorKind>
    ensures { result ≡ is_sorted rest.now }
{
    match rest {
        [] => Ok(true),
        [sorted, ..] => logical_of(sorted),
    }
}

// The field, from 0, at a place that is counted from 1.
fn field_at(fields: u32, place: i128) -> Result<u32, ErrorKind>
    ensures value { result ≡ field_at fields place }
    ensures within { IfOk result (λ field. field < fields) }
{
    if place <= 0 {
        return Err(ErrorKind::Value);
    }
    if place > fields as i128 {
        return Err(ErrorKind::Ref);
    }
    Ok((place - 1) as u32)
}

// What is looked for among keys that are taken as sorted, or aren't.
fn kind_where(sorted: bool) -> MatchKind
    ensures { result ≡ kind_where sorted }
{
    if sorted {
        MatchKind::Rising
    } else {
        MatchKind::Equal
    }
}
