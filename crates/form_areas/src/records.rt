// What VLOOKUP and HLOOKUP find.
ghost use Rattle.std.specs.Prelude.{◌≡◌, ◌<◌, ◌^◌, IfErr, IfOk, IfSome, None, Ok, Some, length, map, true};
ghost use Rattle.std.specs.List.{list_all, list_any};
ghost use Rattle.std.specs.Result.{result_map_both};
ghost use Rattle.form_areas.specs.Kinds.{found_in, kinds_asked};
ghost use Rattle.form_areas.specs.Truths.{IsTrueAcross, IsTrueDown};
ghost use Rattle.form_areas.specs.Undecided.{IsUndecidedOrMemory};
ghost use Rattle.form_ops.specs.Operands.{wanted_in};
ghost use Rattle.form_table.specs.Lookups.{at_record, by_record, error_of, field_at, in_field, is_missing, kinds_in, kinds_of, may_be_key, open_field, record_form};
ghost use Rattle.form_table.specs.Wanted.{number_of, value_of};
ghost use Rattle.form_values.specs.Known.{is_known, value_in};
ghost use Rattle.form_values.specs.Trials.{Answers, undecided};
ghost use Rattle.form_values.specs.declared.abs.Abs.TheVariants.{Known};
ghost use Rattle.sheet_funcs.specs.Arguments.{grid_of, no_error, value_of as value_in_arg};
ghost use Rattle.sheet_funcs.specs.Lookups.{kind_of};
ghost use Rattle.sheet_model.specs.declared.grid.Arg.TheVariants.{Area};

use crate::lookups::has_key;
use crate::searches::is_never_found;
use crate::values::value_or_error;
use cell_refs::ErrorKind;
use form_ops::{Operand, known_number, operand_in, value_of};
use form_values::{Abs, AbsArg, OpRefusal};
use frac128::Frac;
use memory::Memory;
use sheet_funcs::{MatchKind, Pick};
use sheet_model::{Arg, Grid, Value, to_logical};
use std::alloc::Global;

/// What is found of a record: its place and that of a field, both from 0, or the error that there is none.
pub type Found = Result<(u32, u32), ErrorKind>;

/// The record and the field that a lookup finds: by the key that stands first in its record, by the place of the field, counted from
/// 1, and by whether the keys are sorted, which they are where nothing is said. A known field out of range comes first; keys among
/// which none may be the key, or this one is never found, are an error. Of VLOOKUP the records are the rows of its table, of HLOOKUP
/// the columns. The argument that decides is counted as theirs are: the key is 0, the table with the keys 1.
pub fn record_at(
    alloc: Global,
    fields: u32,
    keys: &[Abs],
    key: &AbsArg,
    field: &AbsArg,
    sorted: &[AbsArg],
) -> Result<Found, OpRefusal>
    requires few { length keys.now < 2 ^ 32 }
    ensures answer { Answers (record_form fields keys.now (value_of key.now)
        (number_of field.now) (kinds_in sorted.now)) result }
    ensures down { IsTrueDown fields keys.now key.now field.now sorted.now result }
    ensures across { IsTrueAcross fields keys.now key.now field.now sorted.now result }
    ensures within { IfOk result (λ found.
        IfOk found (λ place. (place.0 < length keys.now) × (place.1 < fields))) }
    ensures refused { IfErr result IsUndecidedOrMemory }
{
    record_by(
        alloc,
        fields,
        keys,
        key,
        &operand_in(field),
        kind_in(sorted),
    )
}

// The same with what stands where the field's number is wanted, and with the kind of search, where that is known.
fn record_by(
    alloc: Global,
    fields: u32,
    keys: &[Abs],
    key: &AbsArg,
    field: &Operand,
    kind: Result<Option<MatchKind>, ErrorKind>,
) -> Result<Found, OpRefusal>
    requires few { length keys.now < 2 ^ 32 }
    ensures answer { Answers (record_form fields keys.now (value_of key.now)
        (wanted_in field.now) (result_map_both kinds_asked (λ k. k) kind)) result }
    ensures within { IfOk result (λ found.
        IfOk found (λ place. (place.0 < length keys.now) × (place.1 < fields))) }
    ensures refused { IfErr result IsUndecidedOrMemory }
{
    let key = match value_or_error(key) {
        Ok(key) => key,
        Err(kind) => return Ok(Err(kind)),
    };
    if let Operand::Fault(kind) = field {
        return Ok(Err(*kind));
    }
    let kind = match kind {
        Ok(kind) => kind,
        Err(error) => return Ok(Err(error)),
    };
    match known_number(field) {
        Some(number) => in_field(alloc, fields, number.floor(), key, keys, kind),
        None => Err(OpRefusal::Undecided(open_field(field, key, keys))),
    }
}

/// The kind of search that an argument asks for which says whether the keys are sorted; none where it is open.
pub(crate) fn kind_in(sorted: &[AbsArg]) -> Result<Option<MatchKind>, ErrorKind>
    ensures { result_map_both kinds_asked (λ k. k) result ≡ kinds_in sorted.now }
{
    match sorted {
        [] => Ok(Some(MatchKind::Rising)),
        [arg, ..] => match value_of(arg) {
            Ok(value) => kind_of(value),
            Err(kind) => Err(kind),
        },
    }
}

// The kind of search that a value asks for.
fn kind_of(value: &Abs) -> Result<Option<MatchKind>, ErrorKind>
    ensures { result_map_both kinds_asked (λ k. k) result ≡ kinds_of value.now }
{
    let Abs::Known(known) = value else {
        return Ok(None);
    };
    match to_logical(known) {
        Ok(true) => Ok(Some(MatchKind::Rising)),
        Ok(false) => Ok(Some(MatchKind::Equal)),
        Err(kind) => Err(kind),
    }
}

// The argument that decides where the field is open.
fn open_field(field: &Operand, key: &Abs, keys: &[Abs]) -> usize
    ensures { open_field (wanted_in field.now) key.now keys.now ≡ undecided result }
{
    if let Operand::Test = field {
        return 2;
    }
    if !key.is_known() {
        return 0;
    }
    if !are_known(keys) {
        return 1;
    }
    2
}

// Whether all elements are known.
fn are_known(items: &[Abs]) -> bool
    ensures { result ≡ list_all is_known items.now }
{
    items.iter().all(|item| item.is_known())
}

// What is found where the field is known.
fn in_field(
    alloc: Global,
    fields: u32,
    field: i128,
    key: &Abs,
    keys: &[Abs],
    kind: Option<MatchKind>,
) -> Result<Found, OpRefusal>
    requires few { length keys.now < 2 ^ 32 }
    requires key { error_of key.now ≡ None }
    ensures answer { Answers
        (in_field (field_at fields field) key.now keys.now (kinds_asked kind)) result }
    ensures within { IfOk result (λ found.
        IfOk found (λ place. (place.0 < length keys.now) × (place.1 < fields))) }
    ensures refused { IfErr result IsUndecidedOrMemory }
{
    let field = match field_at(fields, field) {
        Ok(field) => field,
        Err(kind) => return Ok(Err(kind)),
    };
    if !has_key(keys) {
        return Ok(Err(ErrorKind::NotAvailable));
    }
    let Abs::Known(key) = key else {
        return Err(OpRefusal::Undecided(0));
    };
    if is_missing(kind, key, keys) {
        return Ok(Err(ErrorKind::NotAvailable));
    }
    if !are_known(keys) {
        return Err(OpRefusal::Undecided(1));
    }
    by_kind(alloc, field, key, keys, kind)
}

/// The field, from 0, at a place that is counted from 1.
pub(crate) fn field_at(fields: u32, place: i128) -> Result<u32, ErrorKind>
    ensures value { result ≡ field_at fields place }
    ensures within { IfOk result (λ field. field < fields) }
{
    if place <= 0 {
        return Err(ErrorKind::Value);
    }
    if place > fields as i128 {
        return Err(ErrorKind::Ref);
    }
    Ok((place - 1) as u32)
}

// Whether the key is never found by the kind of search, or by either where it is open.
fn is_missing(kind: Option<MatchKind>, key: &Value, keys: &[Abs]) -> bool
    requires { error_of (Known key.now) ≡ None }
    ensures { result ≡ is_missing (Some key.now) keys.now (kinds_asked kind) }
{
    match kind {
        Some(kind) => is_never_found(kind, key, keys),
        None => {
            is_never_found(MatchKind::Equal, key, keys)
                && is_never_found(MatchKind::Rising, key, keys)
        }
    }
}

// What is found of a known key among known ones.
fn by_kind(
    alloc: Global,
    field: u32,
    key: &Value,
    keys: &[Abs],
    kind: Option<MatchKind>,
) -> Result<Found, OpRefusal>
    requires few { length keys.now < 2 ^ 32 }
    requires some { list_any may_be_key keys.now ≡ true }
    requires key { error_of (Known key.now) ≡ None }
    ensures answer { Answers
        (by_record field (Some key.now) (Some (map value_in keys.now)) (kinds_asked kind)) result }
    ensures within { IfOk result (λ found.
        IfOk found (λ place. (place.0 < length keys.now) × (place.1 ≡ field))) }
    ensures refused { IfErr result IsUndecidedOrMemory }
{
    let Some(kind) = kind else {
        return Err(OpRefusal::Undecided(3));
    };
    let key = Arg::One(key.copy(alloc)?);
    let keys = line(alloc, keys)?;
    Ok(record_of(field, place_of_key(kind, &key, &keys)))
}

// Known elements in one row.
fn line(alloc: Global, items: &[Abs]) -> Result<Arg, Memory>
    requires few { length items.now < 2 ^ 32 }
    requires some { 0 < length items.now }
    ensures { IfOk result (λ line. line
        ≡ Area (record { rows = 1; columns = length items.now; items = map value_in items.now })) }
{
    let mut values = Vec::new(alloc);
    for item in items {
        values.push(value_in(alloc, item)?)?;
    }
    match Grid::new(1, items.len() as u32, values) {
        Some(grid) => Ok(Arg::Area(grid)),
        None => unreachable!(),
    }
}

// The known value, and an empty one in the place of another.
fn value_in(alloc: Global, item: &Abs) -> Result<Value, Memory>
    ensures { IfOk result (λ value. value ≡ value_in item.now) }
{
    match item {
        Abs::Known(value) => value.copy(alloc),
        Abs::Affine(_) | Abs::Test(_, _) => Ok(Value::Empty),
    }
}

// Where the key is found among the keys in one row.
fn place_of_key(kind: MatchKind, key: &Arg, keys: &Arg) -> Option<u32>
    requires row { (grid_of keys.now).rows ≡ 1 }
    requires key { no_error (value_in_arg key.now) ≡ Ok (value_in_arg key.now) }
    ensures place { result ≡ found_in kind key.now keys.now }
    ensures within { IfSome result (λ place. place < (grid_of keys.now).columns) }
{
    match sheet_funcs::lookup_at(key, keys, &Arg::One(Value::Number(number_of(kind)))) {
        Pick::Part(_, left, _, _) => Some(left),
        Pick::Fault(_) => None,
    }
}

// The number that asks for a kind of search.
fn number_of(kind: MatchKind) -> Frac
    ensures { kind_of result ≡ kind }
{
    match kind {
        MatchKind::Equal => Frac::zero(),
        MatchKind::Rising => Frac::one(),
        MatchKind::Falling => Frac::one().neg(),
    }
}

// The record that is found, with the field.
fn record_of(field: u32, place: Option<u32>) -> Found
    ensures { result ≡ at_record field place }
{
    match place {
        Some(place) => Ok((place, field)),
        None => Err(ErrorKind::NotAvailable),
    }
}
