// What MATCH finds.
ghost use Rattle.std.specs.Prelude.{◌≡◌, ◌≢◌, ◌&&◌, ◌||◌, ◌==◌, IfErr, IfOk, None, Some, map, true};
ghost use Rattle.std.specs.List.{list_any};
ghost use Rattle.form_areas.specs.Truths.{IsTrueLookup};
ghost use Rattle.form_areas.specs.Undecided.{IsUndecidedOrMemory};
ghost use Rattle.form_ops.specs.Operands.{wanted_in};
ghost use Rattle.form_table.specs.Lookups.{by_keys, by_places, error_of, has_no_place, known_keys, known_value, lookup_form, lookup_pick_form, may_be_key, pick_in};
ghost use Rattle.form_table.specs.Wanted.{grid_of, number_of, value_of};
ghost use Rattle.form_values.specs.Known.{all_known, value_in};
ghost use Rattle.form_values.specs.Trials.{Answers};
ghost use Rattle.form_values.specs.declared.abs.Abs.TheVariants.{Known};
ghost use Rattle.sheet_funcs.specs.Lookups.{found, kind_of};
ghost use Rattle.sheet_funcs.specs.Within.{IsWithin};

use crate::grids::{columns_of, rows_of};
use crate::searches::is_never_found;
use crate::values::value_or_error;
use cell_refs::ErrorKind;
use form_ops::{Operand, known_number, operand_in};
use form_values::{Abs, AbsArg, OpRefusal};
use frac128::Frac;
use memory::Memory;
use sheet_funcs::{MatchKind, Pick};
use sheet_model::{Arg, Value};
use std::alloc::Global;

/// The place of a key in a row or a column, as a part of that grid. The key, the keys and the kind have to be known; but a grid of
/// several rows and columns, and one of empty elements and errors alone, has no place for any key, and a known key has none among
/// sorted keys whose first one is known and beyond it.
pub fn lookup_at(
    alloc: Global,
    key: &AbsArg,
    keys: &AbsArg,
    kind: &AbsArg,
) -> Result<Pick, OpRefusal>
    ensures answer { Answers (lookup_pick_form key.now keys.now (number_of kind.now)) result }
    ensures right { IsTrueLookup key.now keys.now kind.now result }
    ensures within { IfOk result (IsWithin (grid_of keys.now).rows (grid_of keys.now).columns) }
    ensures refused { IfErr result IsUndecidedOrMemory }
{
    looked_up(alloc, key, keys, kind)
}

// The same place.
fn looked_up(alloc: Global, key: &AbsArg, keys: &AbsArg, kind: &AbsArg) -> Result<Pick, OpRefusal>
    ensures answer { Answers (lookup_pick_form key.now keys.now (number_of kind.now)) result }
    ensures within { IfOk result (IsWithin (grid_of keys.now).rows (grid_of keys.now).columns) }
    ensures refused { IfErr result IsUndecidedOrMemory }
{
    let key = match value_or_error(key) {
        Ok(key) => key,
        Err(kind) => return Ok(Pick::Fault(kind)),
    };
    let kind = operand_in(kind);
    if let Operand::Fault(kind) = &kind {
        return Ok(Pick::Fault(*kind));
    }
    if !may_find(keys) {
        return Ok(Pick::Fault(ErrorKind::NotAvailable));
    }
    by_places(alloc, key, keys, &kind)
}

// Whether some key may be found: there is one row or one column, and an element that may be a key.
fn may_find(keys: &AbsArg) -> bool
    ensures { result ≡ (((grid_of keys.now).rows == 1) || ((grid_of keys.now).columns == 1))
        && list_any may_be_key (grid_of keys.now).items }
{
    (rows_of(keys) == 1 || columns_of(keys) == 1) && has_key(keys.elements())
}

/// Whether some element may be a key.
pub(crate) fn has_key(items: &[Abs]) -> bool
    ensures { result ≡ list_any may_be_key items.now }
{
    items.iter().any(may_be_key)
}

/// Whether an element may be a key: an open one may, and of the known ones what is empty and what is an error isn't.
pub(crate) fn may_be_key(item: &Abs) -> bool
    ensures { result ≡ may_be_key item.now }
{
    !matches!(item, Abs::Known(Value::Empty | Value::Error(_)))
}

// The place of a key where there may be one.
fn by_places(alloc: Global, key: &Abs, keys: &AbsArg, kind: &Operand) -> Result<Pick, OpRefusal>
    requires line { (((grid_of keys.now).rows == 1) || ((grid_of keys.now).columns == 1)) ≡ true }
    requires key { error_of key.now ≡ None }
    ensures answer { Answers
        (by_places (grid_of keys.now) (known_value key.now) (wanted_in kind.now)) result }
    ensures within { IfOk result (IsWithin (grid_of keys.now).rows (grid_of keys.now).columns) }
    ensures refused { IfErr result IsUndecidedOrMemory }
{
    if has_no_place(known_number(kind), key, keys.elements()) {
        return Ok(Pick::Fault(ErrorKind::NotAvailable));
    }
    by_keys(alloc, key, keys, kind)
}

// Whether a known key is never found by a known kind.
fn has_no_place(kind: Option<Frac>, key: &Abs, keys: &[Abs]) -> bool
    requires { error_of key.now ≡ None }
    ensures { result ≡ has_no_place kind (known_value key.now) keys.now }
{
    let (Some(number), Abs::Known(key)) = (kind, key) else {
        return false;
    };
    is_never_found(kind_of(number), key, keys)
}

// The kind of search that a number asks for.
fn kind_of(number: Frac) -> MatchKind
    ensures { result ≡ kind_of number }
{
    if number.is_zero() {
        MatchKind::Equal
    } else if number.is_negative() {
        MatchKind::Falling
    } else {
        MatchKind::Rising
    }
}

// The place of a key where it may be found.
fn by_keys(alloc: Global, key: &Abs, keys: &AbsArg, kind: &Operand) -> Result<Pick, OpRefusal>
    requires line { (((grid_of keys.now).rows == 1) || ((grid_of keys.now).columns == 1)) ≡ true }
    requires key { error_of key.now ≡ None }
    ensures answer { Answers (by_keys (grid_of keys.now) (known_value key.now)
        (known_keys (grid_of keys.now).items) (wanted_in kind.now)) result }
    ensures within { IfOk result (IsWithin (grid_of keys.now).rows (grid_of keys.now).columns) }
    ensures refused { IfErr result IsUndecidedOrMemory }
{
    if let Operand::Test = kind {
        return Err(OpRefusal::Undecided(2));
    }
    let Abs::Known(key) = key else {
        return Err(OpRefusal::Undecided(0));
    };
    if !keys.is_known() {
        return Err(OpRefusal::Undecided(1));
    }
    match known_number(kind) {
        Some(number) => Ok(found_at(alloc, key, keys, number)?),
        None => Err(OpRefusal::Undecided(2)),
    }
}

// The place of a known key among known ones.
fn found_at(alloc: Global, key: &Value, keys: &AbsArg, kind: Frac) -> Result<Pick, Memory>
    requires line { (((grid_of keys.now).rows == 1) || ((grid_of keys.now).columns == 1)) ≡ true }
    requires key { error_of (Known key.now) ≡ None }
    ensures pick { IfOk result (λ pick. pick ≡ pick_in (grid_of keys.now)
        (found (kind_of kind) key.now (map value_in (grid_of keys.now).items))) }
    ensures within { IfOk result (IsWithin (grid_of keys.now).rows (grid_of keys.now).columns) }
{
    let key = Arg::One(key.copy(alloc)?);
    let values = keys.values(alloc)?;
    Ok(sheet_funcs::lookup_at(&key, &values, &Arg::One(Value::Number(kind))))
}
