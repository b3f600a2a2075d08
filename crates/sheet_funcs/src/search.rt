// Searches for a key among the elements that stand at even steps.
ghost use Rattle.std.specs.Prelude.{◌≡◌, ◌≢◌, ◌<◌, IfSome};
ghost use Rattle.std.specs.List.{before_first, position};
ghost use Rattle.cell_refs.specs.declared.error_kind.ErrorKind.{ErrorKind};
ghost use Rattle.sheet_model.specs.declared.value.Value.TheVariants.{Error};
ghost use Rattle.sheet_funcs.specs.Lookups.{found, is_equal_to, is_key, last_place};
ghost use Rattle.sheet_funcs.specs.Searches.{IsSpaced, spaced, stands};

use crate::lookups::MatchKind;
use sheet_model::{Value, compare};
use std::cmp::Ordering;

/// Where the key is found among so many elements, the first at the front of all and each a step behind the one before.
pub(crate) fn place_of_key(
    kind: MatchKind,
    key: &Value,
    items: &[Value],
    step: u32,
    count: u32,
) -> Option<u32>
    requires key { (k : ErrorKind) → key.now ≢ Error k }
    requires spaced { IsSpaced items.now step count }
    ensures place { result ≡ found kind key.now (spaced items.now step count) }
    ensures within { IfSome result (λ place. place < count) }
{
    match kind {
        MatchKind::Equal => first_equal(key, items, step, count),
        MatchKind::Rising => last_before(Ordering::Greater, key, items, step, count),
        MatchKind::Falling => last_before(Ordering::Less, key, items, step, count),
    }
}

// The first place of an equal value.
fn first_equal(key: &Value, items: &[Value], step: u32, count: u32) -> Option<u32>
    requires key { (k : ErrorKind) → key.now ≢ Error k }
    requires spaced { IsSpaced items.now step count }
    ensures place { result ≡ position (is_equal_to key.now) (spaced items.now step count) }
    ensures within { IfSome result (λ place. place < count) }
{
    for place in 0..count {
        if stands(Ordering::Equal, key, &items[place as usize * step as usize]) {
            return Some(place);
        }
    }
    None
}

// The last place of a value before the first one that is in this order beside the key.
fn last_before(order: Ordering, key: &Value, items: &[Value], step: u32, count: u32) -> Option<u32>
    requires key { (k : ErrorKind) → key.now ≢ Error k }
    requires spaced { IsSpaced items.now step count }
    ensures place { result
        ≡ last_place is_key (before_first (stands order key.now) (spaced items.now step count)) }
    ensures within { IfSome result (λ place. place < count) }
{
    let mut last = None;
    for place in 0..count {
        let value = &items[place as usize * step as usize];
        if stands(order, key, value) {
            return last;
        }
        if is_key(value) {
            last = Some(place);
        }
    }
    last
}

// Whether the value is in this order beside the key; what is passed over is in none.
fn stands(order: Ordering, key: &Value, value: &Value) -> bool
    requires { (k : ErrorKind) → key.now ≢ Error k }
    ensures { result ≡ stands order key.now value.now }
{
    is_key(value) && compare(value, key) == order
}

// Whether the value isn't passed over.
fn is_key(value: &Value) -> bool
    ensures { result ≡ is_key value.now }
{
    !matches!(value, Value::Empty | Value::Error(_))
}
