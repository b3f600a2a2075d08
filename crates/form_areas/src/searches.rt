// Searches that find no place for a key whatever the open keys hold.
ghost use Rattle.std.specs.Prelude.{◌≡◌, None};
ghost use Rattle.form_areas.specs.Kinds.{never_by};
ghost use Rattle.form_table.specs.Lookups.{error_of, is_never_found};
ghost use Rattle.form_values.specs.declared.abs.Abs.TheVariants.{Known};

use form_values::Abs;
use sheet_funcs::MatchKind;
use sheet_model::{Value, compare};

/// Whether a key is never found. A search for an equal one has to know all keys; of a sorted search the first key says it, as the
/// key is found there or further on, or else that one is beyond it and ends the search.
pub(crate) fn is_never_found(kind: MatchKind, key: &Value, items: &[Abs]) -> bool
    requires { error_of (Known key.now) ≡ None }
    ensures { result ≡ is_never_found kind key.now items.now }
{
    for item in items {
        let Abs::Known(value) = item else {
            return false;
        };
        if let Some(never) = never_by(kind, key, value) {
            return never;
        }
    }
    true
}

// What a key says of it where the search is there: none where it goes on.
fn never_by(kind: MatchKind, key: &Value, value: &Value) -> Option<bool>
    requires { error_of (Known key.now) ≡ None }
    ensures { result ≡ never_by kind key.now value.now }
{
    if let Value::Empty | Value::Error(_) = value {
        return None;
    }
    let order = compare(value, key);
    match kind {
        MatchKind::Equal if order.is_eq() => Some(false),
        MatchKind::Equal => None,
        MatchKind::Rising => Some(order.is_gt()),
        MatchKind::Falling => Some(order.is_lt()),
    }
}
