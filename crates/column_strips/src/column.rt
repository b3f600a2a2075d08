// The strips of one column.
ghost use Rattle.std.specs.Prelude.{◌≡◌, ◌+◌, ◌<◌, ◌≤◌, ◌&&◌, ◌||◌, not, vec_capacity, vec_len};
ghost use Rattle.std.specs.Ordering.{eq_by_cmp};
ghost use Rattle.column_strips.specs.declared.strip.Strip.{Strip};
ghost use Rattle.column_strips.specs.Formulas.{IsRising};
ghost use Rattle.column_strips.specs.Strips.{has_strip, strip_cmp};

use crate::strip::Strip;

/// Adds a strip, where the column hasn't got it.
pub(crate) fn add_strip(column: &mut Vec<Strip>, strip: Strip)
    requires rising { IsRising strip_cmp column.old.items }
    requires room { vec_len column.old < vec_capacity column.old }
    ensures rising { IsRising strip_cmp column.new.items }
    ensures has { (s : Strip) → has_strip column.new.items s
        ≡ (eq_by_cmp strip_cmp s strip || has_strip column.old.items s) }
    ensures len { vec_len column.new ≤ vec_len column.old + 1 }
    ensures capacity { vec_capacity column.old ≤ vec_capacity column.new }
{
    let Err(place) = column.binary_search(&strip) else {
        return;
    };
    let _ = column.insert(place, strip);
}

/// Takes a strip away, where the column has it.
pub(crate) fn drop_strip(column: &mut Vec<Strip>, strip: Strip)
    requires { IsRising strip_cmp column.old.items }
    ensures rising { IsRising strip_cmp column.new.items }
    ensures has { (s : Strip) → has_strip column.new.items s
        ≡ (not (eq_by_cmp strip_cmp s strip) && has_strip column.old.items s) }
    ensures len { vec_len column.new ≤ vec_len column.old }
    ensures capacity { vec_capacity column.new ≡ vec_capacity column.old }
{
    let Ok(place) = column.binary_search(&strip) else {
        return;
    };
    column.remove(place);
}
