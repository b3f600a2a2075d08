// Rows of a column, to ask quickly whether one of them lies between two others.
ghost use Rattle.std.specs.Prelude.{◌≡◌, ◌+◌, ◌<◌, ◌≤◌, ◌⊎◌, Some, length, slice_get, true, vec_capacity, ℕ};
ghost use Rattle.column_strips.specs.Rows.{AreAhead, IsSought};

use crate::strip::Strip;

/// Whether one of the rows is among those of a strip.
pub(crate) fn meets(rows: &[u16], strip: Strip) -> bool
    requires { AreAhead rows.now }
    ensures one { result ≡ true → (r : ℕ) × IsSought rows.now r × (strip.top ≤ r) × (r ≤ strip.bottom) }
    ensures all { (r : ℕ) → IsSought rows.now r → strip.top ≤ r → r ≤ strip.bottom → result ≡ true }
{
    let top = strip.top as usize;
    if top >= rows.len() {
        return false;
    }
    rows[top] <= strip.bottom
}

/// Adds a row.
pub(crate) fn add_row(rows: &mut Vec<u16>, row: u16)
    requires ahead { AreAhead rows.old.items }
    requires room { row < vec_capacity rows.old }
    ensures ahead { AreAhead rows.new.items }
    ensures capacity { vec_capacity rows.old ≤ vec_capacity rows.new }
    ensures added { IsSought rows.new.items row }
    ensures kept { (r : ℕ) → IsSought rows.old.items r → IsSought rows.new.items r }
    ensures others { (r : ℕ) → IsSought rows.new.items r → (r ≡ row) ⊎ IsSought rows.old.items r }
{
    if row as usize >= rows.len() {
        add_behind(rows, row);
        return;
    }
    let first = first_past(rows, row);
    fill(rows, first, row);
}

// Adds a row behind the others.
fn add_behind(rows: &mut Vec<u16>, row: u16)
    requires behind { length rows.old.items ≤ row }
    requires room { row < vec_capacity rows.old }
    ensures capacity { vec_capacity rows.old ≤ vec_capacity rows.new }
    ensures length { length rows.new.items ≡ row + 1 }
    ensures before { (k : ℕ) → k < length rows.old.items
        → slice_get rows.new.items k ≡ slice_get rows.old.items k }
    ensures filled { (k : ℕ) → length rows.old.items ≤ k → k ≤ row
        → slice_get rows.new.items k ≡ Some row }
{
    'behind: while rows.len() <= row as usize {
        rows.push_reserved(row);
    }
}

// The place from which on the first of the rows stands behind a row, up to that row.
fn first_past(rows: &[u16], row: u16) -> usize
    requires { row < length rows.now }
    ensures within { result ≤ row + 1 }
    ensures past { (k v : ℕ) → result ≤ k → k ≤ row → slice_get rows.now k ≡ Some v → row < v }
    ensures short { (k v : ℕ) → k + 1 ≡ result → slice_get rows.now k ≡ Some v → v ≤ row }
{
    let mut first = row as usize + 1;
    while first > 0 {
        if rows[first - 1] <= row {
            return first;
        }
        first -= 1;
    }
    first
}

// Puts a row at the places from one on up to it.
fn fill(rows: &mut Vec<u16>, first: usize, row: u16)
    requires { row < length rows.old.items }
    ensures capacity { vec_capacity rows.old ≤ vec_capacity rows.new }
    ensures before { (k : ℕ) → k < first
        → slice_get rows.new.items k ≡ slice_get rows.old.items k }
    ensures filled { (k : ℕ) → first ≤ k → k ≤ row → slice_get rows.new.items k ≡ Some row }
    ensures behind { (k : ℕ) → row < k → slice_get rows.new.items k ≡ slice_get rows.old.items k }
{
    for place in first..row as usize + 1 {
        rows[place] = row;
    }
}
