// What a pivot does to all rows.
ghost use Rattle.std.specs.Prelude.{◌≡◌, ◌≢◌, ◌<◌, ◌≤◌, ℕ, suc, [], length, All, MatchResult, map, slice_set, slice_index_or};
ghost use Rattle.fractions.specs.Rational.{zero_ℚ};
ghost use Rattle.fractions.specs.Vectors.{at};
ghost use Rattle.dictionaries.specs.Dictionary.{solved_row, substituted};
ghost use Rattle.dictionaries.specs.Narrow.{AreNarrow, IsNarrowSubstituted};
ghost use Rattle.tableau.specs.Changed.{AreChanged};

use crate::numbers::change;
use crate::row::Row;
use frac128::Wide;
use std::mem;

/// Lets `by` come in for the variable of the column in the rows before the end but the leaving one, or in those before the
/// first of which a number would not be narrow, and answers its place.
fn change_before(
    rows: &mut [Row],
    end: usize,
    leaving: usize,
    col: u16,
    by: &Row,
    spare: &mut Row,
) -> Result<(), usize>
    requires end { end ≤ length rows.old }
    requires place { suc col < length by.now }
    requires entry { at by.now (suc col) ≢ zero_ℚ }
    requires widths { All (λ r. length r ≡ length by.now) rows.old }
    requires room { length spare.old ≡ length by.now }
    ensures made { MatchResult result (λ _. AreChanged rows.old end leaving (suc col) by.now rows.new)
        (λ first. AreChanged rows.old first leaving (suc col) by.now rows.new
        × (first < end) × (first ≢ leaving)
        × ¬ (IsNarrowSubstituted (slice_index_or rows.old first []) (suc col) by.now)) }
    ensures widths { All (λ r. length r ≡ length by.now) rows.new }
    ensures room { length spare.new ≡ length by.now }
{
    for i in 0..end {
        if i == leaving {
            continue;
        }
        match change(&mut rows[i], col, by, spare) {
            Ok(()) => {}
            Err(_) => return Err(i),
        }
    }
    Ok(())
}

/// Lets the leaving row come in again in the other rows before the end, where this makes narrow numbers. Another row stands in
/// its place meanwhile.
fn restore_before(
    rows: &mut [Row],
    end: usize,
    leaving: usize,
    col: u16,
    other: &mut Row,
    spare: &mut Row,
)
    requires end { end ≤ length rows.old }
    requires leaving { leaving < length rows.old }
    requires place { suc col < length other.old }
    requires entry { at (slice_index_or rows.old leaving []) (suc col) ≢ zero_ℚ }
    requires widths { All (λ r. length r ≡ length other.old) rows.old }
    requires room { length spare.old ≡ length other.old }
    requires narrow { (i : ℕ) → i < end → i ≢ leaving
        → IsNarrowSubstituted (slice_index_or rows.old i []) (suc col) (slice_index_or rows.old leaving []) }
    ensures made { AreChanged rows.old end leaving (suc col) (slice_index_or rows.old leaving []) rows.new }
    ensures size { length other.new ≡ length other.old }
    ensures room { length spare.new ≡ length other.old }
{
    mem::swap(&mut rows[leaving], other);
    match change_before(rows, end, leaving, col, other, spare) {
        Ok(()) => {}
        Err(_) => unreachable!(),
    }
    mem::swap(&mut rows[leaving], other);
}

/// Lets `by`, to which the leaving row is solved, come in for the variable of the column, and take the leaving row's place.
/// Where a number would not be narrow, nothing has changed.
pub fn change_rows(
    rows: &mut [Row],
    leaving: usize,
    col: u16,
    by: &mut Row,
    spare: &mut Row,
) -> Result<(), Wide>
    requires leaving { leaving < length rows.old }
    requires place { suc col < length by.old }
    requires pivot { at (slice_index_or rows.old leaving []) (suc col) ≢ zero_ℚ }
    requires solved { by.old ≡ solved_row (slice_index_or rows.old leaving []) (suc col) }
    requires entry { at by.old (suc col) ≢ zero_ℚ }
    requires widths { All (λ r. length r ≡ length by.old) rows.old }
    requires room { length spare.old ≡ length by.old }
    ensures made { MatchResult result
        (λ _. (rows.new ≡ slice_set (map (λ r. substituted r (suc col) by.old) rows.old) leaving by.old)
        × AreNarrow rows.old leaving (suc col) by.old)
        (λ _. (rows.new ≡ rows.old) × ¬ (AreNarrow rows.old leaving (suc col) by.old)) }
    ensures size { length by.new ≡ length by.old }
    ensures room { length spare.new ≡ length by.old }
{
    match change_before(rows, rows.len(), leaving, col, by, spare) {
        Ok(()) => {
            mem::swap(&mut rows[leaving], by);
            Ok(())
        }
        Err(end) => {
            restore_before(rows, end, leaving, col, by, spare);
            Err(Wide)
        }
    }
}
