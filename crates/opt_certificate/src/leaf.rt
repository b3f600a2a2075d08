// Proofs at leaves.
ghost use Rattle.std.specs.Prelude.{◌≡◌, ◌↔◌, ◌<◌, ◌≤◌, IsTrue, length};
ghost use Rattle.fractions.specs.Rational.{◌+ℚ◌, ◌≤ℚ◌, ◌<ℚ◌, zero_ℚ};
ghost use Rattle.fractions.specs.Rows.{combined, combined_bound};
ghost use Rattle.fractions.specs.Vectors.{AllNonNegative, at};
ghost use Rattle.linear_programs.specs.Program.{Bounds, IsContradictory, IsRegular};
ghost use Rattle.opt_certificate.specs.Checks.{ColumnsAreNarrow};
ghost use Rattle.opt_certificate.specs.Judged.{Judged};
ghost use Rattle.opt_certificate.specs.Rows.{ColumnsReach, floor_of};
ghost use Rattle.opt_certificate.specs.Sums.{StaysNarrow, bound_sum, column_sum, whole_bound};

use crate::sums::{bound_sum, column_sum};
use frac128::{Frac, Wide};
use linear_programs::Standard;

// Whether none of the numbers is negative.
fn none_negative(numbers: &[Frac]) -> bool
    ensures { IsTrue result ↔ AllNonNegative numbers.now }
{
    for number in numbers {
        if number.is_negative() {
            return false;
        }
    }
    true
}

// What the combination's coefficient of a column is to reach.
fn floor_of(program: &Standard, column: usize, plain: bool) -> Frac
    requires { column < length program.now.objective }
    ensures { result ≡ floor_of plain program.now column }
{
    if plain {
        return Frac::zero();
    }
    program.objective()[column]
}

// Whether the combination's coefficient of a column is at least the objective's, or with `plain` at least 0.
fn column_reaches(
    program: &Standard,
    multipliers: &[Frac],
    column: usize,
    plain: bool,
) -> Result<bool, Wide>
    requires few { length multipliers.now ≤ length program.now.rows }
    requires regular { IsRegular program.now }
    requires column { column < length program.now.objective }
    ensures { Judged (floor_of plain program.now column
        ≤ℚ at (combined multipliers.now program.now.rows) column)
        (StaysNarrow (column_sum column multipliers.now program.now.rows)) result }
{
    let floor = floor_of(program, column, plain);
    let sum = column_sum(column, multipliers, program.rows())?;
    Ok(!sum.is_below(floor))
}

// Whether each column's coefficient does so.
fn columns_reach(program: &Standard, multipliers: &[Frac], plain: bool) -> Result<bool, Wide>
    requires few { length multipliers.now ≤ length program.now.rows }
    requires regular { IsRegular program.now }
    ensures { Judged (ColumnsReach plain program.now multipliers.now)
        (ColumnsAreNarrow program.now multipliers.now) result }
{
    for column in 0..program.objective().len() {
        if !column_reaches(program, multipliers, column, plain)? {
            return Ok(false);
        }
    }
    Ok(true)
}

// Whether the combination's bound with the objective's constant is at most that number.
fn bound_is_within(program: &Standard, multipliers: &[Frac], most: Frac) -> Result<bool, Wide>
    requires few { length multipliers.now ≤ length program.now.rows }
    ensures { Judged ((combined_bound multipliers.now program.now.rows +ℚ program.now.constant)
        ≤ℚ most)
        (StaysNarrow (whole_bound multipliers.now program.now)) result }
{
    let bound = bound_sum(multipliers, program.rows())?;
    let sum = bound.add(program.constant())?;
    Ok(!most.is_below(sum))
}

// Whether the combination's bound is negative.
fn bound_is_negative(program: &Standard, multipliers: &[Frac]) -> Result<bool, Wide>
    requires few { length multipliers.now ≤ length program.now.rows }
    ensures { Judged (combined_bound multipliers.now program.now.rows
        <ℚ zero_ℚ) (StaysNarrow (bound_sum multipliers.now program.now.rows)) result }
{
    let bound = bound_sum(multipliers, program.rows())?;
    Ok(bound.is_negative())
}

/// Whether the multipliers bound the objective by that number.
pub(crate) fn is_best(program: &Standard, multipliers: &[Frac], most: Frac) -> Result<bool, Wide>
    ensures { Judged ((length multipliers.now ≤ length program.now.rows)
        × Bounds program.now multipliers.now most)
        (ColumnsAreNarrow program.now multipliers.now
        × StaysNarrow (whole_bound multipliers.now program.now)) result }
{
    if multipliers.len() > program.rows().len() {
        return Ok(false);
    }
    if !none_negative(multipliers) {
        return Ok(false);
    }
    if !columns_reach(program, multipliers, false)? {
        return Ok(false);
    }
    bound_is_within(program, multipliers, most)
}

/// Whether the multipliers are contradictory.
pub(crate) fn is_contradictory(program: &Standard, multipliers: &[Frac]) -> Result<bool, Wide>
    ensures { Judged ((length multipliers.now ≤ length program.now.rows)
        × IsContradictory program.now multipliers.now)
        (ColumnsAreNarrow program.now multipliers.now
        × StaysNarrow (bound_sum multipliers.now program.now.rows)) result }
{
    if multipliers.len() > program.rows().len() {
        return Ok(false);
    }
    if !none_negative(multipliers) {
        return Ok(false);
    }
    if !columns_reach(program, multipliers, true)? {
        return Ok(false);
    }
    bound_is_negative(program, multipliers)
}
