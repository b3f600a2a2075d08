// Rows as plain lists of numbers, the constant first, and a pivot on them by the rules of school.
ghost use Rattle.std.specs.Prelude.{◌≢◌};
ghost use Rattle.fractions.specs.Rational.{zero_ℚ};

use frac128::{Frac, Wide};
use linear_programs::{Inequality, Standard};
use memory::Memory;
use std::alloc::Global;
use std::test::Fail;

// The number at a place, and 0 past the last.
fn number(row: &[Frac], place: usize) -> Frac {
    match row.get(place) {
        Some(found) => *found,
        None => Frac::zero(),
    }
}

fn first_row(alloc: Global, row: &Inequality) -> Result<Vec<Frac>, Memory> {
    let mut made = Vec::new(alloc);
    made.push(row.bound())?;
    made.push(Frac::one())?;
    for coefficient in row.coefficients() {
        made.push(coefficient.neg())?;
    }
    Ok(made)
}

/// The rows of the first dictionary of a program: each bound, 1 for the extra variable, and the coefficients with their signs turned.
pub(crate) fn first_rows(alloc: Global, of: &Standard) -> Result<Vec<Vec<Frac>>, Memory> {
    let mut rows = Vec::new(alloc);
    for row in of.rows() {
        rows.push(first_row(alloc, row)?)?;
    }
    Ok(rows)
}

fn quotients(alloc: Global, row: &[Frac], place: usize, by: Frac) -> Result<Vec<Frac>, Fail>
    requires { by ≢ zero_ℚ }
{
    let mut made = Vec::new(alloc);
    for j in 0..row.len() {
        let top = if j == place {
            Frac::one()
        } else {
            row[j].neg()
        };
        made.push(top.div(by)?)?;
    }
    Ok(made)
}

// The row solved for the variable of the place.
fn solved(alloc: Global, row: &[Frac], place: usize) -> Result<Vec<Frac>, Fail> {
    let by = number(row, place);
    if by.is_zero() {
        return Err(Fail::new(format_args!("a pivot at an entry of 0")));
    }
    quotients(alloc, row, place, by)
}

fn sum(own: Frac, factor: Frac, number: Frac) -> Result<Frac, Wide> {
    own.add(factor.mul(number)?)
}

// Another row, in which `by` comes in for the variable of the place.
fn substituted(alloc: Global, row: &[Frac], place: usize, by: &[Frac]) -> Result<Vec<Frac>, Fail> {
    let factor = number(row, place);
    let mut made = Vec::new(alloc);
    for j in 0..row.len() {
        let own = if j == place { Frac::zero() } else { row[j] };
        made.push(sum(own, factor, number(by, j))?)?;
    }
    Ok(made)
}

/// The rows after a pivot.
pub(crate) fn pivoted(
    alloc: Global,
    rows: &[Vec<Frac>],
    leaving: usize,
    place: usize,
) -> Result<Vec<Vec<Frac>>, Fail> {
    let Some(row) = rows.get(leaving) else {
        return Err(Fail::new(format_args!("a pivot at no row")));
    };
    let by = solved(alloc, row, place)?;
    let mut made = Vec::new(alloc);
    for i in 0..rows.len() {
        let next = if i == leaving {
            by.clone()?
        } else {
            substituted(alloc, &rows[i], place, &by)?
        };
        made.push(next)?;
    }
    Ok(made)
}

/// Whether a row has exactly these entries, each with its column, beside zeros.
pub(crate) fn has_entries(row: &[Frac], entries: &[(u16, Frac)]) -> bool {
    let mut left = entries;
    for j in 1..row.len() {
        if row[j].is_zero() {
            continue;
        }
        let Some(((col, entry), others)) = left.split_first() else {
            return false;
        };
        if usize::from(*col) + 1 != j || *entry != row[j] {
            return false;
        }
        left = others;
    }
    left.is_empty()
}
