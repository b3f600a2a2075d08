// The rows of a first dictionary.
ghost use Rattle.std.specs.Prelude.{◌≡◌, ◌<◌, ◌+◌, ◌^◌, ℕ, suc, ◌∷◌, length, replicate, IfOk};
ghost use Rattle.fractions.specs.Rational.{zero_ℚ, one_ℚ, neg_ℚ};
ghost use Rattle.fractions.specs.Vectors.{at};
ghost use Rattle.dictionaries.specs.Dictionary.{first_row};

use crate::row::Row;
use frac128::Frac;
use linear_programs::Inequality;
use memory::Memory;
use std::alloc::Global;

/// Puts the numbers into a row, which has zeros from its second column on, from there on.
fn put_all(row: &mut Row, numbers: &[Frac])
    requires few { length numbers.now < 2 ^ 15 }
    requires width { length row.old ≡ length numbers.now + 2 }
    requires blank { (j : ℕ) → at row.old (suc (suc j)) ≡ zero_ℚ }
    ensures size { length row.new ≡ length row.old }
    ensures rest { at row.new 0 ≡ at row.old 0 }
    ensures first { at row.new 1 ≡ at row.old 1 }
    ensures numbers { (j : ℕ) → j < length numbers.now
        → at row.new (suc (suc j)) ≡ at numbers.now j }
{
    for j in 0..numbers.len() {
        let number = numbers[j];
        if number.is_zero() {
            continue;
        }
        row.put(j as u16 + 1, number, j + 1);
    }
}

/// Puts the numbers with their signs turned.
fn put_turned(row: &mut Row, numbers: &[Frac])
    requires few { length numbers.now < 2 ^ 15 }
    requires width { length row.old ≡ length numbers.now + 2 }
    requires blank { (j : ℕ) → at row.old (suc (suc j)) ≡ zero_ℚ }
    ensures size { length row.new ≡ length row.old }
    ensures rest { at row.new 0 ≡ at row.old 0 }
    ensures first { at row.new 1 ≡ at row.old 1 }
    ensures numbers { (j : ℕ) → j < length numbers.now
        → at row.new (suc (suc j)) ≡ neg_ℚ (at numbers.now j) }
{
    for j in 0..numbers.len() {
        let number = numbers[j];
        if number.is_zero() {
            continue;
        }
        row.put(j as u16 + 1, number.neg(), j + 1);
    }
}

/// The row of a slack: its bound, 1 for the extra variable, and the columns' coefficients with their signs turned.
pub fn slack_row(alloc: Global, row: &Inequality) -> Result<Row, Memory>
    requires { length row.now.coefficients < 2 ^ 15 }
    ensures { IfOk result (λ r. r ≡ first_row row.now) }
{
    let coefficients = row.coefficients();
    let mut made = Row::blank(alloc, coefficients.len() + 1)?;
    made.set_rest(row.bound());
    made.put(0, Frac::one(), 0);
    put_turned(&mut made, coefficients);
    Ok(made)
}

/// The row of the objective: its constant, nothing of the extra variable, and the columns' coefficients.
pub fn objective_row(alloc: Global, constant: Frac, objective: &[Frac]) -> Result<Row, Memory>
    requires { length objective.now < 2 ^ 15 }
    ensures { IfOk result (λ r. r ≡ constant ∷ zero_ℚ ∷ objective.now) }
{
    let mut made = Row::blank(alloc, objective.len() + 1)?;
    made.set_rest(constant);
    put_all(&mut made, objective);
    Ok(made)
}

/// The row of the objective of phase 1: the extra variable, negated.
pub fn auxiliary_row(alloc: Global, columns: usize) -> Result<Row, Memory>
    requires { columns < 2 ^ 15 }
    ensures { IfOk result (λ r. r ≡ zero_ℚ ∷ neg_ℚ one_ℚ ∷ replicate columns zero_ℚ) }
{
    let mut made = Row::blank(alloc, columns + 1)?;
    made.put(0, Frac::one().neg(), 0);
    Ok(made)
}
