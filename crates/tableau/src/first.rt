ghost use Rattle.std.specs.Prelude.{◌≡◌, ◌<◌, ◌≤◌, ◌+◌, ◌^◌, ℕ, [], ◌∷◌, length, All, IfOk, map, replicate};
ghost use Rattle.std.specs.List.{range_with_len};
ghost use Rattle.fractions.specs.Rational.{zero_ℚ, one_ℚ};
ghost use Rattle.dictionaries.specs.Dictionary.{first_row, first_of_program};
ghost use Rattle.dictionaries.specs.Run.{IsReached};

use crate::dict::Dict;
use crate::making::{auxiliary_row, objective_row, slack_row};
use crate::row::Row;
use crate::table::Table;
use linear_programs::{Inequality, Standard};
use memory::Memory;
use std::alloc::Global;

/// As many numbers as `count` says, from the first on.
fn numbers_from(alloc: Global, from: u16, count: u16) -> Result<Vec<u16>, Memory>
    requires { from + count < 2 ^ 16 }
    ensures { IfOk result (λ v. v.items ≡ range_with_len from count) }
{
    let mut made = Vec::new(alloc);
    for i in 0..count {
        made.push(from + i)?;
    }
    Ok(made)
}

/// The rows' slacks by the columns.
fn first_rows(alloc: Global, rows: &[Inequality]) -> Result<Vec<Row>, Memory>
    requires { All (λ r. length r.coefficients < 2 ^ 15) rows.now }
    ensures { IfOk result (λ v. v.items ≡ map first_row rows.now) }
{
    let mut made = Vec::new(alloc);
    for row in rows {
        made.push(slack_row(alloc, row)?)?;
    }
    Ok(made)
}

/// The slacks by the columns.
fn first_dictionary(alloc: Global, of: &Standard) -> Result<Dict, Memory>
    ensures { IfOk result (λ d. d ≡ first_of_program of.now) }
{
    let columns = of.objective().len() as u16;
    let count = of.rows().len() as u16;
    let basic = numbers_from(alloc, columns + 1, count)?;
    let non_basic = numbers_from(alloc, 0, columns + 1)?;
    let rows = first_rows(alloc, of.rows())?;
    let objective = objective_row(alloc, of.constant(), of.objective())?;
    let auxiliary = auxiliary_row(alloc, columns as usize)?;
    Dict::of_parts(
        alloc,
        basic,
        non_basic,
        Table::new(rows, objective, auxiliary),
    )
}

/// The first dictionary of the program, with which its run begins.
pub fn start(alloc: Global, of: &Standard) -> Result<Dict, Memory>
    ensures first { IfOk result (λ d. d ≡ first_of_program of.now) }
    ensures reached { IfOk result (λ d. IsReached of.now d) }
{
    let dict = first_dictionary(alloc, of)?;
    Ok(dict)
}
