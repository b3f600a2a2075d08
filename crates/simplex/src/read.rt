ghost use Rattle.std.specs.Prelude.{◌≡◌, ◌≢◌, ◌<◌, ◌≤◌, ◌+◌, ◌^◌, ℕ, suc, [], length, map, IfOk, MatchOption, slice_index};
ghost use Rattle.std.specs.List.{range_with_len};
ghost use Rattle.fractions.specs.Rational.{neg_ℚ, zero_ℚ, ◌<ℚ◌};
ghost use Rattle.fractions.specs.Vectors.{at};
ghost use Rattle.linear_programs.specs.Program.{IsCell, cell_number, cell_numbers};
ghost use Rattle.dictionaries.specs.Dictionary.{IsDictionaryOf, IsOnce};
ghost use Rattle.dictionaries.specs.Reading.{solution_at, basic_solution, change_along, entry_of, multipliers, point_of};
ghost use Rattle.dictionaries.specs.Bland.{IsUnboundedEnd};
ghost use Rattle.dictionaries.specs.Run.{IsReached};

use frac128::Frac;
use linear_programs::Standard;
use memory::Memory;
use std::alloc::Global;
use tableau::{Dict, Row};

/// The row whose basic variable this is.
pub fn row_with(dict: &Dict, variable: u16) -> Option<u16>
    ensures { MatchOption result ((i : ℕ) → i < length dict.now.basic → slice_index dict.now.basic i
        ≢ variable) (λ r. (r < length dict.now.basic) × (slice_index dict.now.basic r ≡ variable)
        × ((i : ℕ) → i < r → slice_index dict.now.basic i ≢ variable)) }
{
    for row in 0..dict.height() {
        if dict.basic(row) == variable {
            return Some(row);
        }
    }
    None
}

/// The column at which the variable stands.
pub fn column_with(dict: &Dict, variable: u16) -> Option<u16>
    ensures { MatchOption result ((i : ℕ) → i < length dict.now.nonbasic
        → slice_index dict.now.nonbasic i ≢ variable)
        (λ c. (c < length dict.now.nonbasic) × (slice_index dict.now.nonbasic c ≡ variable)
        × ((i : ℕ) → i < c → slice_index dict.now.nonbasic i ≢ variable)) }
{
    for col in 0..dict.width() {
        if dict.column(col) == variable {
            return Some(col);
        }
    }
    None
}

/// The variable's value where each non-basic one is 0.
pub fn value(dict: &Dict, variable: u16) -> Frac
    ensures { result ≡ solution_at dict.now [] variable }
{
    let _height = dict.height();
    match row_with(dict, variable) {
        None => Frac::zero(),
        Some(row) => dict.rest(row),
    }
}

/// The variable's negated entry in the row, and 0 where it is basic.
pub fn multiplier(dict: &Dict, row: &Row, variable: u16) -> Frac
    requires { length row.now ≡ length dict.now.nonbasic + 1 }
    ensures { result ≡ neg_ℚ (entry_of dict.now.nonbasic row.now variable) }
{
    match column_with(dict, variable) {
        None => Frac::zero(),
        Some(col) => row.entry(col).neg(),
    }
}

/// How the variable changes where that of the column grows by 1.
pub fn change(dict: &Dict, col: u16, variable: u16) -> Frac
    requires column { col < length dict.now.nonbasic }
    requires once { IsOnce dict.now }
    ensures { result ≡ change_along dict.now col variable }
{
    let _height = dict.height();
    if dict.column(col) == variable {
        return Frac::one();
    }
    match row_with(dict, variable) {
        None => Frac::zero(),
        Some(row) => dict.entry(row, col),
    }
}

/// The cell's number in the basic solution: of its two columns at most one isn't 0.
pub fn cell_value(of: &Standard, dict: &Dict, cell: (u16, Option<u16>)) -> Frac
    requires reached { IsReached of.now dict.now }
    requires cell { IsCell of.now cell }
    ensures { result ≡ cell_number (point_of of.now (basic_solution dict.now)) cell }
{
    let _regular = of.rows();
    let _width = of.columns();
    match cell.1 {
        None => value(dict, cell.0 + 1),
        Some(other) => {
            let first = value(dict, cell.0 + 1);
            let second = value(dict, other + 1);
            if second.is_zero() {
                first
            } else {
                second.neg()
            }
        }
    }
}

/// How the cell's number changes where the variable of the column grows by 1.
fn change_of_cell(of: &Standard, dict: &Dict, col: u16, cell: (u16, Option<u16>)) -> Frac
    requires dictionary { IsDictionaryOf of.now dict.now }
    requires column { col < length dict.now.nonbasic }
    requires improves { zero_ℚ <ℚ at dict.now.objective (suc col) }
    requires cell { IsCell of.now cell }
    requires columns { length of.now.objective ≤ 1024 }
    ensures { result ≡ cell_number (point_of of.now (change_along dict.now col)) cell }
{
    match cell.1 {
        None => change(dict, col, cell.0 + 1),
        Some(other) => {
            let first = change(dict, col, cell.0 + 1);
            let second = change(dict, col, other + 1);
            if second.is_zero() {
                first
            } else {
                second.neg()
            }
        }
    }
}

/// How the cell's number changes along the column that no row bounds.
pub fn cell_change(of: &Standard, dict: &Dict, col: u16, cell: (u16, Option<u16>)) -> Frac
    requires reached { IsReached of.now dict.now }
    requires end { IsUnboundedEnd dict.now col }
    requires cell { IsCell of.now cell }
    ensures { result ≡ cell_number (point_of of.now (change_along dict.now col)) cell }
{
    let _regular = of.rows();
    let _width = of.columns();
    change_of_cell(of, dict, col, cell)
}

/// The cells' numbers at the dictionary's point.
pub fn point(alloc: Global, of: &Standard, dict: &Dict) -> Result<Vec<Frac>, Memory>
    requires reached { IsReached of.now dict.now }
    ensures { IfOk result (λ v. v.items
        ≡ cell_numbers of.now (point_of of.now (basic_solution dict.now))) }
{
    let mut made = Vec::new(alloc);
    for cell in of.columns() {
        made.push(cell_value(of, dict, *cell))?;
    }
    Ok(made)
}

/// How the cells' numbers change where the variable of the column grows by 1.
fn changes_of_cells(
    alloc: Global,
    of: &Standard,
    dict: &Dict,
    col: u16,
) -> Result<Vec<Frac>, Memory>
    requires dictionary { IsDictionaryOf of.now dict.now }
    requires column { col < length dict.now.nonbasic }
    requires improves { zero_ℚ <ℚ at dict.now.objective (suc col) }
    ensures { IfOk result (λ v. v.items
        ≡ cell_numbers of.now (point_of of.now (change_along dict.now col))) }
{
    let mut made = Vec::new(alloc);
    for cell in of.columns() {
        made.push(change_of_cell(of, dict, col, *cell))?;
    }
    Ok(made)
}

/// The cells' numbers of the direction along the column that no row bounds.
pub fn direction(alloc: Global, of: &Standard, dict: &Dict, col: u16) -> Result<Vec<Frac>, Memory>
    requires reached { IsReached of.now dict.now }
    requires end { IsUnboundedEnd dict.now col }
    ensures { IfOk result (λ v. v.items
        ≡ cell_numbers of.now (point_of of.now (change_along dict.now col))) }
{
    let _regular = of.rows();
    changes_of_cells(alloc, of, dict, col)
}

/// The multipliers that the row gives so many slacks.
fn slack_multipliers(
    alloc: Global,
    dict: &Dict,
    row: &Row,
    columns: u16,
    rows: u16,
) -> Result<Vec<Frac>, Memory>
    requires width { length row.now ≡ length dict.now.nonbasic + 1 }
    requires columns { columns < 2 ^ 15 }
    requires rows { rows < 2 ^ 15 }
    ensures { IfOk result (λ v. v.items ≡ map (λ v. neg_ℚ (entry_of dict.now.nonbasic row.now v))
        (range_with_len (columns + 1) rows)) }
{
    let mut made = Vec::new(alloc);
    for i in 0..rows {
        made.push(multiplier(dict, row, columns + 1 + i))?;
    }
    Ok(made)
}

/// The multipliers of the program's rows that a row of the dictionary gives.
pub fn row_multipliers(
    alloc: Global,
    of: &Standard,
    dict: &Dict,
    row: &Row,
) -> Result<Vec<Frac>, Memory>
    requires { length row.now ≡ length dict.now.nonbasic + 1 }
    ensures { IfOk result (λ v. v.items ≡ multipliers of.now dict.now.nonbasic row.now) }
{
    let columns = of.objective().len() as u16;
    let rows = of.rows().len() as u16;
    let made = slack_multipliers(alloc, dict, row, columns, rows)?;
    Ok(made)
}
