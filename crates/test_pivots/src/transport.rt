// The program of the workbook that is made up for four suppliers and four places: the costs of what is sent are to be least.
ghost use Rattle.std.specs.Prelude.{◌≡◌, length, IfOk};

use frac128::Frac;
use linear_programs::{Inequality, Standard, are_regular};
use memory::Memory;
use std::alloc::Global;
use std::test::Fail;

const COSTS: &[i64] = &[19, 19, 14, 16, 12, 8, 11, 20, 13, 7, 10, 8, 5, 1, 6, 4];

const DEMANDS: &[i64] = &[19, 13, 17, 16];

fn objective(alloc: Global) -> Result<Vec<Frac>, Memory> {
    let mut made = Vec::new(alloc);
    for cost in COSTS {
        made.push(Frac::from_whole(*cost).neg())?;
    }
    Ok(made)
}

// No supplier sends more than 20.
fn supply(alloc: Global, supplier: usize) -> Result<Inequality, Memory> {
    let mut made = Vec::new(alloc);
    for way in 0..16 {
        made.push(Frac::from_whole(if way / 4 == supplier { 1 } else { 0 }))?;
    }
    Ok(Inequality::new(made, Frac::from_whole(20)))
}

// A place gets no less than it wants.
fn demand(alloc: Global, place: usize, wanted: i64) -> Result<Inequality, Memory> {
    let mut made = Vec::new(alloc);
    for way in 0..16 {
        made.push(Frac::from_whole(if way % 4 == place { -1 } else { 0 }))?;
    }
    Ok(Inequality::new(made, Frac::from_whole(wanted).neg()))
}

fn rows(alloc: Global) -> Result<Vec<Inequality>, Memory> {
    let mut made = Vec::new(alloc);
    for supplier in 0..4 {
        made.push(supply(alloc, supplier)?)?;
    }
    for place in 0..DEMANDS.len() {
        made.push(demand(alloc, place, DEMANDS[place])?)?;
    }
    Ok(made)
}

/// The program of 16 columns and 8 rows.
pub(crate) fn program_of_four(alloc: Global) -> Result<Standard, Fail> {
    let objective = objective(alloc)?;
    let rows = rows(alloc)?;
    if !are_regular(&rows, objective.len()) || objective.len() != 16 || rows.len() != 8 {
        return Err(Fail::new(format_args!("the program is of another form")));
    }
    Ok(Standard::of_single_columns(alloc, objective, Frac::zero(), rows)?)
}
