// What is kept of each row of each dictionary of a run.
ghost use Rattle.dictionaries.specs.Run.{IsReached};

use crate::plain_rows::{first_rows, has_entries, pivoted};
use crate::transport::program_of_four;
use frac128::Frac;
use linear_programs::Standard;
use simplex::{Next, choose_next, make_pivot};
use std::alloc::Global;
use std::test::Fail;
use tableau::{Dict, start};

fn check_kept(dict: &Dict, plain: &[Vec<Frac>]) -> Result<(), Fail> {
    if plain.len() != dict.height() as usize {
        return Err(Fail::new(format_args!("there are not as many rows")));
    }
    for row in 0..dict.height() {
        if !has_entries(&plain[row as usize], dict.kept(row)) {
            return Err(Fail::new(format_args!("row {row} is another one")));
        }
    }
    Ok(())
}

// Makes the next pivot both ways, unless the run has ended, and answers whether it was made.
fn step(
    alloc: Global,
    program: &Standard,
    dict: &mut Dict,
    plain: &mut Vec<Vec<Frac>>,
) -> Result<bool, Fail>
    requires { IsReached program.now dict.old }
    ensures { IsReached program.now dict.new }
{
    let Next::Pivot(row, col) = choose_next(program, dict) else {
        return Ok(false);
    };
    make_pivot(program, dict, row, col)?;
    *plain = pivoted(alloc, plain, row as usize, col as usize + 1)?;
    Ok(true)
}

// How many pivots the run has, of at most 100.
fn pivots(
    alloc: Global,
    program: &Standard,
    dict: &mut Dict,
    plain: &mut Vec<Vec<Frac>>,
) -> Result<u16, Fail>
    requires { IsReached program.now dict.old }
{
    for made in 0..100 {
        check_kept(dict, plain)?;
        if !step(alloc, program, dict, plain)? {
            return Ok(made);
        }
    }
    Err(Fail::new(format_args!("the run doesn't end")))
}

#[test]
fn kept_is_what_plain_rows_have(rt: HostRuntime) -> Result<(), Fail> {
    let alloc = rt.alloc();
    let program = program_of_four(alloc)?;
    let mut dict = start(alloc, &program)?;
    let mut plain = first_rows(alloc, &program)?;
    let made = pivots(alloc, &program, &mut dict, &mut plain)?;
    if made != 18 {
        return Err(Fail::new(format_args!("{made} pivots")));
    }
    Ok(())
}
