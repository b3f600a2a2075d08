// How many numbers there are.
ghost use Rattle.std.specs.Prelude.{◌≡◌, ◌≤◌, ◌^◌, filter, length, pos};
ghost use Rattle.std.specs.List.{filter_map};
ghost use Rattle.fractions.specs.Whole.{whole_ℚ};
ghost use Rattle.form_areas.specs.Counted.{items_among, numbers_in};
ghost use Rattle.form_table.specs.Items.{form_in, is_number, items_in};
ghost use Rattle.frac128.specs.Narrow.{IsNarrowWhole};

use form_ops::{Operand, is_number, operand_of};
use form_values::{Abs, AbsArg};
use frac128::Frac;

/// How many numbers stand in the areas and among the single values.
pub(crate) fn count_numbers(args: &[AbsArg]) -> i128
    ensures value { result ≡ pos (numbers_in args.now) }
    ensures narrow { IsNarrowWhole result }
{
    let mut count = 0;
    for arg in args {
        count += count_among(arg.elements()) as i128;
    }
    count
}

/// How many numbers are among the items of all arguments.
#[tactic(auto, using(crate::proofs::Counts::items_more))]
pub(crate) fn count_items(args: &[AbsArg]) -> i128
    ensures value { result ≡ pos (items_among args.now) }
    ensures narrow { IsNarrowWhole result }
{
    let mut count = 0;
    for arg in args {
        count += items_in(arg) as i128;
    }
    count
}

// How many numbers are among the items of an argument.
fn items_in(arg: &AbsArg) -> usize
    ensures { result ≡ length (filter_map form_in (items_in arg.now)) }
{
    match arg {
        AbsArg::One(value) => match operand_of(value) {
            Operand::Known(_) | Operand::Open(_) => 1,
            Operand::Test | Operand::Fault(_) => 0,
        },
        AbsArg::Area(grid) => count_among(grid.items()),
    }
}

// How many numbers are among some elements.
fn count_among(items: &[Abs]) -> usize
    ensures { result ≡ length (filter is_number items.now) }
{
    let mut count = 0;
    for item in items {
        if is_number(item) {
            count += 1;
        }
    }
    count
}

/// The fraction that a whole number is.
pub(crate) fn whole(number: i128) -> Frac
    requires { IsNarrowWhole number }
    ensures { result ≡ whole_ℚ number }
{
    match Frac::new(number, 1) {
        Some(whole) => whole,
        None => unreachable!(),
    }
}
