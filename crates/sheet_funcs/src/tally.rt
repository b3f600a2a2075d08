// What numbers come to, one after the other, without a list of them.
ghost use Rattle.std.specs.Prelude.{◌≡◌, Some};
ghost use Rattle.std.specs.Option.{option_to_list};
ghost use Rattle.sheet_funcs.specs.Arguments.{all_or_error};
ghost use Rattle.sheet_funcs.specs.Items.{items_in, number_at, numbers_among, numbers_of};
ghost use Rattle.sheet_funcs.specs.Sums.{greater, lesser};
ghost use Rattle.sheet_funcs.specs.Tallies.{tally_or_error, with_number};
ghost use Rattle.sheet_funcs.specs.declared.tally.Tally.TheVariants.{Total};

use crate::steps::add;
use cell_refs::ErrorKind;
use frac128::Frac;
use sheet_model::{Arg, Value, to_number};

/// What is made of some numbers.
#[derive(Clone, Copy)]
pub(crate) enum Tally {
    /// Their sum; there is none once it isn't narrow.
    Total,
    /// The least of them, if there are some.
    Least,
    /// The greatest of them, if there are some.
    Greatest,
}

impl Tally {
    /// What the numbers of some arguments come to beside what came before, or the first error among them.
    pub(crate) fn of_args(
        self,
        before: Option<Frac>,
        args: &[Arg],
    ) -> Result<Option<Frac>, ErrorKind>
        ensures { result ≡ tally_or_error self before (numbers_of args.now) }
    {
        let mut so_far = before;
        for arg in args {
            so_far = self.of_arg(so_far, arg)?;
        }
        Ok(so_far)
    }

    // What an argument's numbers come to, or its first error.
    fn of_arg(self, before: Option<Frac>, arg: &Arg) -> Result<Option<Frac>, ErrorKind>
        ensures { result ≡ tally_or_error self before (all_or_error (items_in arg.now)) }
    {
        match arg {
            Arg::One(value) => match to_number(value) {
                Ok(number) => Ok(self.with(before, number)),
                Err(kind) => Err(kind),
            },
            Arg::Area(grid) => self.of_items(before, grid.items()),
        }
    }

    // What the numbers among some elements come to, or the first error among them.
    fn of_items(self, before: Option<Frac>, items: &[Value]) -> Result<Option<Frac>, ErrorKind>
        ensures { result ≡ tally_or_error self before (numbers_among items.now) }
    {
        let mut so_far = before;
        for item in items {
            so_far = self.of_item(so_far, item)?;
        }
        Ok(so_far)
    }

    /// What comes of an element, which counts if it is a number, or the error that it is.
    pub(crate) fn of_item(
        self,
        before: Option<Frac>,
        item: &Value,
    ) -> Result<Option<Frac>, ErrorKind>
        ensures { result
            ≡ tally_or_error self before (all_or_error (option_to_list (number_at item.now))) }
    {
        match item {
            Value::Number(number) => Ok(self.with(before, *number)),
            Value::Error(kind) => Err(*kind),
            Value::Text(_) | Value::Logical(_) | Value::Empty => Ok(before),
        }
    }

    // What it comes to with one number more.
    fn with(self, so_far: Option<Frac>, number: Frac) -> Option<Frac>
        ensures { result ≡ with_number self so_far number }
    {
        match (self, so_far) {
            (Tally::Total, Some(total)) => total_with(total, number),
            (Tally::Total, None) => None,
            (Tally::Least, Some(least)) => Some(lesser(least, number)),
            (Tally::Greatest, Some(greatest)) => Some(greater(greatest, number)),
            (Tally::Least | Tally::Greatest, None) => Some(number),
        }
    }
}

// The sum with one number more, if it is narrow.
fn total_with(total: Frac, number: Frac) -> Option<Frac>
    ensures { result ≡ with_number Total (Some total) number }
{
    match add(total, number) {
        Ok(sum) => Some(sum),
        Err(_) => None,
    }
}

// The lesser of two numbers.
fn lesser(x: Frac, y: Frac) -> Frac
    ensures { result ≡ lesser x y }
{
    if y.is_below(x) { y } else { x }
}

// The greater of two numbers.
fn greater(x: Frac, y: Frac) -> Frac
    ensures { result ≡ greater x y }
{
    if y.is_below(x) { x } else { y }
}
