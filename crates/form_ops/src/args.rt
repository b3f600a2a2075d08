// What a function takes of its arguments.
ghost use Rattle.std.specs.Prelude.{◌≡◌, MatchResult};
ghost use Rattle.form_ops.specs.Operands.{wanted_in};
ghost use Rattle.form_table.specs.Wanted.{number_of, value_of};
ghost use Rattle.form_values.specs.declared.abs.Abs.TheVariants.{Known};
ghost use Rattle.sheet_model.specs.declared.value.Value.TheVariants.{Error};

use crate::operand::{Operand, operand_of};
use cell_refs::ErrorKind;
use form_values::{Abs, AbsArg};

/// The single value, or the one element of an area; the error stands for an area of another size.
pub fn value_of(arg: &AbsArg) -> Result<&Abs, ErrorKind>
    ensures { MatchResult result (λ value. value.now ≡ value_of arg.now)
        (λ kind. Known (Error kind) ≡ value_of arg.now) }
{
    match arg {
        AbsArg::One(value) => Ok(value),
        AbsArg::Area(grid) => match grid.items() {
            [value] => Ok(value),
            _ => Err(ErrorKind::Value),
        },
    }
}

/// What the one value is where a number is wanted.
pub fn operand_in(arg: &AbsArg) -> Operand<'_>
    ensures { wanted_in result ≡ number_of arg.now }
{
    match value_of(arg) {
        Ok(value) => operand_of(value),
        Err(kind) => Operand::Fault(kind),
    }
}
