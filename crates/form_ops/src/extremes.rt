// MIN and MAX.
ghost use Rattle.std.specs.Prelude.{◌≡◌, ◌∷◌, [], ◌&&◌, ◌==◌, IfOk, false, length};
ghost use Rattle.std.specs.List.{filter_map, list_all};
ghost use Rattle.std.specs.Option.{option_to_list};
ghost use Rattle.fractions.specs.Rational.{eq_ℚ};
ghost use Rattle.affine_forms.specs.Forms.{same_terms};
ghost use Rattle.form_ops.specs.Operands.{wanted_in};
ghost use Rattle.form_ops.specs.SeenNumbers.{best_with, is_better, of_taken, taken_all, taken_args, taken_one, untaken};
ghost use Rattle.form_table.specs.Items.{extreme_of, item_at, items_in, of_items};
ghost use Rattle.form_ops.specs.Truths.{IsTrueCall};
ghost use Rattle.form_table.specs.Table.{row_of};
ghost use Rattle.form_values.specs.Known.{all_known};
ghost use Rattle.form_values.specs.Trials.{Answers};
ghost use Rattle.formula_ast.specs.Functions.{Takes};
ghost use Rattle.form_ops.specs.declared.extremes.Best.TheVariants.{Found};
ghost use Rattle.formula_ast.specs.declared.func.Func.TheVariants as func;

use crate::number_tests::{are_equal, is_at_most};
use crate::operand::{Operand, operand_of};
use crate::results::fault;
use affine_forms::Form;
use cell_refs::ErrorKind;
use form_values::{Abs, AbsArg, OpRefusal};
use frac128::Frac;
use memory::Memory;
use sheet_model::Value;
use std::alloc::Global;

/// MIN: the least of the numbers of all arguments, where they differ by known numbers alone.
pub fn min(alloc: Global, args: &[AbsArg]) -> Result<AbsArg, OpRefusal>
    requires takes { Takes func.Min (length args.now) }
    requires open_argument { list_all all_known args.now ≡ false }
    ensures answer { Answers (row_of func.Min args.now) result }
    ensures right { IsTrueCall func.Min args.now result }
{
    extreme(alloc, Extremum::Least, args)
}

/// MAX: the greatest of the numbers of all arguments, where they differ by known numbers alone.
pub fn max(alloc: Global, args: &[AbsArg]) -> Result<AbsArg, OpRefusal>
    requires takes { Takes func.Max (length args.now) }
    requires open_argument { list_all all_known args.now ≡ false }
    ensures answer { Answers (row_of func.Max args.now) result }
    ensures right { IsTrueCall func.Max args.now result }
{
    extreme(alloc, Extremum::Greatest, args)
}

/// Which of some numbers is looked for.
#[derive(Clone, Copy)]
enum Extremum {
    Least,
    Greatest,
}

// The least or the greatest of the numbers of all arguments.
fn extreme(alloc: Global, extremum: Extremum, args: &[AbsArg]) -> Result<AbsArg, OpRefusal>
    ensures { Answers (of_items args.now (extreme_of (is_better extremum))) result }
{
    let taken = taken_args(alloc, extremum, args)?;
    of_taken(taken)
}

// The best of some forms: none yet, one, or none since two of them differ by more than a known number.
#[derive(Drop)]
enum Best {
    Nothing,
    Found(Form),
    Bent,
}

// What is among some numbers: the first error, the first argument with an open logical, and the best form.
#[derive(Drop)]
struct Taken {
    error: Option<ErrorKind>,
    test: Option<usize>,
    best: Best,
}

// What is made of them.
fn of_taken(taken: Taken) -> Result<AbsArg, OpRefusal>
    ensures { Answers (of_taken taken) result }
{
    let Taken { error, test, best } = taken;
    if let Some(kind) = error {
        return Ok(AbsArg::One(fault(kind)));
    }
    if let Some(argument) = test {
        return Err(OpRefusal::Undecided(argument));
    }
    match best {
        Best::Nothing => Ok(AbsArg::One(Abs::Known(Value::Number(Frac::zero())))),
        Best::Found(form) => Ok(AbsArg::One(Abs::entry(form))),
        Best::Bent => Err(OpRefusal::Break),
    }
}

// What is among the numbers of all arguments.
fn taken_args(alloc: Global, extremum: Extremum, args: &[AbsArg]) -> Result<Taken, Memory>
    ensures { IfOk result (λ taken. taken ≡ taken_args extremum 0 untaken args.now) }
{
    let mut taken = Taken {
        error: None,
        test: None,
        best: Best::Nothing,
    };
    for (index, arg) in args.iter().enumerate() {
        taken = taken_arg(alloc, extremum, taken, index, arg)?;
    }
    Ok(taken)
}

// What is among some numbers and those of an argument.
fn taken_arg(
    alloc: Global,
    extremum: Extremum,
    taken: Taken,
    argument: usize,
    arg: &AbsArg,
) -> Result<Taken, Memory>
    ensures { IfOk result (λ more. more ≡ taken_all extremum argument taken (items_in arg.now)) }
{
    match arg {
        AbsArg::One(value) => with_operand(alloc, extremum, taken, argument, &operand_of(value)),
        AbsArg::Area(grid) => taken_among(alloc, extremum, taken, argument, grid.items()),
    }
}

// What is among some numbers and those of some elements.
fn taken_among(
    alloc: Global,
    extremum: Extremum,
    before: Taken,
    argument: usize,
    items: &[Abs],
) -> Result<Taken, Memory>
    ensures { IfOk result (λ more. more
        ≡ taken_all extremum argument before (filter_map item_at items.now)) }
{
    let mut taken = before;
    for item in items {
        taken = with_element(alloc, extremum, taken, argument, item)?;
    }
    Ok(taken)
}

// What is among some numbers and an element, which may be none.
fn with_element(
    alloc: Global,
    extremum: Extremum,
    taken: Taken,
    argument: usize,
    item: &Abs,
) -> Result<Taken, Memory>
    ensures { IfOk result (λ more. more
        ≡ taken_all extremum argument taken (option_to_list (item_at item.now))) }
{
    match item {
        Abs::Known(Value::Number(_) | Value::Error(_)) | Abs::Affine(_) => {
            with_operand(alloc, extremum, taken, argument, &operand_of(item))
        }
        Abs::Known(Value::Text(_) | Value::Logical(_) | Value::Empty) | Abs::Test(_, _) => Ok(
            taken,
        ),
    }
}

// What is among some numbers and what stands where one more is wanted.
fn with_operand(
    alloc: Global,
    extremum: Extremum,
    taken: Taken,
    argument: usize,
    operand: &Operand,
) -> Result<Taken, Memory>
    ensures { IfOk result (λ more. more
        ≡ taken_one extremum argument taken (wanted_in operand.now)) }
{
    let Taken { error, test, best } = taken;
    match operand {
        Operand::Known(number) => {
            let best = best_with(extremum, best, &Form::constant(alloc, *number))?;
            Ok(Taken { error, test, best })
        }
        Operand::Open(form) => {
            let best = best_with(extremum, best, form)?;
            Ok(Taken { error, test, best })
        }
        Operand::Test => Ok(Taken {
            error,
            test: Some(test.unwrap_or(argument)),
            best,
        }),
        Operand::Fault(kind) => Ok(Taken {
            error: Some(error.unwrap_or(*kind)),
            test,
            best,
        }),
    }
}

// The best of some forms and one more.
fn best_with(extremum: Extremum, best: Best, form: &Form) -> Result<Best, Memory>
    ensures { IfOk result (λ more. more ≡ best_with extremum best form.now) }
{
    match best {
        Best::Nothing => Ok(Best::Found(form.copy()?)),
        Best::Found(found) => better(extremum, found, form),
        Best::Bent => Ok(Best::Bent),
    }
}

// The better of two forms, where they differ by a known number.
fn better(extremum: Extremum, found: Form, form: &Form) -> Result<Best, Memory>
    ensures { IfOk result (λ more. more ≡ best_with extremum (Found found) form.now) }
{
    if !same_terms(form.terms(), found.terms()) {
        return Ok(Best::Bent);
    }
    if is_better(extremum, form.base(), found.base()) {
        return Ok(Best::Found(form.copy()?));
    }
    Ok(Best::Found(found))
}

// Whether a number is at least as good as another.
fn is_better(extremum: Extremum, x: Frac, y: Frac) -> bool
    ensures { result ≡ is_better extremum x y }
{
    match extremum {
        Extremum::Least => is_at_most(x, y),
        Extremum::Greatest => is_at_most(y, x),
    }
}

// Whether two lists of terms are one.
fn same_terms(left: &[(u16, Frac)], right: &[(u16, Frac)]) -> bool
    ensures { result ≡ same_terms left.now right.now }
{
    if left.len() != right.len() {
        return false;
    }
    for (index, term) in left.iter().enumerate() {
        if !same_term(*term, right[index]) {
            return false;
        }
    }
    true
}

// Whether two terms are one.
fn same_term(t: (u16, Frac), u: (u16, Frac)) -> bool
    ensures { result ≡ ((t.0 == u.0) && eq_ℚ t.1 u.1) }
{
    t.0 == u.0 && are_equal(t.1, u.1)
}
