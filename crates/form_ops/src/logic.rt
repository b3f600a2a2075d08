// AND, OR and NOT.
ghost use Rattle.std.specs.Prelude.{◌≡◌, ◌∷◌, IfOk, false, length, true};
ghost use Rattle.std.specs.List.{filter_map, list_all};
ghost use Rattle.std.specs.Option.{option_to_list};
ghost use Rattle.form_ops.specs.SeenLogicals.{concluded, nothing_seen, open_logical, opened_with, seen_all, seen_with};
ghost use Rattle.form_table.specs.Logic.{element_truth, junction, known, not_abs, not_form, of_logical, opened, truth_of, truths_in, truths_of};
ghost use Rattle.form_ops.specs.Truths.{IsTrueCall};
ghost use Rattle.form_table.specs.Table.{row_of};
ghost use Rattle.form_values.specs.Known.{all_known};
ghost use Rattle.form_values.specs.Trials.{Answers};
ghost use Rattle.formula_ast.specs.Functions.{Takes};
ghost use Rattle.formula_ast.specs.declared.func.Func.TheVariants as func;

use crate::args::value_of;
use crate::results::{as_one, fault, logical};
use cell_refs::ErrorKind;
use form_values::{Abs, AbsArg, OpRefusal, Rel};
use memory::Memory;
use sheet_model::{Value, to_logical};
use std::alloc::Global;

/// AND: without a known FALSE the one open logical, if all others are known; of several the first decides.
pub fn and_(alloc: Global, args: &[AbsArg]) -> Result<AbsArg, OpRefusal>
    requires takes { Takes func.And (length args.now) }
    requires open_argument { list_all all_known args.now ≡ false }
    ensures answer { Answers (row_of func.And args.now) result }
    ensures right { IsTrueCall func.And args.now result }
{
    junction(alloc, false, args)
}

/// OR: without a known TRUE the one open logical, if all others are known; of several the first decides.
pub fn or_(alloc: Global, args: &[AbsArg]) -> Result<AbsArg, OpRefusal>
    requires takes { Takes func.Or (length args.now) }
    requires open_argument { list_all all_known args.now ≡ false }
    ensures answer { Answers (row_of func.Or args.now) result }
    ensures right { IsTrueCall func.Or args.now result }
{
    junction(alloc, true, args)
}

/// NOT: a test with its relation reversed.
pub fn not_(args: &[AbsArg]) -> Result<AbsArg, OpRefusal>
    requires takes { Takes func.Not (length args.now) }
    requires open_argument { list_all all_known args.now ≡ false }
    ensures answer { Answers (row_of func.Not args.now) result }
    ensures right { IsTrueCall func.Not args.now result }
{
    let [arg] = args else {
        unreachable!();
    };
    negation(arg)
}

// The other logical than the one value of an argument.
fn negation(arg: &AbsArg) -> Result<AbsArg, OpRefusal>
    ensures { Answers (not_form arg.now) result }
{
    match value_of(arg) {
        Ok(value) => Ok(AbsArg::One(other_logical(value)?)),
        Err(kind) => Ok(AbsArg::One(fault(kind))),
    }
}

// The other logical.
fn other_logical(value: &Abs) -> Result<Abs, Memory>
    ensures { IfOk result (λ other. other ≡ not_abs value.now) }
{
    match value {
        Abs::Known(known) => match to_logical(known) {
            Ok(holds) => Ok(logical(!holds)),
            Err(kind) => Ok(fault(kind)),
        },
        Abs::Affine(open) => Ok(Abs::Test(open.copy()?, Rel::Eq)),
        Abs::Test(open, relation) => Ok(Abs::Test(open.copy()?, relation.complement())),
    }
}

// AND, which a FALSE decides, or OR, which a TRUE decides.
fn junction(alloc: Global, deciding: bool, args: &[AbsArg]) -> Result<AbsArg, OpRefusal>
    ensures { Answers (junction deciding args.now) result }
{
    let seen = seen_in_all(alloc, deciding, args)?;
    as_one(conclusion(deciding, seen))
}

// The open logicals among some.
#[derive(Drop)]
enum Opened {
    Nothing,
    /// One, with the argument that it stands in.
    One(usize, Abs),
    /// Several, with the argument of the first.
    Several(usize),
}

// What is among some logicals: the first error, whether there is a logical, whether a known one decides, and the open ones.
#[derive(Drop)]
struct Seen {
    error: Option<ErrorKind>,
    some: bool,
    decided: bool,
    opened: Opened,
}

// What is made of them.
fn conclusion(deciding: bool, seen: Seen) -> Result<Abs, OpRefusal>
    ensures { Answers (concluded deciding seen) result }
{
    let Seen {
        error,
        some,
        decided,
        opened,
    } = seen;
    if let Some(kind) = error {
        return Ok(fault(kind));
    }
    if !some {
        return Ok(fault(ErrorKind::Value));
    }
    if decided {
        return Ok(logical(deciding));
    }
    match opened {
        Opened::Nothing => Ok(logical(!deciding)),
        Opened::One(_, value) => Ok(value),
        Opened::Several(argument) => Err(OpRefusal::Undecided(argument)),
    }
}

// What is among the logicals of all arguments.
fn seen_in_all(alloc: Global, deciding: bool, args: &[AbsArg]) -> Result<Seen, Memory>
    ensures { IfOk result (λ seen. seen ≡ seen_all deciding nothing_seen (truths_of 0 args.now)) }
{
    let mut seen = Seen {
        error: None,
        some: false,
        decided: false,
        opened: Opened::Nothing,
    };
    for (index, arg) in args.iter().enumerate() {
        seen = seen_in(alloc, deciding, seen, index, arg)?;
    }
    Ok(seen)
}

// What is among some logicals and those of an argument.
fn seen_in(
    alloc: Global,
    deciding: bool,
    seen: Seen,
    argument: usize,
    arg: &AbsArg,
) -> Result<Seen, Memory>
    ensures { IfOk result (λ more. more ≡ seen_all deciding seen (truths_in argument arg.now)) }
{
    match arg {
        AbsArg::One(value) => with_value(alloc, deciding, seen, argument, value),
        AbsArg::Area(grid) => seen_among(alloc, deciding, seen, argument, grid.items()),
    }
}

// What is among some logicals and those of some elements.
fn seen_among(
    alloc: Global,
    deciding: bool,
    before: Seen,
    argument: usize,
    items: &[Abs],
) -> Result<Seen, Memory>
    ensures { IfOk result (λ more. more
        ≡ seen_all deciding before (filter_map (element_truth argument) items.now)) }
{
    let mut seen = before;
    for item in items {
        seen = with_element(alloc, deciding, seen, argument, item)?;
    }
    Ok(seen)
}

// What is among some logicals and an element, which may be none.
fn with_element(
    alloc: Global,
    deciding: bool,
    seen: Seen,
    argument: usize,
    item: &Abs,
) -> Result<Seen, Memory>
    ensures { IfOk result (λ more. more
        ≡ seen_all deciding seen (option_to_list (element_truth argument item.now))) }
{
    match item {
        Abs::Known(Value::Text(_) | Value::Empty) => Ok(seen),
        _ => with_value(alloc, deciding, seen, argument, item),
    }
}

// What is among some logicals and a value.
fn with_value(
    alloc: Global,
    deciding: bool,
    seen: Seen,
    argument: usize,
    value: &Abs,
) -> Result<Seen, Memory>
    ensures { IfOk result (λ more. more ≡ seen_with deciding seen (truth_of argument value.now)) }
{
    match value {
        Abs::Known(known) => Ok(with_known(deciding, seen, to_logical(known))),
        Abs::Affine(_) | Abs::Test(_, _) => with_open(alloc, seen, argument, value),
    }
}

// What is among some logicals and a known one, or the error in its place.
fn with_known(deciding: bool, seen: Seen, known: Result<bool, ErrorKind>) -> Seen
    ensures { result ≡ seen_with deciding seen (of_logical known) }
{
    match known {
        Ok(holds) => Seen {
            error: seen.error,
            some: true,
            decided: seen.decided || holds == deciding,
            opened: seen.opened,
        },
        Err(kind) => Seen {
            error: Some(seen.error.unwrap_or(kind)),
            some: seen.some,
            decided: seen.decided,
            opened: seen.opened,
        },
    }
}

// What is among some logicals and an open one.
fn with_open(alloc: Global, seen: Seen, argument: usize, value: &Abs) -> Result<Seen, Memory>
    ensures { IfOk result (λ more. more ≡ record {
      error = seen.error;
      some = true;
      decided = seen.decided;
      opened = opened_with seen.opened argument (open_logical value.now);
    }) }
{
    let Seen {
        error,
        decided,
        opened,
        ..
    } = seen;
    let opened = opened_with(alloc, opened, argument, value)?;
    Ok(Seen {
        error,
        some: true,
        decided,
        opened,
    })
}

// Some open logicals and one more.
fn opened_with(
    alloc: Global,
    opened: Opened,
    argument: usize,
    value: &Abs,
) -> Result<Opened, Memory>
    ensures { IfOk result (λ more. more ≡ opened_with opened argument (open_logical value.now)) }
{
    match opened {
        Opened::Nothing => Ok(Opened::One(argument, open_logical(alloc, value)?)),
        Opened::One(first, _) => Ok(Opened::Several(first)),
        Opened::Several(first) => Ok(Opened::Several(first)),
    }
}

// An open value as a logical: a form is TRUE where it isn't 0.
fn open_logical(alloc: Global, value: &Abs) -> Result<Abs, Memory>
    ensures { IfOk result (λ test. test ≡ open_logical value.now) }
{
    match value {
        Abs::Affine(open) => Ok(Abs::Test(open.copy()?, Rel::Ne)),
        Abs::Known(_) | Abs::Test(_, _) => value.copy(alloc),
    }
}
