// Logicals.
ghost use Rattle.std.specs.Prelude.{◌≡◌, IfOk, IsOk, length};
ghost use Rattle.std.specs.List.{filter_map};
ghost use Rattle.std.specs.Option.{option_to_list};
ghost use Rattle.calculations.specs.Calculation.{exact};
ghost use Rattle.formula_ast.specs.Functions.{Takes};
ghost use Rattle.formula_ast.specs.declared.func.Func.TheVariants as func;
ghost use Rattle.sheet_funcs.specs.Arguments.{all_or_error, of_one};
ghost use Rattle.sheet_funcs.specs.Items.{logical_at, logicals_in, logicals_of};
ghost use Rattle.sheet_funcs.specs.Logic.{and_of, false_of, not_of, or_of, true_of};
ghost use Rattle.sheet_funcs.specs.SeenLogicals.{seen_or_error};
ghost use Rattle.sheet_model.specs.Answers.{Answers};

use crate::answers::{fault, logical};
use crate::items::logical_of;
use cell_refs::ErrorKind;
use sheet_model::{Arg, FuncStop, Value, to_logical};

/// AND: whether all logicals of all arguments are true.
pub fn and_(args: &[Arg]) -> Result<Arg, FuncStop>
    requires { Takes func.And (length args.now) }
    ensures exact { IfOk result (λ answer. answer ≡ exact (and_of args.now)) }
    ensures narrow { Answers (and_of args.now) result }
    ensures answer { IsOk result }
{
    match seen_in_all(args) {
        Ok(seen) if seen.is_some() => Ok(logical(!seen.some_false)),
        Ok(_) => Ok(fault(ErrorKind::Value)),
        Err(kind) => Ok(fault(kind)),
    }
}

/// OR: whether a logical of some argument is true.
pub fn or_(args: &[Arg]) -> Result<Arg, FuncStop>
    requires { Takes func.Or (length args.now) }
    ensures exact { IfOk result (λ answer. answer ≡ exact (or_of args.now)) }
    ensures narrow { Answers (or_of args.now) result }
    ensures answer { IsOk result }
{
    match seen_in_all(args) {
        Ok(seen) if seen.is_some() => Ok(logical(seen.some_true)),
        Ok(_) => Ok(fault(ErrorKind::Value)),
        Err(kind) => Ok(fault(kind)),
    }
}

/// NOT: the other logical.
pub fn not_(args: &[Arg]) -> Result<Arg, FuncStop>
    requires { Takes func.Not (length args.now) }
    ensures exact { IfOk result (λ answer. answer ≡ exact (of_one not_of args.now)) }
    ensures narrow { Answers (of_one not_of args.now) result }
    ensures answer { IsOk result }
{
    let [arg] = args else {
        unreachable!();
    };
    match logical_of(arg) {
        Ok(holds) => Ok(logical(!holds)),
        Err(kind) => Ok(fault(kind)),
    }
}

/// TRUE: the logical.
pub fn true_(args: &[Arg]) -> Result<Arg, FuncStop>
    requires { Takes func.True (length args.now) }
    ensures exact { IfOk result (λ answer. answer ≡ exact true_of) }
    ensures narrow { Answers true_of result }
    ensures answer { IsOk result }
{
    let _no_arguments = args;
    Ok(logical(true))
}

/// FALSE: the logical.
pub fn false_(args: &[Arg]) -> Result<Arg, FuncStop>
    requires { Takes func.False (length args.now) }
    ensures exact { IfOk result (λ answer. answer ≡ exact false_of) }
    ensures narrow { Answers false_of result }
    ensures answer { IsOk result }
{
    let _no_arguments = args;
    Ok(logical(false))
}

// Which logicals are among some.
#[derive(Clone, Copy)]
struct Seen {
    some_true: bool,
    some_false: bool,
}

impl Seen {
    ghost use Rattle.std.specs.Prelude.{[], ◌∷◌, ◌≡◌, not, ◌||◌};
    ghost use Rattle.sheet_funcs.specs.SeenLogicals.{joined, seen_of};

    // Before any is seen.
    fn nothing() -> Seen
        ensures { result ≡ seen_of [] }
    {
        Seen {
            some_true: false,
            some_false: false,
        }
    }

    // One logical.
    fn one(holds: bool) -> Seen
        ensures { result ≡ seen_of (holds ∷ []) }
    {
        Seen {
            some_true: holds,
            some_false: !holds,
        }
    }

    // What is among two lists together.
    fn join(self, other: Seen) -> Seen
        ensures { result ≡ joined self other }
    {
        Seen {
            some_true: self.some_true || other.some_true,
            some_false: self.some_false || other.some_false,
        }
    }

    // Whether any was seen.
    fn is_some(self) -> bool
        ensures { result ≡ (self.some_true || self.some_false) }
    {
        self.some_true || self.some_false
    }
}

// The logicals of all arguments, or the first error.
fn seen_in_all(args: &[Arg]) -> Result<Seen, ErrorKind>
    ensures { result ≡ seen_or_error (logicals_of args.now) }
{
    let mut seen = Seen::nothing();
    for arg in args {
        seen = seen.join(seen_in(arg)?);
    }
    Ok(seen)
}

// The logicals of an argument, or its first error.
fn seen_in(arg: &Arg) -> Result<Seen, ErrorKind>
    ensures { result ≡ seen_or_error (all_or_error (logicals_in arg.now)) }
{
    match arg {
        Arg::One(value) => match to_logical(value) {
            Ok(holds) => Ok(Seen::one(holds)),
            Err(kind) => Err(kind),
        },
        Arg::Area(grid) => seen_among(grid.items()),
    }
}

// The logicals among some elements, or the first error.
fn seen_among(items: &[Value]) -> Result<Seen, ErrorKind>
    ensures { result ≡ seen_or_error (all_or_error (filter_map logical_at items.now)) }
{
    let mut seen = Seen::nothing();
    for item in items {
        seen = seen.join(seen_at(item)?);
    }
    Ok(seen)
}

// The logical that an element is, or the error.
fn seen_at(item: &Value) -> Result<Seen, ErrorKind>
    ensures { result ≡ seen_or_error (all_or_error (option_to_list (logical_at item.now))) }
{
    match item {
        Value::Number(number) => Ok(Seen::one(!number.is_zero())),
        Value::Logical(holds) => Ok(Seen::one(*holds)),
        Value::Error(kind) => Err(*kind),
        Value::Text(_) | Value::Empty => Ok(Seen::nothing()),
    }
}
