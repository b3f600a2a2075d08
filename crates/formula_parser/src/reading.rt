// Reading symbols from left to right.
ghost use Rattle.std.specs.Prelude.{◌≡◌, ◌∷◌, ◌≤◌, IfOk, Some, [], if◌then◌else◌};
ghost use Rattle.formula_grammar.specs.Reading.{arg_at, args_at, call_at, close_at, level_at, parens_at, signed_at, starts_close, word_at};
ghost use Rattle.formula_parser.specs.Built.{built};
ghost use Rattle.formula_parser.specs.Given.{Gives, IsLooser, formulas, hundredths, primaries};
ghost use Rattle.formula_parser.specs.Placed.{AreBefore, AreSymbols, InOrder, IsInFront, IsInText};
ghost use Rattle.formula_parser.specs.Settings.{seen};

use crate::branch::{Branch, Part};
use crate::call::call_of_name;
use crate::leaf::leaf;
use crate::setting::Setting;
use crate::signs::{
    ends_arg, level_of, next_close, next_operator, next_percent, next_separator, prefix_count,
    starts_close,
};
use crate::stop::Stop;
use cell_refs::Span;
use formula_grammar::{Sign, Symbol};
use std::alloc::Global;

type Read<'a> = Result<(Part, &'a [Symbol]), Stop>;

// The closing parenthesis in front, and the symbols after it.
#[tactic(auto, unfolding(formula_grammar::specs::Reading::close_at))]
fn close(symbols: &[Symbol]) -> Result<(Symbol, &[Symbol]), Stop>
    ensures { Gives (λ x. (x.0, x.1.now)) result (close_at symbols.now) }
{
    match next_close(symbols) {
        Some((symbol, rest)) => Ok((symbol, rest)),
        None => Err(Stop::Syntax),
    }
}

/// A formula below at most so many brackets, and one more around the whole.
#[cycle(reading)]
#[tactic(auto, unfolding(formula_grammar::specs::Reading::formula_at))]
pub fn formula<'a>(alloc: Global, setting: &Setting, depth: u8, symbols: &'a [Symbol]) -> Read<'a>
    requires { AreSymbols setting.now.text.now symbols.now }
    ensures gives { Gives (λ x. (x.0, x.1.now)) result
        (formulas (seen setting.now) depth symbols.now) }
    ensures placed { IfOk result (λ x. IsInFront symbols.now x.0 x.1.now) }
    ensures rest { IfOk result (λ x. AreSymbols setting.now.text.now x.1.now) }
{
    if depth == 0 {
        return Err(Stop::Syntax);
    }
    level(alloc, setting, depth - 1, 5, symbols)
}

// Operands joined by the infix operators of a level, or of tighter ones. The lowest level has none.
//
// A looser operator ends the loop. Any other joins what was read with the part behind it, which is
// read at the levels below.
#[cycle(reading)]
fn level<'a>(alloc: Global, setting: &Setting, depth: u8, at: u8, symbols: &'a [Symbol]) -> Read<'a>
    requires { AreSymbols setting.now.text.now symbols.now }
    ensures gives { Gives (λ x. (x.0, x.1.now)) result
        (level_at (built (seen setting.now)) (hundredths (seen setting.now) depth) at symbols.now) }
    ensures looser { IfOk result (λ x. IsLooser at x.1.now) }
    ensures placed { IfOk result (λ x. IsInFront symbols.now x.0 x.1.now) }
    ensures rest { IfOk result (λ x. AreSymbols setting.now.text.now x.1.now) }
{
    let (mut left, mut rest) = percents(alloc, setting, depth, symbols)?;
    while let Some((op, after)) = next_operator(rest) {
        let binds = level_of(op);
        if at < binds {
            return Ok((left, rest));
        }
        let (right, others) = level(alloc, setting, depth, binds - 1, after)?;
        left = Part::infix(alloc, op, left, right)?;
        rest = others;
    }
    Ok((left, rest))
}

// A part, with the percent signs behind it.
#[cycle(reading)]
fn percents<'a>(alloc: Global, setting: &Setting, depth: u8, symbols: &'a [Symbol]) -> Read<'a>
    requires { AreSymbols setting.now.text.now symbols.now }
    ensures gives { Gives (λ x. (x.0, x.1.now)) result
        (hundredths (seen setting.now) depth symbols.now) }
    ensures placed { IfOk result (λ x. IsInFront symbols.now x.0 x.1.now) }
    ensures rest { IfOk result (λ x. AreSymbols setting.now.text.now x.1.now) }
{
    let (mut part, mut rest) = signs_and_primary(alloc, setting, depth, symbols)?;
    while let Some((sign, after)) = next_percent(rest) {
        part = part.in_hundredths(alloc, sign)?;
        rest = after;
    }
    Ok((part, rest))
}

// A part without operators, with the signs before it.
#[cycle(reading)]
fn signs_and_primary<'a>(
    alloc: Global,
    setting: &Setting,
    depth: u8,
    symbols: &'a [Symbol],
) -> Read<'a>
    requires { AreSymbols setting.now.text.now symbols.now }
    ensures gives { Gives (λ x. (x.0, x.1.now)) result
        (signed_at (built (seen setting.now)) (primaries (seen setting.now) depth) symbols.now) }
    ensures placed { IfOk result (λ x. IsInFront symbols.now x.0 x.1.now) }
    ensures rest { IfOk result (λ x. AreSymbols setting.now.text.now x.1.now) }
{
    let mut left = prefix_count(symbols);
    let (mut part, rest) = primary(alloc, setting, depth, &symbols[left..])?;
    while left > 0 {
        left -= 1;
        part = part.with_sign(alloc, symbols[left])?;
    }
    Ok((part, rest))
}

// A formula in parentheses, a call, or a part that has no formula within.
#[cycle(reading)]
#[tactic(auto, unfolding(formula_grammar::specs::Reading::primary_at))]
fn primary<'a>(alloc: Global, setting: &Setting, depth: u8, symbols: &'a [Symbol]) -> Read<'a>
    requires { AreSymbols setting.now.text.now symbols.now }
    ensures gives { Gives (λ x. (x.0, x.1.now)) result
        (primaries (seen setting.now) depth symbols.now) }
    ensures placed { IfOk result (λ x. IsInFront symbols.now x.0 x.1.now) }
    ensures rest { IfOk result (λ x. AreSymbols setting.now.text.now x.1.now) }
{
    match symbols {
        [] => Err(Stop::Syntax),
        [first, rest @ ..] => match first.sign {
            Sign::Word => call_or_leaf(alloc, setting, depth, symbols, *first, rest),
            Sign::Open => parens(alloc, setting, depth, *first, rest),
            _ => leaf(alloc, setting, symbols),
        },
    }
}

// A call, where a parenthesis follows the word, or else what begins with the word.
#[cycle(reading)]
#[tactic(auto, unfolding(formula_grammar::specs::Reading::word_at))]
fn call_or_leaf<'a>(
    alloc: Global,
    setting: &Setting,
    depth: u8,
    symbols: &'a [Symbol],
    word: Symbol,
    rest: &'a [Symbol],
) -> Read<'a>
    requires symbols { AreSymbols setting.now.text.now symbols.now }
    requires parts { symbols.now ≡ word ∷ rest.now }
    ensures gives { Gives (λ x. (x.0, x.1.now)) result
        (word_at (seen setting.now) (built (seen setting.now))
        (formulas (seen setting.now) depth) word rest.now) }
    ensures placed { IfOk result (λ x. IsInFront symbols.now x.0 x.1.now) }
    ensures rest { IfOk result (λ x. AreSymbols setting.now.text.now x.1.now) }
{
    match rest {
        [] => leaf(alloc, setting, symbols),
        [next, after @ ..] => match next.sign {
            Sign::Open => call(alloc, setting, depth, word, next.span.end, after),
            _ => leaf(alloc, setting, symbols),
        },
    }
}

// A formula behind an opening parenthesis, up to the closing one.
#[cycle(reading)]
#[tactic(auto, unfolding(formula_grammar::specs::Reading::parens_at))]
fn parens<'a>(
    alloc: Global,
    setting: &Setting,
    depth: u8,
    first: Symbol,
    symbols: &'a [Symbol],
) -> Read<'a>
    requires first { IsInText setting.now.text.now first }
    requires symbols { AreSymbols setting.now.text.now symbols.now }
    requires order { InOrder first.span.end symbols.now }
    ensures gives { Gives (λ x. (x.0, x.1.now)) result
        (parens_at (built (seen setting.now))
        (formulas (seen setting.now) depth) first symbols.now) }
    ensures placed { IfOk result (λ x. IsInFront (first ∷ symbols.now) x.0 x.1.now) }
    ensures rest { IfOk result (λ x. AreSymbols setting.now.text.now x.1.now) }
{
    let (part, rest) = formula(alloc, setting, depth, symbols)?;
    let (last, after) = close(rest)?;
    Ok((part.in_parentheses(first, last), after))
}

// A call, from behind its opening parenthesis, where the byte `before` is.
#[cycle(reading)]
#[tactic(auto, unfolding(formula_grammar::specs::Reading::call_at))]
fn call<'a>(
    alloc: Global,
    setting: &Setting,
    depth: u8,
    name: Symbol,
    before: u16,
    symbols: &'a [Symbol],
) -> Read<'a>
    requires name { IsInText setting.now.text.now name }
    requires symbols { AreSymbols setting.now.text.now symbols.now }
    requires before { name.span.end ≤ before }
    requires order { InOrder before symbols.now }
    ensures gives { Gives (λ x. (x.0, x.1.now)) result
        (call_at (built (seen setting.now))
        (formulas (seen setting.now) depth) name before symbols.now) }
    ensures placed { IfOk result (λ x. IsInFront (name ∷ symbols.now) x.0 x.1.now) }
    ensures rest { IfOk result (λ x. AreSymbols setting.now.text.now x.1.now) }
{
    let (args, rest) = args_if_any(alloc, setting, depth, before, symbols)?;
    let (last, after) = close(rest)?;
    let part = call_of_name(alloc, setting, name, args, last)?;
    Ok((part, after))
}

// The arguments up to a closing parenthesis, if there are some.
#[cycle(reading)]
fn args_if_any<'a>(
    alloc: Global,
    setting: &Setting,
    depth: u8,
    before: u16,
    symbols: &'a [Symbol],
) -> Result<(Vec<Branch>, &'a [Symbol]), Stop>
    requires symbols { AreSymbols setting.now.text.now symbols.now }
    requires order { InOrder before symbols.now }
    ensures gives { Gives (λ x. (x.0.items, x.1.now)) result
        (if starts_close symbols.now then Some ([], symbols.now) else args_at
        (built (seen setting.now)) (formulas (seen setting.now) depth) before symbols.now) }
    ensures placed { IfOk result (λ x. AreBefore before x.0.items x.1.now) }
    ensures rest { IfOk result (λ x. AreSymbols setting.now.text.now x.1.now) }
{
    if starts_close(symbols) {
        return Ok((Vec::new(alloc), symbols));
    }
    args(alloc, setting, depth, before, symbols)
}

// One argument or more, with separators between them.
#[cycle(reading)]
fn args<'a>(
    alloc: Global,
    setting: &Setting,
    depth: u8,
    before: u16,
    symbols: &'a [Symbol],
) -> Result<(Vec<Branch>, &'a [Symbol]), Stop>
    requires symbols { AreSymbols setting.now.text.now symbols.now }
    requires order { InOrder before symbols.now }
    ensures gives { Gives (λ x. (x.0.items, x.1.now)) result
        (args_at (built (seen setting.now))
        (formulas (seen setting.now) depth) before symbols.now) }
    ensures placed { IfOk result (λ x. AreBefore before x.0.items x.1.now) }
    ensures rest { IfOk result (λ x. AreSymbols setting.now.text.now x.1.now) }
{
    let (first, mut rest) = arg(alloc, setting, depth, before, symbols)?;
    let mut args = Vec::new(alloc);
    args.push(first)?;
    while let Some((separator, after)) = next_separator(rest) {
        let (next, others) = arg(alloc, setting, depth, separator.span.end, after)?;
        args.push(next)?;
        rest = others;
    }
    Ok((args, rest))
}

// An argument. It may be left out: then it stands at the byte `before`.
#[cycle(reading)]
#[tactic(auto, unfolding(formula_grammar::specs::Reading::arg_at))]
fn arg<'a>(
    alloc: Global,
    setting: &Setting,
    depth: u8,
    before: u16,
    symbols: &'a [Symbol],
) -> Result<(Branch, &'a [Symbol]), Stop>
    requires symbols { AreSymbols setting.now.text.now symbols.now }
    requires order { InOrder before symbols.now }
    ensures gives { Gives (λ x. (x.0, x.1.now)) result
        (arg_at (built (seen setting.now)) (formulas (seen setting.now) depth) before symbols.now) }
    ensures placed { IfOk result (λ x. AreBefore before (x.0 ∷ []) x.1.now) }
    ensures rest { IfOk result (λ x. AreSymbols setting.now.text.now x.1.now) }
{
    if ends_arg(symbols) {
        let place = Span {
            start: before,
            end: before,
        };
        return Ok((Branch::missing(place), symbols));
    }
    let (part, rest) = formula(alloc, setting, depth, symbols)?;
    Ok((part.branch, rest))
}
