// What stands at the front.
ghost use Rattle.std.specs.Prelude.{◌≡◌, ◌≤◌, length, is_some};
ghost use Rattle.std.specs.Option.{option_map};
ghost use Rattle.formula_grammar.specs.Parts.{prefix_of, operator_of, level_of, is_percent, is_separator, is_close};
ghost use Rattle.formula_grammar.specs.Reading.{ends_arg, starts_close};
ghost use Rattle.formula_parser.specs.Given.{next_operator, next_where, prefix_count};

use cell_refs::Op;
use formula_grammar::{Sign, Symbol};

// The operator that a sign stands for.
fn operator_of(sign: Sign) -> Option<Op>
    ensures { result ≡ operator_of sign }
{
    match sign {
        Sign::Plus => Some(Op::Add),
        Sign::Minus => Some(Op::Sub),
        Sign::Times => Some(Op::Mul),
        Sign::Over => Some(Op::Div),
        Sign::Power => Some(Op::Pow),
        Sign::And => Some(Op::Cat),
        Sign::Equal => Some(Op::Eq),
        Sign::Differs => Some(Op::Ne),
        Sign::Below => Some(Op::Lt),
        Sign::AtMost => Some(Op::Le),
        Sign::Above => Some(Op::Gt),
        Sign::AtLeast => Some(Op::Ge),
        _ => None,
    }
}

/// How loosely an operator binds: 1 for powers up to 5 for comparisons.
pub fn level_of(op: Op) -> u8
    ensures { result ≡ level_of op }
{
    match op {
        Op::Pow => 1,
        Op::Mul => 2,
        Op::Div => 2,
        Op::Add => 3,
        Op::Sub => 3,
        Op::Cat => 4,
        _ => 5,
    }
}

/// The operator in front, and the symbols after it.
pub fn next_operator(symbols: &[Symbol]) -> Option<(Op, &[Symbol])>
    ensures { option_map (λ x. (x.0, x.1.now)) result ≡ next_operator symbols.now }
{
    match symbols {
        [] => None,
        [symbol, rest @ ..] => match operator_of(symbol.sign) {
            None => None,
            Some(op) => Some((op, rest)),
        },
    }
}

/// The percent sign in front, and the symbols after it.
pub fn next_percent(symbols: &[Symbol]) -> Option<(Symbol, &[Symbol])>
    ensures { option_map (λ x. (x.0, x.1.now)) result ≡ next_where is_percent symbols.now }
{
    match symbols {
        [] => None,
        [symbol, rest @ ..] => match symbol.sign {
            Sign::Percent => Some((*symbol, rest)),
            _ => None,
        },
    }
}

/// The separator of arguments in front, and the symbols after it.
pub fn next_separator(symbols: &[Symbol]) -> Option<(Symbol, &[Symbol])>
    ensures { option_map (λ x. (x.0, x.1.now)) result ≡ next_where is_separator symbols.now }
{
    match symbols {
        [] => None,
        [symbol, rest @ ..] => match symbol.sign {
            Sign::Semicolon | Sign::Comma => Some((*symbol, rest)),
            _ => None,
        },
    }
}

/// The closing parenthesis in front, and the symbols after it.
pub fn next_close(symbols: &[Symbol]) -> Option<(Symbol, &[Symbol])>
    ensures { option_map (λ x. (x.0, x.1.now)) result ≡ next_where is_close symbols.now }
{
    match symbols {
        [] => None,
        [symbol, rest @ ..] => match symbol.sign {
            Sign::Close => Some((*symbol, rest)),
            _ => None,
        },
    }
}

/// Whether no argument stands at the front.
pub fn ends_arg(symbols: &[Symbol]) -> bool
    ensures { result ≡ ends_arg symbols.now }
{
    match symbols {
        [] => true,
        [symbol, ..] => match symbol.sign {
            Sign::Semicolon | Sign::Comma | Sign::Close => true,
            _ => false,
        },
    }
}

/// Whether a closing parenthesis stands in front.
pub fn starts_close(symbols: &[Symbol]) -> bool
    ensures { result ≡ starts_close symbols.now }
{
    match symbols {
        [] => false,
        [symbol, ..] => match symbol.sign {
            Sign::Close => true,
            _ => false,
        },
    }
}

// Whether the sign may stand before a part.
fn is_prefix(sign: Sign) -> bool
    ensures { result ≡ is_some (prefix_of sign) }
{
    match sign {
        Sign::Plus => true,
        Sign::Minus => true,
        _ => false,
    }
}

/// How many prefix signs stand at the front.
pub fn prefix_count(symbols: &[Symbol]) -> usize
    ensures within { result ≤ length symbols.now }
    ensures count { result ≡ prefix_count symbols.now }
{
    let mut count = 0;
    while count < symbols.len() && is_prefix(symbols[count].sign) {
        count += 1;
    }
    count
}
