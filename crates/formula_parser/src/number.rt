// Numbers, and numbers behind a sign.
ghost use Rattle.std.specs.Prelude.{◌≡◌, ◌≤◌, IfOk, if◌then◌else◌, option_map};
ghost use Rattle.fractions.specs.Rational.{neg_ℚ};
ghost use Rattle.frac128.specs.NumeralReading.{reading};
ghost use Rattle.formula_grammar.specs.LeafReading.{signed_number_at};
ghost use Rattle.formula_grammar.specs.Symbols.{bytes_of};
ghost use Rattle.formula_parser.specs.Given.{Gives};
ghost use Rattle.formula_parser.specs.Leaves.{is_negative, item_found, item_of, signed_number};
ghost use Rattle.formula_parser.specs.Placed.{AreSymbols, InOrder, IsInText};
ghost use Rattle.formula_parser.specs.Settings.{seen};

use crate::branch::from_to;
use crate::setting::Setting;
use crate::stop::Stop;
use cell_refs::Span;
use formula_ast::{Expr, Node};
use formula_grammar::{Sign, Symbol};
use frac128::{Frac, NumeralFault};

// The number with its sign turned, where a minus stands before it.
fn with_sign(number: Frac, is_negative: bool) -> Frac
    ensures { result ≡ (if is_negative then neg_ℚ number else number) }
{
    if is_negative { number.neg() } else { number }
}

/// The tree of a number; none where it is too wide.
pub fn number(
    setting: &Setting,
    symbol: Symbol,
    at: Span,
    is_negative: bool,
) -> Result<Option<Expr>, Stop>
    requires symbol { IsInText setting.now.text.now symbol }
    requires forward { at.start ≤ at.end }
    ensures { Gives (λ x. x) result (option_map (λ n. item_of (signed_number is_negative at n))
        (reading (bytes_of (seen setting.now) symbol))) }
{
    match Frac::read(setting.slice(symbol)) {
        Ok(number) => {
            let number = with_sign(number, is_negative);
            Ok(Some(Expr {
                span: at,
                node: Node::Number(number),
            }))
        }
        Err(NumeralFault::TooWide) => Ok(None),
        Err(NumeralFault::NotNumeral) => Err(Stop::Syntax),
    }
}

// Whether the number behind the sign is turned.
fn is_negative(sign: Sign) -> bool
    ensures { result ≡ is_negative sign }
{
    match sign {
        Sign::Plus => false,
        _ => true,
    }
}

/// A number behind its sign.
#[tactic(auto, unfolding(formula_grammar::specs::LeafReading::signed_number_at, formula_grammar::specs::LeafReading::one_at))]
pub fn signed_number<'a>(
    setting: &Setting,
    sign: Symbol,
    symbols: &'a [Symbol],
) -> Result<(Option<Expr>, &'a [Symbol]), Stop>
    requires sign { IsInText setting.now.text.now sign }
    requires symbols { AreSymbols setting.now.text.now symbols.now }
    requires order { InOrder sign.span.end symbols.now }
    ensures gives { Gives (λ x. (x.0, x.1.now)) result
        (item_found (signed_number_at (seen setting.now) sign symbols.now)) }
    ensures rest { IfOk result (λ x. AreSymbols setting.now.text.now x.1.now) }
{
    match symbols {
        [] => Err(Stop::Syntax),
        [symbol, rest @ ..] => match symbol.sign {
            Sign::Number => {
                let at = from_to(sign.span, symbol.span);
                let expr = number(setting, *symbol, at, is_negative(sign.sign))?;
                Ok((expr, rest))
            }
            _ => Err(Stop::Syntax),
        },
    }
}
