// The tree of a formula's text.
ghost use Rattle.std.specs.Prelude.{◌≡◌, ◌+◌, ◌<◌, ◌≤◌, IfOk, IfSome, length, option_map};
ghost use Rattle.cell_refs.specs.declared.limits.TheConstants.{TEXT_BYTES};
ghost use Rattle.formula_ast.specs.Sound.{IsSound};
ghost use Rattle.formula_parser.specs.Answers.{Answers, Settles, SymbolAnswers, behind_equals, behind_mark, is_of};
ghost use Rattle.formula_parser.specs.Placed.{AreSymbols, IsInText};
ghost use Rattle.formula_parser.specs.Settings.{seen};
ghost use Rattle.formula_parser.specs.TextTrees.{IsTreeIn};

use crate::branch::Branch;
use crate::fault::ParseFault;
use crate::reading::formula;
use crate::setting::Setting;
use crate::stop::Stop;
use crate::symbols::{BRACKETS, is_too_deep, symbols_of};
use cell_refs::{SheetId, SheetNames};
use formula_ast::Expr;
use formula_grammar::{Sign, Symbol, no_text_spells_two_trees};
use formula_lexer::{LexFault, one_list, tokens};
use std::alloc::Global;

// What becomes of a branch in the end.
fn settle(branch: Branch) -> Result<Expr, ParseFault>
    ensures settles { Settles branch result }
    ensures sound { IfOk result IsSound }
{
    if branch.height > 512 {
        return Err(ParseFault::TooDeep);
    }
    if branch.faults.lost {
        return Err(ParseFault::UnknownSheet);
    }
    if branch.faults.miscounted {
        return Err(ParseFault::ArgumentCount);
    }
    match branch.expr {
        Some(expr) => {
            expr.soundness();
            Ok(expr)
        }
        None => Err(ParseFault::WideNumeral),
    }
}

// The symbols behind one equals sign, or two.
fn behind_equals<'a>(setting: &Setting, symbols: &'a [Symbol]) -> Option<&'a [Symbol]>
    requires { AreSymbols setting.now.text.now symbols.now }
    ensures behind { option_map (λ ss. ss.now) result ≡ behind_equals symbols.now }
    ensures rest { IfSome result (λ ss. AreSymbols setting.now.text.now ss.now) }
{
    match symbols {
        [
            Symbol {
                sign: Sign::Equal,
                ..
            },
            Symbol {
                sign: Sign::Equal,
                ..
            },
            rest @ ..,
        ] => Some(rest),
        [
            Symbol {
                sign: Sign::Equal,
                ..
            },
            rest @ ..,
        ] => Some(rest),
        _ => None,
    }
}

// The symbols behind the mark of a formula.
fn behind_mark<'a>(setting: &Setting, symbols: &'a [Symbol]) -> Option<&'a [Symbol]>
    requires { AreSymbols setting.now.text.now symbols.now }
    ensures behind { option_map (λ ss. ss.now) result ≡ behind_mark (seen setting.now) symbols.now }
    ensures rest { IfSome result (λ ss. AreSymbols setting.now.text.now ss.now) }
{
    match symbols {
        [word, colon, rest @ ..] if is_of(setting, *word, *colon) => behind_equals(setting, rest),
        _ => behind_equals(setting, symbols),
    }
}

// Whether the symbols are the word `of` and a colon, with no blank between.
fn is_of(setting: &Setting, word: Symbol, colon: Symbol) -> bool
    requires { IsInText setting.now.text.now word }
    ensures { result ≡ is_of (seen setting.now) word colon }
{
    word.sign == Sign::Word
        && colon.sign == Sign::Colon
        && colon.span.start == word.span.end
        && setting.slice(word) == "of"
}

// The tree of the symbols of a text.
fn tree(alloc: Global, setting: &Setting, symbols: &[Symbol]) -> Result<Expr, ParseFault>
    requires { AreSymbols setting.now.text.now symbols.now }
    ensures answer { SymbolAnswers (seen setting.now) symbols.now result }
    ensures sound { IfOk result IsSound }
{
    if is_too_deep(symbols) {
        return Err(ParseFault::TooDeep);
    }
    let Some(behind) = behind_mark(setting, symbols) else {
        return Err(ParseFault::Syntax);
    };
    match formula(alloc, setting, BRACKETS + 1, behind) {
        Ok((part, [])) => settle(part.branch),
        Ok(_) => Err(ParseFault::Syntax),
        Err(Stop::Syntax) => Err(ParseFault::Syntax),
        Err(Stop::Memory) => Err(ParseFault::Memory),
    }
}

/// The tree of a formula's text on the sheet `home` (OpenDocument 1.2 part 2, section 5, with separators and references also
/// as spreadsheets show them). The spans of the tree are bytes of the text.
pub fn parse(
    alloc: Global,
    text: &str,
    home: SheetId,
    sheets: &SheetNames,
) -> Result<Expr, ParseFault>
    requires length { length text.now ≤ TEXT_BYTES + 1 }
    requires listed { home.0 < length sheets.now }
    ensures answer { Answers
        (record { text = text.now; home = home.0; sheets = sheets.now }) result }
    ensures tree { IsTreeIn
        (record { text = text.now; home = home.0; sheets = sheets.now }) result }
    ensures sound { IfOk result IsSound }
{
    one_list();
    no_text_spells_two_trees();
    let cut = match tokens(alloc, text) {
        Ok(cut) => cut,
        Err(LexFault::At(_)) => return Err(ParseFault::Syntax),
        Err(LexFault::Memory) => return Err(ParseFault::Memory),
    };
    let Ok(symbols) = symbols_of(alloc, text.as_bytes(), &cut) else {
        return Err(ParseFault::Memory);
    };
    let setting = Setting { text, home, sheets };
    tree(alloc, &setting, &symbols)
}
