// The symbols of a text.
ghost use Rattle.std.specs.Prelude.{◌≡◌, ◌↔◌, ◌<◌, ◌≤◌, IfOk, IsTrue, slice_index};
ghost use Rattle.formula_grammar.specs.Depth.{most_open, opened};
ghost use Rattle.formula_grammar.specs.Symbols.{second_at, sign_of_mark, symbol_of, symbols_of};

use formula_grammar::{Sign, Symbol};
use formula_lexer::{Token, TokenKind};
use std::alloc::{AllocError, Global};

/// How many brackets may be open.
pub const BRACKETS: u8 = 64;

fn sign_of_mark(b: u8, c: u8) -> Sign
    ensures { result ≡ sign_of_mark b c }
{
    match (b, c) {
        (b'+', _) => Sign::Plus,
        (b'-', _) => Sign::Minus,
        (b'*', _) => Sign::Times,
        (b'/', _) => Sign::Over,
        (b'^', _) => Sign::Power,
        (b'%', _) => Sign::Percent,
        (b'&', _) => Sign::And,
        (b'=', _) => Sign::Equal,
        (b'<', b'=') => Sign::AtMost,
        (b'<', b'>') => Sign::Differs,
        (b'<', _) => Sign::Below,
        (b'>', b'=') => Sign::AtLeast,
        (b'>', _) => Sign::Above,
        (b'(', _) => Sign::Open,
        (b')', _) => Sign::Close,
        (b'[', _) => Sign::OpenSquare,
        (b']', _) => Sign::CloseSquare,
        (b'{', _) => Sign::OpenBrace,
        (b'}', _) => Sign::CloseBrace,
        (b';', _) => Sign::Semicolon,
        (b',', _) => Sign::Comma,
        (b':', _) => Sign::Colon,
        (b'.', _) => Sign::Point,
        (b'!', _) => Sign::Exclamation,
        (b'~', _) => Sign::Tilde,
        _ => Sign::Bar,
    }
}

fn byte_at(text: &[u8], at: usize) -> u8
    ensures { result ≡ slice_index text.now at }
{
    if at < text.len() { text[at] } else { 0 }
}

fn second_at(text: &[u8], token: Token) -> u8
    ensures { result ≡ second_at text.now token }
{
    let at = token.span.start as usize + 1;
    if at < token.span.end as usize {
        byte_at(text, at)
    } else {
        0
    }
}

fn symbol_of(text: &[u8], token: Token) -> Symbol
    ensures { result ≡ symbol_of text.now token }
{
    let sign = match token.kind {
        TokenKind::Number => Sign::Number,
        TokenKind::Text => Sign::Text,
        TokenKind::Word => Sign::Word,
        TokenKind::Quoted => Sign::Quoted,
        TokenKind::Fault => Sign::Fault,
        TokenKind::Mark => sign_of_mark(
            byte_at(text, token.span.start as usize),
            second_at(text, token),
        ),
    };
    Symbol {
        sign,
        span: token.span,
    }
}

/// The symbols of these tokens of a text.
pub fn symbols_of(alloc: Global, text: &[u8], tokens: &[Token]) -> Result<Vec<Symbol>, AllocError>
    ensures { IfOk result (λ v. v.items ≡ symbols_of text.now tokens.now) }
{
    tokens
        .iter()
        .map(|token| symbol_of(text, *token))
        .collect(alloc)
}

fn open_behind(sign: Sign, open_before: u8) -> u8
    requires { open_before ≤ BRACKETS }
    ensures { result ≡ opened sign open_before }
{
    match sign {
        Sign::Open | Sign::OpenSquare | Sign::OpenBrace => open_before + 1,
        Sign::Close | Sign::CloseSquare | Sign::CloseBrace => open_before.saturating_sub(1),
        _ => open_before,
    }
}

/// Whether more than 64 brackets are open at a place.
pub fn is_too_deep(symbols: &[Symbol]) -> bool
    ensures { IsTrue result ↔ (64 < most_open 0 symbols.now) }
{
    let mut count: u8 = 0;
    for symbol in symbols {
        count = open_behind(symbol.sign, count);
        if count > BRACKETS {
            return true;
        }
    }
    false
}
