// The tokens of a text.
ghost use Rattle.std.specs.Prelude.{◌≡◌, ◌+◌, ◌≤◌, ℕ, List, length};
ghost use Rattle.cell_refs.specs.declared.limits.TheConstants.{TEXT_BYTES};
ghost use Rattle.formula_lexer.specs.Tokens.{AreSlices, LexAnswers, NoToken, Tokens, token};
ghost use Rattle.formula_lexer.specs.declared.token.Token.{Token};

use crate::front::{front, is_blank};
use crate::token::{LexFault, Token, TokenKind};
use cell_refs::Span;
use std::alloc::Global;

fn token(kind: TokenKind, at: usize, len: usize) -> Token
    requires { at + len ≤ TEXT_BYTES + 1 }
    ensures { result ≡ token kind at len }
{
    Token {
        kind,
        span: Span {
            start: at as u16,
            end: (at + len) as u16,
        },
    }
}

/// The tokens of a text, with blanks, tabs and line ends between them or not (OpenDocument 1.2 part 2, section 5).
pub fn tokens(alloc: Global, text: &str) -> Result<Vec<Token>, LexFault>
    requires { length text.now ≤ TEXT_BYTES + 1 }
    ensures { LexAnswers text.now result }
{
    cut(alloc, text.as_bytes())
}

// The tokens of a text's bytes.
fn cut(alloc: Global, text: &[u8]) -> Result<Vec<Token>, LexFault>
    requires { length text.now ≤ TEXT_BYTES + 1 }
    ensures { LexAnswers text.now result }
{
    // No text has more tokens than bytes.
    let Ok(mut tokens) = Vec::with_capacity(alloc, text.len()) else {
        return Err(LexFault::Memory);
    };
    let mut at = 0;
    while at < text.len() {
        if is_blank(text[at]) {
            at += 1;
            continue;
        }
        let Some((kind, len)) = front(&text[at..]) else {
            return Err(LexFault::At(at as u16));
        };
        tokens.push(token(kind, at, len))?;
        at += len;
    }
    Ok(tokens)
}

/// The tokens of a text stand in their order, within the text, each as long as it can be.
pub fn tokens_are_slices()
    ensures { (text : List ℕ) (ts : List Token) → Tokens 0 text ts → AreSlices text 0 ts }
{}

/// A text has one list of tokens, and none where a byte begins no token.
pub fn one_list()
    ensures one { (text : List ℕ) (a b : List Token) → Tokens 0 text a → Tokens 0 text b → a ≡ b }
    ensures none { (text : List ℕ) (place : ℕ) (a : List Token) → NoToken 0 text place
        → Tokens 0 text a → ⊥ }
{}
