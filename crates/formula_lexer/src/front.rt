// The token at the front of a text.
ghost use Rattle.std.specs.Prelude.{◌≡◌, ℕ, ◌+◌, ◌<◌, ◌≤◌, IfSome, IsTrue, drop, length};
ghost use Rattle.cell_refs.specs.ErrorText.{error_text};
ghost use Rattle.formula_lexer.specs.declared.token.TokenKind.TheVariants as token;
ghost use Rattle.formula_lexer.specs.Front.{is_blank, is_digit, is_letter, starts_word, continues_word, opens_name, word_rest, digits, fraction, mantissa, exponent, sign, number_len, quoted_len, starts_number, begins_with, fault_len, first, is_pair, is_mark, of_kind, front};

use crate::token::TokenKind;
use cell_refs::ErrorKind;

pub fn is_blank(b: u8) -> bool
    ensures { result ≡ is_blank b }
{
    b == b' ' || b == b'\t' || b == b'\n' || b == b'\r'
}

fn is_digit(b: u8) -> bool
    ensures { result ≡ is_digit b }
{
    b >= b'0' && b <= b'9'
}

fn starts_word(b: u8) -> bool
    ensures { result ≡ starts_word b }
{
    (b >= b'A' && b <= b'Z') || (b >= b'a' && b <= b'z') || b >= 128 || b == b'_' || b == b'$'
}

fn continues_word(b: u8) -> bool
    ensures { result ≡ continues_word b }
{
    starts_word(b) || is_digit(b) || b == b'.'
}

fn digits(bytes: &[u8]) -> usize
    ensures count { result ≡ digits bytes.now }
    ensures within { result ≤ length bytes.now }
{
    bytes.iter().take_while(|b| is_digit(**b)).count()
}

// A dollar sign right before a single quote.
fn opens_name(b: u8, c: u8) -> bool
    ensures { result ≡ opens_name b c }
{
    b == b'$' && c == b'\''
}

// How far a word goes on, which ends before a sheet's name in quotes.
fn word_rest(bytes: &[u8]) -> usize
    ensures count { result ≡ word_rest bytes.now }
    ensures within { result ≤ length bytes.now }
{
    for (at, b) in bytes.iter().enumerate() {
        if !continues_word(*b) || opens_name(*b, first(&bytes[at + 1..])) {
            return at;
        }
    }
    bytes.len()
}

fn fraction(bytes: &[u8]) -> usize
    ensures count { result ≡ fraction bytes.now }
    ensures within { result ≤ length bytes.now }
{
    match bytes {
        [b'.', rest @ ..] => 1 + digits(rest),
        _ => 0,
    }
}

fn mantissa(bytes: &[u8]) -> usize
    ensures count { result ≡ mantissa bytes.now }
    ensures within { result ≤ length bytes.now }
{
    let whole = digits(bytes);
    whole + fraction(&bytes[whole..])
}

fn sign(bytes: &[u8]) -> usize
    ensures count { result ≡ sign bytes.now }
    ensures within { result ≤ length bytes.now }
{
    match bytes {
        [b'+' | b'-', ..] => 1,
        _ => 0,
    }
}

fn exponent(bytes: &[u8]) -> usize
    ensures count { result ≡ exponent bytes.now }
    ensures within { result ≤ length bytes.now }
{
    let [b'e' | b'E', rest @ ..] = bytes else {
        return 0;
    };
    let sign = sign(rest);
    match digits(&rest[sign..]) {
        0 => 0,
        digits => 1 + sign + digits,
    }
}

fn number_len(bytes: &[u8]) -> usize
    ensures count { result ≡ number_len bytes.now }
    ensures within { result ≤ length bytes.now }
{
    let mantissa = mantissa(bytes);
    mantissa + exponent(&bytes[mantissa..])
}

fn first(bytes: &[u8]) -> u8
    ensures { result ≡ first bytes.now }
{
    match bytes {
        [] => 0,
        [b, ..] => *b,
    }
}

fn starts_number(b: u8, rest: &[u8]) -> bool
    ensures { result ≡ starts_number b rest.now }
{
    is_digit(b) || (b == b'.' && is_digit(first(rest)))
}

// Whether the bytes begin with the word.
fn begins_with(word: &[u8], bytes: &[u8]) -> bool
    ensures { result ≡ begins_with word.now bytes.now }
{
    let [w, word @ ..] = word else {
        return true;
    };
    let [b, bytes @ ..] = bytes else {
        return false;
    };
    *w == *b && begins_with(word, bytes)
}

// Whether the bytes begin with the name of this error, which has so many bytes.
#[tactic(auto, using(crate::proofs::Prefixes::begins_within))]
fn names(kind: ErrorKind, bytes: &[u8]) -> bool
    ensures names { result ≡ begins_with (error_text kind) bytes.now }
    ensures within { IsTrue result → length (error_text kind) ≤ length bytes.now }
{
    begins_with(kind.text().as_bytes(), bytes)
}

/// How many bytes the name of an error at the front has.
fn fault_len(bytes: &[u8]) -> Option<usize>
    ensures count { result ≡ fault_len bytes.now }
    ensures within { IfSome result (λ n. (0 < n) × (n ≤ length bytes.now)) }
{
    if names(ErrorKind::Div0, bytes) || names(ErrorKind::Value, bytes) {
        Some(7)
    } else if names(ErrorKind::Ref, bytes) || names(ErrorKind::Num, bytes) {
        Some(5)
    } else if names(ErrorKind::NotAvailable, bytes) {
        Some(4)
    } else {
        None
    }
}

fn is_pair(b: u8, c: u8) -> bool
    ensures { result ≡ is_pair b c }
{
    (c == b'=' && (b == b'<' || b == b'>')) || (b == b'<' && c == b'>')
}

fn is_mark(b: u8) -> bool
    ensures { result ≡ is_mark b }
{
    match b {
        b'!' | b'%'..=b'&' | b'('..=b'/' | b':'..=b'>' | b'[' | b']' | b'^' | b'{'..=b'~' => true,
        _ => false,
    }
}

/// How many bytes there are up to the closing quote, and with it.
fn quoted_len(quote: u8, bytes: &[u8]) -> Option<usize>
    ensures count { result ≡ quoted_len quote bytes.now }
    ensures within { IfSome result (λ n. n ≤ length bytes.now) }
{
    let mut at = 0;
    while at < bytes.len() {
        if bytes[at] != quote {
            at += 1;
        } else if at + 1 < bytes.len() && bytes[at + 1] == quote {
            at += 2;
        } else {
            return Some(at + 1);
        }
    }
    None
}

fn quoted_token(kind: TokenKind, quote: u8, bytes: &[u8]) -> Option<(TokenKind, usize)>
    ensures front { result ≡ of_kind kind 1 (quoted_len quote bytes.now) }
    ensures within { IfSome result (λ t. (0 < t.1) × (t.1 ≤ length bytes.now + 1)) }
{
    match quoted_len(quote, bytes) {
        None => None,
        Some(len) => Some((kind, 1 + len)),
    }
}

/// A sheet's name in single quotes behind a dollar sign.
fn dollar_quoted(bytes: &[u8]) -> Option<(TokenKind, usize)>
    requires { 0 < length bytes.now }
    ensures front { result ≡ of_kind token.Quoted 2 (quoted_len 39 (drop 1 bytes.now)) }
    ensures within { IfSome result (λ t. (0 < t.1) × (t.1 ≤ length bytes.now + 1)) }
{
    match quoted_len(b'\'', &bytes[1..]) {
        None => None,
        Some(len) => Some((TokenKind::Quoted, 2 + len)),
    }
}

/// The token that begins a text, and its length.
pub fn front(bytes: &[u8]) -> Option<(TokenKind, usize)>
    ensures front { result ≡ front bytes.now }
    ensures within { IfSome result (λ t. (0 < t.1) × (t.1 ≤ length bytes.now)) }
{
    match bytes {
        [] => None,
        [b, rest @ ..] => {
            if starts_number(*b, rest) {
                Some((TokenKind::Number, number_len(bytes)))
            } else if *b == b'"' {
                quoted_token(TokenKind::Text, b'"', rest)
            } else if *b == b'\'' {
                quoted_token(TokenKind::Quoted, b'\'', rest)
            } else if opens_name(*b, first(rest)) {
                dollar_quoted(rest)
            } else if *b == b'#' {
                Some((TokenKind::Fault, fault_len(bytes)?))
            } else if starts_word(*b) {
                Some((TokenKind::Word, 1 + word_rest(rest)))
            } else if is_pair(*b, first(rest)) {
                Some((TokenKind::Mark, 2))
            } else if is_mark(*b) {
                Some((TokenKind::Mark, 1))
            } else {
                None
            }
        }
    }
}
