// The lines that spell bytes.

use hex::FromHex;
use std::alloc::{AllocError, Global};

/// Bytes of a file, as a line spells them.
#[derive(Clone, Copy)]
pub enum Piece<'a> {
    /// `|TEXT`: the text, and a line feed behind it.
    Line(&'a str),
    /// `>TEXT`: bytes with no line feed at their end; \n, \r and \x and two digits are a byte each.
    Spelled(&'a str),
    /// `times N TEXT`: such bytes N times.
    Times(&'a str),
    /// `numbered N TEXT`: the same, with the number of each time, from 0, in the place of #.
    Numbered(&'a str),
}

impl<'a> Piece<'a> {
    /// The bytes that a line spells, if it is one of these.
    pub fn of(line: &'a str) -> Option<Piece<'a>> {
        if let Some(text) = line.strip_prefix('|') {
            return Some(Piece::Line(text));
        }
        if let Some(text) = line.strip_prefix('>') {
            return Some(Piece::Spelled(text));
        }
        match line.split_once(' ')? {
            ("times", rest) => Some(Piece::Times(rest)),
            ("numbered", rest) => Some(Piece::Numbered(rest)),
            _ => None,
        }
    }

    /// Adds the bytes, and says whether the text spells any.
    pub fn push_to(self, alloc: Global, to: &mut Vec<u8>) -> Result<bool, AllocError> {
        match self {
            Piece::Line(text) => push_line(text, to),
            Piece::Spelled(text) => push_spelled(text, to),
            Piece::Times(text) => push_times(alloc, text, to),
            Piece::Numbered(text) => push_numbered(alloc, text, to),
        }
    }
}

// Adds a text and a line feed.
fn push_line(text: &str, to: &mut Vec<u8>) -> Result<bool, AllocError> {
    to.extend_from_slice(text.as_bytes())?;
    to.push(b'\n')?;
    Ok(true)
}

// Adds the bytes that a text spells, and says whether it spells any.
fn push_spelled(text: &str, to: &mut Vec<u8>) -> Result<bool, AllocError> {
    let (plain, others) = text.split_once('\\').unwrap_or((text, ""));
    to.extend_from_slice(plain.as_bytes())?;
    if plain.len() == text.len() {
        return Ok(true);
    }
    for piece in others.split('\\') {
        let Some((byte, plain)) = spelled(piece.as_bytes()) else {
            return Ok(false);
        };
        to.push(byte)?;
        to.extend_from_slice(plain)?;
    }
    Ok(true)
}

// The byte that is spelled behind a backslash, and the bytes behind it.
fn spelled(piece: &[u8]) -> Option<(u8, &[u8])> {
    match piece {
        [b'n', plain @ ..] => Some((b'\n', plain)),
        [b'r', plain @ ..] => Some((b'\r', plain)),
        [b'x', high, low, plain @ ..] => {
            let [byte] = <[u8; 1] as FromHex>::from_hex([*high, *low]).ok()?;
            Some((byte, plain))
        }
        _ => None,
    }
}

// Adds the bytes that a text spells as often as the number before it says. It says whether there are such a number and such a text.
fn push_times(alloc: Global, text: &str, to: &mut Vec<u8>) -> Result<bool, AllocError> {
    let Some((count, text)) = counted(text) else {
        return Ok(false);
    };
    let mut piece = Vec::new(alloc);
    let is_spelled = push_spelled(text, &mut piece)?;
    for _ in 0..count {
        to.extend_from_slice(&piece)?;
    }
    Ok(is_spelled)
}

// Adds such bytes, where each time its number, from 0, stands in the place of `#` in the text.
fn push_numbered(alloc: Global, text: &str, to: &mut Vec<u8>) -> Result<bool, AllocError> {
    let Some((count, text)) = counted(text) else {
        return Ok(false);
    };
    let (front, back) = text.split_once('#').unwrap_or((text, ""));
    let mut is_spelled = true;
    for place in 0..count {
        let text = format!(in alloc; "{front}{place}{back}")?;
        is_spelled = push_spelled(&text, to)?;
    }
    Ok(is_spelled)
}

// How often a text is meant, and the text.
fn counted(text: &str) -> Option<(u32, &str)> {
    let (count, text) = text.split_once(' ')?;
    Some((count.parse::<u32>().ok()?, text))
}
