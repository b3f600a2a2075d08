// How words and numbers of calls are spelled in a line, and bytes in several.

use std::alloc::{AllocError, Global};
use std::str;

/// The words of a line, with blanks between them; what stands in quotes is one word.
pub fn words_of(alloc: Global, line: &str) -> Result<Vec<String>, AllocError> {
    let mut words = Vec::new(alloc);
    let mut is_quoted = false;
    for piece in line.split('\'') {
        if is_quoted {
            words.push(String::from_str(alloc, piece)?)?;
        } else {
            push_words(alloc, piece, &mut words)?;
        }
        is_quoted = !is_quoted;
    }
    Ok(words)
}

// Adds words with blanks between them.
fn push_words(alloc: Global, piece: &str, words: &mut Vec<String>) -> Result<(), AllocError> {
    for word in piece.split_ascii_whitespace() {
        words.push(String::from_str(alloc, word)?)?;
    }
    Ok(())
}

/// The numbers of two calls, with a blank between them.
pub fn calls_of(calls: &str) -> Option<(u64, u64)> {
    let (first, second) = calls.split_once(' ')?;
    Some((first.parse::<u64>().ok()?, second.parse::<u64>().ok()?))
}

/// Adds bytes in lines, each as it is or, where it has no line feed or isn't plain text, spelled.
pub fn push_lines(bytes: &[u8], to: &mut String) -> Result<(), AllocError> {
    for line in bytes.split_inclusive(|byte| *byte == b'\n') {
        match plain(line) {
            Some(text) => writeln!(to, "|{text}")?,
            None => push_spelling(line, to)?,
        }
    }
    Ok(())
}

// The text of a line that is printed as it is, without its line feed.
fn plain(line: &[u8]) -> Option<&str> {
    let text = str::from_utf8(line).ok()?.strip_suffix('\n')?;
    if text.contains('\r') {
        return None;
    }
    Some(text)
}

/// Adds bytes as they are spelled.
pub fn push_spelling(bytes: &[u8], to: &mut String) -> Result<(), AllocError> {
    to.push('>')?;
    for byte in bytes {
        match byte {
            b'\n' => to.push_str("\\n")?,
            b'\r' => to.push_str("\\r")?,
            b' '..=b'[' | b']'..=b'~' => to.push(char::from(*byte))?,
            _ => write!(to, "\\x{byte:02x}")?,
        }
    }
    Ok(to.push('\n')?)
}
