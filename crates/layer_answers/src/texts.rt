// How texts are spelled in a line, and how answers are shown.

use memory::Memory;
use std::alloc::Global;
use std::fmt::Debug;
use std::str;

/// Appends a value.
pub(crate) fn show<T: Debug>(value: &T, to: &mut String) -> Result<(), Memory> {
    Ok(write!(to, "{value:?}")?)
}

// Appends bytes: a number between a backslash and a semicolon is one byte.
fn add_bytes(shown: &str, to: &mut Vec<u8>) -> Result<(), Memory> {
    let (plain, others) = shown.split_once('\\').unwrap_or((shown, ""));
    to.extend_from_slice(plain.as_bytes())?;
    for one in others.split('\\') {
        let (number, plain) = one.split_once(';').unwrap_or((one, ""));
        if let Ok(byte @ 0..256) = number.parse::<u16>() {
            to.push(byte as u8)?;
        }
        to.extend_from_slice(plain.as_bytes())?;
    }
    Ok(())
}

// Appends the same bytes so many times.
fn add_repeated(shown: &str, times: u16, to: &mut Vec<u8>) -> Result<(), Memory> {
    for _ in 0..times {
        add_bytes(shown, to)?;
    }
    Ok(())
}

/// The bytes of a text. In `front|{3*piece|}back` the piece stands three times.
pub(crate) fn bytes_of(alloc: Global, shown: &str) -> Result<Vec<u8>, Memory> {
    let mut bytes = Vec::new(alloc);
    let (front, others) = shown.split_once("|{").unwrap_or((shown, ""));
    let (inner, back) = others.split_once("|}").unwrap_or((others, ""));
    let (times, piece) = inner.split_once('*').unwrap_or((inner, ""));
    add_bytes(front, &mut bytes)?;
    add_repeated(piece, times.parse::<u16>().unwrap_or(0), &mut bytes)?;
    add_bytes(back, &mut bytes)?;
    Ok(bytes)
}

/// The text of these bytes.
pub(crate) fn text_of(bytes: &[u8]) -> &str {
    str::from_utf8(bytes).unwrap_or("no text")
}
