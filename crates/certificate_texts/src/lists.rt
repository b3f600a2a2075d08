// Reading the lists of numbers of a line.
ghost use Rattle.std.specs.Prelude.{◌≡◌, ◌≢◌, ◌<◌, ◌^◌, ◌-◌, ◌++◌, ◌∷◌, [], suc, IfOk, OnOk, length, map, option_map, replicate};
ghost use Rattle.std.specs.List.{AllByRecursion};
ghost use Rattle.fractions.specs.Rational.{zero_ℚ};
ghost use Rattle.frac128.specs.Narrow.{IsNarrow};
ghost use Rattle.frac128.specs.Printed.{printed};
ghost use Rattle.certificate_lines.specs.Cutting.{ReadAs, Starts};
ghost use Rattle.certificate_lines.specs.Line.{pair_words, spaced};
ghost use Rattle.certificate_texts.specs.Lists.{AreRows, NextNumber, NextPair, PairOf};

use crate::cutting::cut;
use crate::number::{read_number, read_whole};
use frac128::Frac;
use memory::Memory;
use std::alloc::Global;

// The next word, which is a number: it is added, and the rest behind it is the answer.
fn next_number<'a>(
    text: &'a [u8],
    numbers: &mut Vec<Frac>,
    room: &mut String,
) -> Result<Option<&'a [u8]>, Memory>
    requires { text.now ≢ [] }
    ensures { IfOk result (λ o. NextNumber numbers.old.items text.now numbers.new.items
        (option_map (λ r. r.now) o)) }
{
    let [b' ', behind @ ..] = text else {
        return Ok(None);
    };
    let (word, rest) = cut(behind, b' ');
    let Some(number) = read_number(word, room)? else {
        return Ok(None);
    };
    numbers.push(number)?;
    Ok(Some(rest))
}

/// The numbers that the words are, each behind a space.
pub(crate) fn read_numbers(
    alloc: Global,
    text: &[u8],
    room: &mut String,
) -> Result<Option<Vec<Frac>>, Memory>
    ensures { IfOk result (λ o. ReadAs (AllByRecursion IsNarrow) (λ xs. spaced (map printed xs))
        (option_map (λ v. v.items) o) text.now) }
{
    let mut numbers = Vec::new(alloc);
    let mut rest = text;
    while !rest.is_empty() {
        match next_number(rest, &mut numbers, room)? {
            Some(behind) => rest = behind,
            None => return Ok(None),
        }
    }
    Ok(Some(numbers))
}

// The row, from 1, and the number that a word with ':' is; the row is at most the greatest that is meant.
fn read_pair(word: &[u8], most: usize, room: &mut String) -> Result<Option<(usize, Frac)>, Memory>
    requires { most < 2 ^ 64 }
    ensures { IfOk result (λ o. PairOf most o word.now) }
{
    let (before, rest) = cut(word, b':');
    let [_, behind @ ..] = rest else {
        return Ok(None);
    };
    let Some(row) = read_whole(before, room)? else {
        return Ok(None);
    };
    if row < 1 || row > most as i128 {
        return Ok(None);
    }
    let Some(number) = read_number(behind, room)? else {
        return Ok(None);
    };
    if number.is_zero() {
        return Ok(None);
    }
    Ok(Some((row as usize, number)))
}

// Puts a number at a row, counted from 1, behind zeros.
fn put_at(row: usize, number: Frac, numbers: &mut Vec<Frac>) -> Result<(), Memory>
    requires { length numbers.old.items < row }
    ensures { OnOk result (numbers.new.items ≡ numbers.old.items
        ++ (replicate (row - suc (length numbers.old.items)) zero_ℚ ++ number ∷ [])) }
{
    while numbers.len() + 1 < row {
        numbers.push(Frac::zero())?;
    }
    numbers.push(number)?;
    Ok(())
}

// The next word, which is a row and its number: it is added, and the rest behind it is the answer.
fn next_pair<'a>(
    text: &'a [u8],
    most: usize,
    numbers: &mut Vec<Frac>,
    room: &mut String,
) -> Result<Option<&'a [u8]>, Memory>
    requires most { most < 2 ^ 64 }
    requires some { text.now ≢ [] }
    requires starts { Starts 32 text.now }
    ensures { IfOk result (λ o. NextPair most numbers.old.items text.now numbers.new.items
        (option_map (λ r. r.now) o)) }
{
    let [_, behind @ ..] = text else {
        return Ok(None);
    };
    let (word, rest) = cut(behind, b' ');
    let Some(pair) = read_pair(word, most, room)? else {
        return Ok(None);
    };
    let (row, number) = pair;
    if row <= numbers.len() {
        return Ok(None);
    }
    put_at(row, number, numbers)?;
    Ok(Some(rest))
}

/// The multipliers that the words are, each with its row; so many at most.
pub(crate) fn read_pairs(
    alloc: Global,
    text: &[u8],
    most: usize,
    room: &mut String,
) -> Result<Option<Vec<Frac>>, Memory>
    requires most { most < 2 ^ 64 }
    requires starts { Starts 32 text.now }
    ensures { IfOk result (λ o. ReadAs (AreRows most) (λ ys. spaced (pair_words 1 ys))
        (option_map (λ v. v.items) o) text.now) }
{
    let mut numbers = Vec::new(alloc);
    let mut rest = text;
    while !rest.is_empty() {
        match next_pair(rest, most, &mut numbers, room)? {
            Some(behind) => rest = behind,
            None => return Ok(None),
        }
    }
    Ok(Some(numbers))
}
