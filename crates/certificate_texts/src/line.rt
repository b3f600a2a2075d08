// Reading a line.
ghost use Rattle.std.specs.Prelude.{◌<◌, ◌^◌, IfOk, codes, map, option_map};
ghost use Rattle.frac128.specs.Printed.{printed};
ghost use Rattle.certificate_lines.specs.Cutting.{ReadAs, Starts};
ghost use Rattle.certificate_lines.specs.Line.{AreNumbers, line_text, spaced};
ghost use Rattle.certificate_texts.specs.Lines.{BeginsWith, IsLight, behind_first, decision_text, line_of};

use crate::claim::read_claim;
use crate::cutting::cut;
use crate::lists::{read_numbers, read_pairs};
use crate::number::read_whole;
use frac128::Frac;
use memory::Memory;
use std::alloc::Global;

/// What the first line says.
#[derive(Drop)]
pub(crate) enum Said {
    Optimal(Option<Frac>),
    Infeasible,
    Unbounded,
}

/// A line of a certificate.
#[derive(Drop)]
pub(crate) enum Line {
    Claim(Said),
    Point(Vec<Frac>),
    Ray(Vec<Frac>),
    Split(u16, i128),
    Best(Vec<Frac>),
    Empty(Vec<Frac>),
    Clash(u16, u16),
    End,
}

// At least one number.
fn read_place(alloc: Global, text: &[u8], room: &mut String) -> Result<Option<Vec<Frac>>, Memory>
    ensures { IfOk result (λ o. ReadAs AreNumbers (λ xs. spaced (map printed xs))
        (option_map (λ v. v.items) o) text.now) }
{
    let Some(numbers) = read_numbers(alloc, text, room)? else {
        return Ok(None);
    };
    if numbers.is_empty() {
        return Ok(None);
    }
    Ok(Some(numbers))
}

// The point behind `point`.
fn read_point(
    alloc: Global,
    text: &[u8],
    most: usize,
    room: &mut String,
) -> Result<Option<Line>, Memory>
    ensures { IfOk result (λ o. ReadAs (BeginsWith (codes "point") most) behind_first
        (option_map line_of o) text.now) }
{
    let Some(point) = read_place(alloc, text, room)? else {
        return Ok(None);
    };
    Ok(Some(Line::Point(point)))
}

// The direction behind `ray`.
fn read_ray(
    alloc: Global,
    text: &[u8],
    most: usize,
    room: &mut String,
) -> Result<Option<Line>, Memory>
    ensures { IfOk result (λ o. ReadAs (BeginsWith (codes "ray") most) behind_first
        (option_map line_of o) text.now) }
{
    let Some(ray) = read_place(alloc, text, room)? else {
        return Ok(None);
    };
    Ok(Some(Line::Ray(ray)))
}

// The greatest number of a decision, counted from 1.
const MOST_DECISION: i128 = 65_536;

// The greatest floor: the whole number above it fits too.
const MOST_FLOOR: i128 = i128::MAX - 1;

// The decision and the floor behind `split`.
fn read_split(text: &[u8], most: usize, room: &mut String) -> Result<Option<Line>, Memory>
    requires { Starts 32 text.now }
    ensures { IfOk result (λ o. ReadAs (BeginsWith (codes "split") most) behind_first
        (option_map line_of o) text.now) }
{
    let [_, behind @ ..] = text else {
        return Ok(None);
    };
    let (first, rest) = cut(behind, b' ');
    let [_, second @ ..] = rest else {
        return Ok(None);
    };
    let Some(decision) = read_whole(first, room)? else {
        return Ok(None);
    };
    let Some(floor) = read_whole(second, room)? else {
        return Ok(None);
    };
    if decision < 1 || decision > MOST_DECISION || floor > MOST_FLOOR {
        return Ok(None);
    }
    Ok(Some(Line::Split((decision - 1) as u16, floor)))
}

// The multipliers behind `best`.
fn read_best(
    alloc: Global,
    text: &[u8],
    most: usize,
    room: &mut String,
) -> Result<Option<Line>, Memory>
    requires most { most < 2 ^ 64 }
    requires starts { Starts 32 text.now }
    ensures { IfOk result (λ o. ReadAs (BeginsWith (codes "best") most) behind_first
        (option_map line_of o) text.now) }
{
    let Some(multipliers) = read_pairs(alloc, text, most, room)? else {
        return Ok(None);
    };
    Ok(Some(Line::Best(multipliers)))
}

// The multipliers behind `empty`.
fn read_empty(
    alloc: Global,
    text: &[u8],
    most: usize,
    room: &mut String,
) -> Result<Option<Line>, Memory>
    requires most { most < 2 ^ 64 }
    requires starts { Starts 32 text.now }
    ensures { IfOk result (λ o. ReadAs (BeginsWith (codes "empty") most) behind_first
        (option_map line_of o) text.now) }
{
    let Some(multipliers) = read_pairs(alloc, text, most, room)? else {
        return Ok(None);
    };
    Ok(Some(Line::Empty(multipliers)))
}

// A decision, counted from 1.
fn read_decision(text: &[u8], room: &mut String) -> Result<Option<u16>, Memory>
    ensures { IfOk result (λ o. ReadAs (λ j. j < 2 ^ 16) decision_text o text.now) }
{
    let Some(decision) = read_whole(text, room)? else {
        return Ok(None);
    };
    if decision < 1 || decision > MOST_DECISION {
        return Ok(None);
    }
    Ok(Some((decision - 1) as u16))
}

// The two decisions behind `clash`.
fn read_clash(text: &[u8], most: usize, room: &mut String) -> Result<Option<Line>, Memory>
    requires { Starts 32 text.now }
    ensures { IfOk result (λ o. ReadAs (BeginsWith (codes "clash") most) behind_first
        (option_map line_of o) text.now) }
{
    let [_, behind @ ..] = text else {
        return Ok(None);
    };
    let (first, rest) = cut(behind, b' ');
    let [_, second @ ..] = rest else {
        return Ok(None);
    };
    let Some(one) = read_decision(first, room)? else {
        return Ok(None);
    };
    let Some(other) = read_decision(second, room)? else {
        return Ok(None);
    };
    Ok(Some(Line::Clash(one, other)))
}

// Nothing stands behind `end`.
fn read_end(text: &[u8], most: usize) -> Option<Line>
    ensures { ReadAs (BeginsWith (codes "end") most) behind_first (option_map line_of result) text.now }
{
    if text.is_empty() {
        Some(Line::End)
    } else {
        None
    }
}

/// The line that is spelled so, without its line feed; a leaf of at most so many rows.
pub(crate) fn read_line(
    alloc: Global,
    text: &[u8],
    most: usize,
    room: &mut String,
) -> Result<Option<Line>, Memory>
    requires { most < 2 ^ 64 }
    ensures { IfOk result (λ o. ReadAs (IsLight most) line_text (option_map line_of o) text.now) }
{
    let (word, behind) = cut(text, b' ');
    if word == "cert".as_bytes() {
        return read_claim(behind, most, room);
    }
    if word == "point".as_bytes() {
        return read_point(alloc, behind, most, room);
    }
    if word == "ray".as_bytes() {
        return read_ray(alloc, behind, most, room);
    }
    if word == "split".as_bytes() {
        return read_split(behind, most, room);
    }
    if word == "best".as_bytes() {
        return read_best(alloc, behind, most, room);
    }
    if word == "empty".as_bytes() {
        return read_empty(alloc, behind, most, room);
    }
    if word == "clash".as_bytes() {
        return read_clash(behind, most, room);
    }
    if word == "end".as_bytes() {
        return Ok(read_end(behind, most));
    }
    Ok(None)
}
