// The runs of a case whose files and script are damaged at each byte in turn.

use crate::cases::{Case, Files};
use crate::outcomes::Outcomes;
use real_run::run_with_pickers;
use solver_io::{MemFolder, MemSink, MemSource, has_distinct_names};
use std::alloc::{AllocError, Global};

// The bytes that stand in turn in the place of each one.
const BYTES: [u8; 8] = [0, b'\n', b'\r', b'"', b',', b'=', 128, 255];

/// How bytes are damaged: what stands from a place on is cut away, or the byte there is changed.
#[derive(Clone, Copy)]
pub(crate) enum Damage {
    Cuts,
    Bytes,
}

impl Damage {
    pub(crate) fn of(kind: &str) -> Option<Damage> {
        match kind {
            "cuts" => Some(Damage::Cuts),
            "bytes" => Some(Damage::Bytes),
            _ => None,
        }
    }
}

/// Appends how the runs of a case come out.
pub(crate) fn show_runs(
    alloc: Global,
    case: &Case,
    damage: Damage,
    to: &mut String,
) -> Result<(), AllocError> {
    writeln!(to, "case {}", case.name)?;
    if !has_distinct_names(&case.files) {
        return Ok(to.push_str("can't be read: two files have one name\n")?);
    }
    let mut outcomes = Outcomes::new(alloc);
    for (name, bytes) in &case.files {
        run_damaged(
            alloc,
            case,
            damage,
            Some(name.as_str()),
            bytes,
            &mut outcomes,
        )?;
    }
    run_damaged(alloc, case, damage, None, &case.script, &mut outcomes)?;
    outcomes.show(to)
}

// Makes the runs over a file, or over the script where none is named, that is damaged at each of its bytes in turn.
fn run_damaged(
    alloc: Global,
    case: &Case,
    damage: Damage,
    file: Option<&str>,
    bytes: &[u8],
    outcomes: &mut Outcomes,
) -> Result<(), AllocError> {
    for place in 0..bytes.len() {
        let (front, behind) = bytes.split_at(place);
        match damage {
            Damage::Cuts => run_with(alloc, case, file, front.to_vec(alloc)?, place, outcomes)?,
            Damage::Bytes => run_changed(alloc, case, file, front, behind, outcomes)?,
        }
    }
    Ok(())
}

// Makes the runs in which another byte stands in the place of the one behind the front.
fn run_changed(
    alloc: Global,
    case: &Case,
    file: Option<&str>,
    front: &[u8],
    behind: &[u8],
    outcomes: &mut Outcomes,
) -> Result<(), AllocError> {
    let Some((_, rest)) = behind.split_first() else {
        return Ok(());
    };
    for byte in BYTES {
        let mut bytes = front.to_vec(alloc)?;
        bytes.push(byte)?;
        bytes.extend_from_slice(rest)?;
        run_with(alloc, case, file, bytes, front.len(), outcomes)?;
    }
    Ok(())
}

// Makes the run with these bytes in the file, or as the script.
fn run_with(
    alloc: Global,
    case: &Case,
    file: Option<&str>,
    bytes: Vec<u8>,
    place: usize,
    outcomes: &mut Outcomes,
) -> Result<(), AllocError> {
    let files = with_bytes(alloc, &case.files, file, &bytes)?;
    let script = match file {
        Some(_) => case.script.clone()?,
        None => bytes,
    };
    let held = files.clone()?;
    if !has_distinct_names(&held) {
        return Ok(());
    }
    let mut folder = MemFolder::new(alloc, held, Vec::new(alloc));
    let mut source = MemSource::new(alloc, script, Vec::new(alloc));
    let mut out = MemSink::new(alloc, Vec::new(alloc));
    let status = run_with_pickers(alloc, &case.words, &mut folder, &mut source, &mut out)?;
    let changed = changed_files(alloc, &files, &folder)?;
    let name = file.unwrap_or("script");
    outcomes.add(status.number(), out.bytes(), &changed, name, place)
}

// The files with these bytes in the one that is named.
fn with_bytes(
    alloc: Global,
    files: &Files,
    file: Option<&str>,
    bytes: &Vec<u8>,
) -> Result<Files, AllocError> {
    let mut found = Vec::new(alloc);
    for (name, held) in files {
        let is_damaged = match file {
            Some(file) => name.as_str() == file,
            None => false,
        };
        let held = if is_damaged {
            bytes.clone()?
        } else {
            held.clone()?
        };
        found.push((name.clone()?, held))?;
    }
    Ok(found)
}

// The files that aren't what they were.
fn changed_files(alloc: Global, files: &Files, folder: &MemFolder) -> Result<Files, AllocError> {
    let mut changed = Vec::new(alloc);
    for (name, bytes) in files {
        let held = folder.bytes(name).unwrap_or(b"");
        if held != bytes.as_slice() {
            changed.push((name.clone()?, held.to_vec(alloc)?))?;
        }
    }
    Ok(changed)
}
