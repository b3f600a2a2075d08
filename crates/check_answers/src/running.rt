// The run of a case, and those over files that are cut.

use crate::cases::Case;
use case_lists::{Files, Outcomes, push_lines};
use optcheck_cli::check_run;
use solver_io::{MemFolder, MemSink, has_distinct_names};
use std::alloc::{AllocError, Global};

/// Appends what comes of a case.
pub(crate) fn show(alloc: Global, case: &Case, to: &mut String) -> Result<(), AllocError> {
    writeln!(to, "case {}", case.name)?;
    if let Some(name) = &case.cut {
        return show_cuts(alloc, case, name, to);
    }
    let files = case.files.clone()?;
    if !has_distinct_names(&files) {
        return Ok(to.push_str("can't be read: two files have one name\n")?);
    }
    let mut folder = MemFolder::new(alloc, files, [case.fails.0].to_vec(alloc)?);
    let mut out = MemSink::new(alloc, [case.fails.1].to_vec(alloc)?);
    let status = check_run(alloc, &case.words, &mut folder, &mut out);
    push_lines(out.bytes(), to)?;
    Ok(writeln!(to, "status {}", status.number())?)
}

// Appends how the runs over a file that is cut come out.
fn show_cuts(alloc: Global, case: &Case, cut: &str, to: &mut String) -> Result<(), AllocError> {
    let mut outcomes = Outcomes::new(alloc);
    for (name, bytes) in &case.files {
        if name.as_str() == cut {
            for place in 0..bytes.len() {
                let (front, _) = bytes.split_at(place);
                run_with(alloc, case, name, front, &mut outcomes)?;
            }
        }
    }
    outcomes.show_lines(to)
}

// Makes the run with these bytes in a file.
fn run_with(
    alloc: Global,
    case: &Case,
    name: &str,
    bytes: &[u8],
    outcomes: &mut Outcomes,
) -> Result<(), AllocError> {
    let files = with_bytes(alloc, &case.files, name, bytes)?;
    if !has_distinct_names(&files) {
        return Ok(());
    }
    let mut folder = MemFolder::new(alloc, files, Vec::new(alloc));
    let mut out = MemSink::new(alloc, Vec::new(alloc));
    let status = check_run(alloc, &case.words, &mut folder, &mut out);
    let changed = Vec::new(alloc);
    outcomes.add(status.number(), out.bytes(), &changed, name, bytes.len())
}

// The files with these bytes in the one of this name.
fn with_bytes(alloc: Global, files: &Files, name: &str, bytes: &[u8]) -> Result<Files, AllocError> {
    let mut found = Vec::new(alloc);
    for (other, held) in files {
        let held = if other.as_str() == name {
            bytes.to_vec(alloc)?
        } else {
            held.clone()?
        };
        found.push((other.clone()?, held))?;
    }
    Ok(found)
}
