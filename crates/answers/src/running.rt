// The run of a case.

use crate::cases::{Case, Files};
use crate::spelling::push_lines;
use real_run::run_with_pickers;
use solver_io::{MemFolder, MemSink, MemSource, has_distinct_names};
use std::alloc::{AllocError, Global};

/// Appends what the run of a case prints, how it ends, and the files that it changes.
pub(crate) fn show_run(alloc: Global, case: &Case, to: &mut String) -> Result<(), AllocError> {
    writeln!(to, "case {}", case.name)?;
    let files = case.files.clone()?;
    if !has_distinct_names(&files) {
        return Ok(to.push_str("can't be read: two files have one name\n")?);
    }
    let mut folder = MemFolder::new(alloc, files, [case.fails.folder].to_vec(alloc)?);
    show_end(alloc, case, &mut folder, to)?;
    show_changes(&case.files, &folder, to)
}

// Appends what the run of a case over a folder prints, and how it ends.
fn show_end(
    alloc: Global,
    case: &Case,
    folder: &mut MemFolder,
    to: &mut String,
) -> Result<(), AllocError> {
    let fails = [case.fails.script].to_vec(alloc)?;
    let mut script = MemSource::new(alloc, case.script.clone()?, fails);
    let mut out = MemSink::new(alloc, [case.fails.printer].to_vec(alloc)?);
    let status = run_with_pickers(alloc, &case.words, folder, &mut script, &mut out)?;
    push_lines(out.bytes(), to)?;
    Ok(writeln!(to, "status {}", status.number())?)
}

// Appends the files that aren't what they were.
fn show_changes(files: &Files, folder: &MemFolder, to: &mut String) -> Result<(), AllocError> {
    for (name, bytes) in files {
        let held = folder.bytes(name).unwrap_or(b"");
        if held != bytes.as_slice() {
            writeln!(to, "file {name}")?;
            push_lines(held, to)?;
        }
    }
    Ok(())
}
