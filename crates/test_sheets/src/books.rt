// Workbooks of two sheets.
ghost use Rattle.std.specs.Prelude.{◌≡◌, ◌≢◌, ◌≤◌, [], All, IfOk, length};
ghost use Rattle.cell_refs.specs.declared.limits.TheConstants.{FILE_BYTES};
ghost use Rattle.workbook.specs.Files.{SheetFile};

use std::alloc::Global;
use std::test::Fail;
use workbook::{File, Workbook};

// The file of a sheet with a short text.
fn sheet_file(alloc: Global, stem: &str, text: &str) -> Result<File, Fail>
    ensures stem { IfOk result (λ f. f.stem ≢ []) }
    ensures size { IfOk result (λ f. length f.bytes ≤ FILE_BYTES) }
{
    if stem.is_empty() || text.len() > 10000 {
        return Err(Fail::new("a sheet has no name, or a long text"));
    }
    Ok(File::new(
        String::from_str(alloc, stem)?,
        text.as_bytes().to_vec(alloc)?,
    ))
}

// The files of two sheets.
fn files(alloc: Global, plan: &str, other: &str) -> Result<Vec<File>, Fail>
    ensures count { IfOk result (λ v. length v.items ≡ 2) }
    ensures stems { IfOk result (λ v. All (λ (f : SheetFile). f.stem ≢ []) v.items) }
    ensures sizes { IfOk result (λ v. All (λ (f : SheetFile). length f.bytes ≤ FILE_BYTES) v.items) }
{
    let mut files = Vec::new(alloc);
    files.push(sheet_file(alloc, "plan", plan)?)?;
    files.push(sheet_file(alloc, "other", other)?)?;
    Ok(files)
}

/// The workbook of two sheets and some names.
pub(crate) fn open_workbook(
    alloc: Global,
    plan: &str,
    other: &str,
    names: &str,
) -> Result<Workbook, Fail> {
    if names.len() > 10000 {
        return Err(Fail::new("the names are a long text"));
    }
    let files = files(alloc, plan, other)?;
    match Workbook::open(alloc, &files, names.as_bytes()) {
        Ok(workbook) => Ok(workbook),
        Err(_) => Err(Fail::new("it is not opened")),
    }
}
