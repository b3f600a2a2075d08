// All that is found before the first record.
ghost use Rattle.std.specs.Prelude.{◌≡◌, ◌≢◌, ◌<◌, All, Err, IfSome, length, string_bytes, true};
ghost use Rattle.cell_refs.specs.declared.limits.TheConstants.{SHEETS};
ghost use Rattle.command_line.specs.Read.{named_of};
ghost use Rattle.command_line.specs.Words.{is_sheet};
ghost use Rattle.run_inputs.specs.Findings.{book_in};
ghost use Rattle.run_inputs.specs.Inputs.{FindsAll, IsFaultOf, IsSourceLeft};
ghost use Rattle.run_inputs.specs.declared.stop.Limit.TheVariants as limit;
ghost use Rattle.run_inputs.specs.declared.stop.Stop.{Stop};

use crate::files::open_files;
use crate::script::read_commands;
use crate::stop::{End, Stop};
use command_line::Named;
use sheet_csv::Rows;
use solver_io::{Folder, Source};
use std::alloc::Global;
use workbook::Workbook;

/// Opens the workbook that the files spell, and reads the script to its end and the records in it. The script isn't touched where the
/// files end the run, and no file is read where too many sheets are named.
pub fn find<F: Folder, S: Source>(
    alloc: Global,
    named: &Named,
    folder: &mut F,
    script: &mut S,
) -> Result<(Workbook, Rows), End>
    requires some { 0 < length named.now.sheets.items }
    requires sheets { All (λ w. is_sheet (string_bytes w) ≡ true) named.now.sheets.items }
    ensures finds { IfSome (F.content folder.old) (λ files. IfSome (S.left script.old)
        (λ bytes. FindsAll (named_of named.now) files bytes (S.left script.new) result)) }
    ensures order { IfSome (F.content folder.old)
        (λ files. (stop : Stop) → book_in (named_of named.now) files ≡ Err stop → IsSourceLeft
        (S.left script.old) (S.left script.new) (S.faults script.old) (S.faults script.new)) }
    ensures many { SHEETS < length named.now.sheets.items
        → (result ≡ Err (End.Stopped (Stop.TooMuch limit.Sheets)))
        × (F.read_faults folder.new ≡ F.read_faults folder.old) × IsSourceLeft
        (S.left script.old) (S.left script.new) (S.faults script.old) (S.faults script.new) }
    ensures folder { F.content folder.new ≡ F.content folder.old }
    ensures writes { F.write_faults folder.new ≡ F.write_faults folder.old }
    ensures wants { F.write_wants folder.new ≡ F.write_wants folder.old }
    ensures read_fault { result ≡ Err End.Failed
        → IsFaultOf (F.read_faults folder.old) (F.read_faults folder.new)
        (S.left script.old) (S.left script.new) (S.faults script.old) (S.faults script.new) }
    ensures no_read_fault { result ≢ Err End.Failed
        → (F.read_faults folder.new ≡ F.read_faults folder.old)
        × (S.faults script.new ≡ S.faults script.old) }
{
    let book = open_files(alloc, named, folder)?;
    let rows = read_commands(alloc, script)?;
    Ok((book, rows))
}
