// All that is found before the check.
ghost use Rattle.std.specs.Prelude.{◌≡◌, ◌<◌, IfOk, IfSome, length};
ghost use Rattle.cell_refs.specs.declared.limits.TheConstants.{SHEETS};
ghost use Rattle.command_line.specs.Read.{named_of};
ghost use Rattle.optcheck_cli.specs.Inner.{EndCause, FindsMade, OpensBook};
ghost use Rattle.optcheck_cli.specs.Read.{IsSound, asked_read};

use crate::certificate::read_certificate;
use crate::halt::{End, Halt};
use crate::words::Asked;
use certificate_texts::Cert;
use run_inputs::{End as FilesEnd, open_files};
use solver_io::Folder;
use std::alloc::Global;
use workbook::Workbook;

/// Opens the workbook that the files spell, and then reads the certificate. No file is read where too many sheets are named, and the
/// certificate isn't where the other files end the run.
pub(crate) fn find<F: Folder>(
    alloc: Global,
    asked: &Asked,
    folder: &mut F,
) -> Result<(Workbook, Cert), End>
    requires { IsSound asked.now }
    ensures finds { IfSome (F.content folder.old)
        (λ files. FindsMade (asked_read asked.now) files result) }
    ensures some { IfOk result (λ found. 0 < length found.0.sheets) }
    ensures many { SHEETS < length asked.now.named.sheets.items
        → F.read_faults folder.new ≡ F.read_faults folder.old }
    ensures same { F.content folder.new ≡ F.content folder.old }
    ensures cause { EndCause (F.read_faults folder.old) (F.read_faults folder.new) result }
    ensures writes { F.write_faults folder.new ≡ F.write_faults folder.old }
    ensures wants { F.write_wants folder.new ≡ F.write_wants folder.old }
{
    let book = open_book(alloc, asked, folder)?;
    let cert = read_certificate(alloc, folder, asked.certificate.as_str())?;
    Ok((book, cert))
}

// Opens the workbook.
fn open_book<F: Folder>(alloc: Global, asked: &Asked, folder: &mut F) -> Result<Workbook, End>
    requires { IsSound asked.now }
    ensures opens { IfSome (F.content folder.old)
        (λ files. OpensBook (named_of asked.now.named) files result) }
    ensures some { IfOk result (λ book. 0 < length book.sheets) }
    ensures many { SHEETS < length asked.now.named.sheets.items
        → (cause : Halt) × (result ≡ Err (End.Halted cause)) }
    ensures same { F.content folder.new ≡ F.content folder.old }
    ensures cause { EndCause (F.read_faults folder.old) (F.read_faults folder.new) result }
    ensures writes { F.write_faults folder.new ≡ F.write_faults folder.old }
    ensures wants { F.write_wants folder.new ≡ F.write_wants folder.old }
{
    match open_files(alloc, &asked.named, folder) {
        Ok(book) => Ok(book),
        Err(FilesEnd::Stopped(stop)) => Err(End::Halted(Halt::Files(stop))),
        Err(FilesEnd::Failed) => Err(End::Failed),
        Err(FilesEnd::Memory) => Err(End::Memory),
    }
}
