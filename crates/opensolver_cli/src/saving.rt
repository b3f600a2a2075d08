// Writing the files that are saved.
ghost use Rattle.std.specs.Prelude.{◌≡◌, OnErr, OnOk, option_map};
ghost use Rattle.solver_io.specs.Bytes.{PutCause, PutWant};
ghost use Rattle.session.specs.Steps.{once_written};
ghost use Rattle.opensolver_cli.specs.Answering.{SavesAnswer, SavesFiles};
ghost use Rattle.command_line.specs.Read.{named_of};
ghost use Rattle.opensolver_cli.specs.Worlds.{word_of};

use crate::counted::CountedSession;
use cell_refs::SheetId;
use command_line::Named;
use session::{Answer, SaveFile};
use solver_io::{Folder, PutEnd};
use std::sync::ledger::Ledger;

/// Writes the files that an answer names, in their order, and tells the session that they are written.
pub(crate) fn save<F: Folder, L: Ledger>(
    named: &Named,
    answer: &Answer,
    session: &mut CountedSession<L>,
    folder: &mut F,
) -> Result<(), PutEnd>
    ensures files { SavesAnswer (named_of named.now) answer.now
        (F.content folder.old) (F.content folder.new) result }
    ensures session { OnOk result (session.new.state ≡ once_written answer.now session.old.state) }
    ensures kept { OnErr result (session.new.state ≡ session.old.state) }
    ensures cause { PutCause (F.write_faults folder.old) (F.write_faults folder.new) result }
    ensures want { PutWant (F.write_wants folder.old) (F.write_wants folder.new) result }
    ensures reads { F.read_faults folder.new ≡ F.read_faults folder.old }
    ensures sheets { session.new.state.book.sheets ≡ session.old.state.book.sheets }
{
    if let Answer::ToSave(files) = answer {
        save_files(named, files, folder)?;
        session.saved();
    }
    Ok(())
}

// Writes files, in their order.
fn save_files<F: Folder>(named: &Named, files: &[SaveFile], folder: &mut F) -> Result<(), PutEnd>
    ensures saves { SavesFiles (named_of named.now) files.now
        (F.content folder.old) (F.content folder.new) result }
    ensures cause { PutCause (F.write_faults folder.old) (F.write_faults folder.new) result }
    ensures want { PutWant (F.write_wants folder.old) (F.write_wants folder.new) result }
    ensures reads { F.read_faults folder.new ≡ F.read_faults folder.old }
{
    for file in files {
        folder.write(word_of(named, file.sheet()), file.bytes())?;
    }
    Ok(())
}

// The word of the file of a sheet, or of the names.
fn word_of(named: &Named, sheet: Option<SheetId>) -> &str
    ensures { result.now ≡ word_of (named_of named.now) (option_map (λ s. s.0) sheet) }
{
    let Some(sheet) = sheet else {
        return named.names.as_str();
    };
    match named.sheets.get(usize::from(sheet.0)) {
        Some(word) => word.as_str(),
        None => "",
    }
}
