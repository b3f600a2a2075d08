// Answering the records of a script.
ghost use Rattle.std.specs.Prelude.{◌≡◌, ◌≤◌, ◌<◌, IfSome, List, ℕ};
ghost use Rattle.commands.specs.Commands.{command_of, spoken};
ghost use Rattle.commands.specs.Lines.{CanBeSaid};
ghost use Rattle.cell_refs.specs.declared.units.TheConstants.{MOST_UNITS};
ghost use Rattle.opensolver_cli.specs.Answering.{AnswersRecord, AnswersRecords, EndsAnswering, IsPutFault, IsSaid, IsSinkFault, Says};
ghost use Rattle.opensolver_cli.specs.Headline.{setting_of};
ghost use Rattle.node_pick.specs.Rules.{Rule};
ghost use Rattle.opensolver_cli.specs.Outside.{put_in};
ghost use Rattle.session.specs.States.{SessionState};
ghost use Rattle.session.specs.Steps.{Applies};
ghost use Rattle.command_line.specs.Read.{job_read, named_of};

use crate::Status;
use crate::counted::{Beginning, CountedSession};
use crate::saving::save;
use command_line::Job;
use node_pick::Picker;
use session::{Answer, Command, line};
use sheet_csv::{Record, Rows};
use solver_io::{Folder, PutEnd, Sink};
use std::alloc::Global;
use std::marker::Brand;
use std::sync::ledger::{Blank, Ledger};
use workbook::Workbook;

/// Answers each of the records, over a workbook that was opened, with the job's budget for a search, which opens the nodes that the
/// picker chooses, and writes the files that are saved.
pub(crate) fn answer_records<F: Folder, K: Sink>(
    alloc: Global,
    book: Workbook,
    job: &Job,
    rows: &Rows,
    folder: &mut F,
    out: &mut K,
    pick: &mut Box<dyn Picker>,
) -> Status
    requires few { job.now.budget ≤ MOST_UNITS }
    ensures answers { IfSome (F.content folder.old)
        (λ files. AnswersRecords (setting_of (rule pick.old) (job_read job.now) book files)
        rows.now
        (put_in (F.content folder.old) (F.write_faults folder.old)
        (F.write_wants folder.old) (K.pieces out.old) (K.faults out.old))
        (put_in (F.content folder.new) (F.write_faults folder.new)
        (F.write_wants folder.new) (K.pieces out.new) (K.faults out.new))
        result) }
    ensures ends { EndsAnswering result }
    ensures cause { IsPutFault
        (put_in (F.content folder.old) (F.write_faults folder.old)
        (F.write_wants folder.old) (K.pieces out.old) (K.faults out.old))
        (put_in (F.content folder.new) (F.write_faults folder.new)
        (F.write_wants folder.new) (K.pieces out.new) (K.faults out.new))
        result }
    ensures reads { F.read_faults folder.new ≡ F.read_faults folder.old }
{
    let beginning = Beginning {
        book,
        blank: Blank::new(1),
    };
    answer_counted::<F, K, Brand>(alloc, beginning, job, rows, folder, out, pick)
}

// Answers the records of a script, with what the counter of forms begins with.
fn answer_counted<F: Folder, K: Sink, L: Ledger>(
    alloc: Global,
    of: Beginning,
    job: &Job,
    rows: &Rows,
    folder: &mut F,
    out: &mut K,
    pick: &mut Box<dyn Picker>,
) -> Status
    requires name { of.blank.name ≡ L.name }
    requires parts { of.blank.parts ≡ L.parts }
    requires some { 0 < of.blank.parts }
    requires few { job.now.budget ≤ MOST_UNITS }
    ensures answers { IfSome (F.content folder.old)
        (λ files. AnswersRecords (setting_of (rule pick.old) (job_read job.now) of.book files)
        rows.now
        (put_in (F.content folder.old) (F.write_faults folder.old)
        (F.write_wants folder.old) (K.pieces out.old) (K.faults out.old))
        (put_in (F.content folder.new) (F.write_faults folder.new)
        (F.write_wants folder.new) (K.pieces out.new) (K.faults out.new))
        result) }
    ensures ends { EndsAnswering result }
    ensures cause { IsPutFault
        (put_in (F.content folder.old) (F.write_faults folder.old)
        (F.write_wants folder.old) (K.pieces out.old) (K.faults out.old))
        (put_in (F.content folder.new) (F.write_faults folder.new)
        (F.write_wants folder.new) (K.pieces out.new) (K.faults out.new))
        result }
    ensures reads { F.read_faults folder.new ≡ F.read_faults folder.old }
{
    let Ok(mut session) = CountedSession::<L>::open(alloc, of, job.budget) else {
        return Status::Memory;
    };
    answer_each(alloc, &mut session, job, rows, folder, out, pick)
}

// Answers each of the records over a session.
fn answer_each<F: Folder, K: Sink, L: Ledger>(
    alloc: Global,
    session: &mut CountedSession<L>,
    job: &Job,
    rows: &Rows,
    folder: &mut F,
    out: &mut K,
    pick: &mut Box<dyn Picker>,
) -> Status
    requires few { job.now.budget ≤ MOST_UNITS }
    ensures answers { IfSome (F.content folder.old)
        (λ files. AnswersRecords (record {
          named = named_of job.now.named;
          rule = rule pick.old;
          start = record { session = session.old.state; files = files };
        })
        rows.now
        (put_in (F.content folder.old) (F.write_faults folder.old)
        (F.write_wants folder.old) (K.pieces out.old) (K.faults out.old))
        (put_in (F.content folder.new) (F.write_faults folder.new)
        (F.write_wants folder.new) (K.pieces out.new) (K.faults out.new))
        result) }
    ensures ends { EndsAnswering result }
    ensures cause { IsPutFault
        (put_in (F.content folder.old) (F.write_faults folder.old)
        (F.write_wants folder.old) (K.pieces out.old) (K.faults out.old))
        (put_in (F.content folder.new) (F.write_faults folder.new)
        (F.write_wants folder.new) (K.pieces out.new) (K.faults out.new))
        result }
    ensures reads { F.read_faults folder.new ≡ F.read_faults folder.old }
{
    let mut refused = false;
    for place in 0..rows.len() {
        match answer_record(alloc, session, job, rows.at(place), folder, out, pick) {
            Ok(is_refusal) => refused = refused || is_refusal,
            Err(PutEnd::Failed) => return Status::WriteFault,
            Err(PutEnd::Memory) => return Status::Memory,
        }
    }
    if refused {
        Status::Refused
    } else {
        Status::Done
    }
}

// Answers a record, and says whether the answer is a refusal.
fn answer_record<F: Folder, K: Sink, L: Ledger>(
    alloc: Global,
    session: &mut CountedSession<L>,
    job: &Job,
    fields: &Record,
    folder: &mut F,
    out: &mut K,
    pick: &mut Box<dyn Picker>,
) -> Result<bool, PutEnd>
    requires few { job.now.budget ≤ MOST_UNITS }
    ensures answers { AnswersRecord (rule pick.old)
        (named_of job.now.named) session.old.state fields.now
        (put_in (F.content folder.old) (F.write_faults folder.old)
        (F.write_wants folder.old) (K.pieces out.old) (K.faults out.old))
        (put_in (F.content folder.new) (F.write_faults folder.new)
        (F.write_wants folder.new) (K.pieces out.new) (K.faults out.new))
        session.new.state result }
    ensures sheets { session.new.state.book.sheets ≡ session.old.state.book.sheets }
    ensures rule { rule pick.new ≡ rule pick.old }
    ensures reads { F.read_faults folder.new ≡ F.read_faults folder.old }
{
    let Ok(command) = Command::of(alloc, fields) else {
        return Err(PutEnd::Memory);
    };
    answer_command(alloc, session, job, &command, folder, out, pick)
}

// Does the command that a record spells, and prints the answer.
fn answer_command<F: Folder, K: Sink, L: Ledger>(
    alloc: Global,
    session: &mut CountedSession<L>,
    job: &Job,
    command: &Command,
    folder: &mut F,
    out: &mut K,
    pick: &mut Box<dyn Picker>,
) -> Result<bool, PutEnd>
    requires few { job.now.budget ≤ MOST_UNITS }
    ensures answers { (fields : List (List ℕ)) → spoken command.now ≡ command_of fields
        → AnswersRecord (rule pick.old) (named_of job.now.named) session.old.state fields
        (put_in (F.content folder.old) (F.write_faults folder.old)
        (F.write_wants folder.old) (K.pieces out.old) (K.faults out.old))
        (put_in (F.content folder.new) (F.write_faults folder.new)
        (F.write_wants folder.new) (K.pieces out.new) (K.faults out.new))
        session.new.state result }
    ensures sheets { session.new.state.book.sheets ≡ session.old.state.book.sheets }
    ensures rule { rule pick.new ≡ rule pick.old }
    ensures reads { F.read_faults folder.new ≡ F.read_faults folder.old }
{
    let Ok(answer) = session.session.apply(command, pick, &mut session.steps) else {
        return Err(PutEnd::Memory);
    };
    tell_answer(alloc, session, job, &answer, folder, out)
}

// Writes what an answer saves and its lines, and says whether it is a refusal. Its command led from some state to that of the session.
fn tell_answer<F: Folder, K: Sink, L: Ledger>(
    alloc: Global,
    session: &mut CountedSession<L>,
    job: &Job,
    answer: &Answer,
    folder: &mut F,
    out: &mut K,
) -> Result<bool, PutEnd>
    requires said { CanBeSaid session.now.state.book.sheets answer.now }
    ensures answers { (rule : Rule) → (before : SessionState) → (fields : List (List ℕ))
        → Applies rule before (command_of fields) answer.now session.old.state
        → session.old.state.book.sheets ≡ before.book.sheets
        → AnswersRecord rule (named_of job.now.named) before fields
        (put_in (F.content folder.old) (F.write_faults folder.old)
        (F.write_wants folder.old) (K.pieces out.old) (K.faults out.old))
        (put_in (F.content folder.new) (F.write_faults folder.new)
        (F.write_wants folder.new) (K.pieces out.new) (K.faults out.new))
        session.new.state result }
    ensures sheets { session.new.state.book.sheets ≡ session.old.state.book.sheets }
    ensures reads { F.read_faults folder.new ≡ F.read_faults folder.old }
{
    let Ok(text) = line(alloc, answer, session.sheets()) else {
        return Err(PutEnd::Memory);
    };
    save(&job.named, answer, session, folder)?;
    out.write(text.as_bytes())?;
    Ok(answer.is_refusal())
}

/// Writes the line, and ends so where that went through.
pub(crate) fn say<K: Sink>(out: &mut K, line: &str, status: Status) -> Status
    requires { IsSaid status }
    ensures says { Says line.now status (K.pieces out.old) (K.pieces out.new) result }
    ensures cause { IsSinkFault (K.faults out.old) (K.faults out.new) result }
{
    match out.write(line.as_bytes()) {
        Ok(()) => status,
        Err(PutEnd::Failed) => Status::WriteFault,
        Err(PutEnd::Memory) => Status::Memory,
    }
}
