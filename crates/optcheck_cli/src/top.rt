// The top call.
ghost use Rattle.std.specs.Prelude.{◌≡◌, ◌<◌, IfOk, Some, length, string_bytes};
ghost use Rattle.certificate_lines.specs.Cert.{Cert as Certificate};
ghost use Rattle.certificate_texts.specs.Answers.{IsTheCert};
ghost use Rattle.command_line.specs.Words.{texts_of};
ghost use Rattle.optcheck_cli.specs.Completeness.{EndsExactly, IsComplete, IsJudged};
ghost use Rattle.optcheck_cli.specs.Exits.{RunsThrough};
ghost use Rattle.optcheck_cli.specs.Headline.{IsCounted, RunsAs};
ghost use Rattle.optcheck_cli.specs.Inner.{EndsJudging, IsSaid, IsSinkFault, Says, SaysVerdict, TellsVerdict};
ghost use Rattle.optcheck_cli.specs.Lines.{halt_line, status_of};
ghost use Rattle.optcheck_cli.specs.Outside.{seen};
ghost use Rattle.optcheck_cli.specs.Read.{IsSound, asked_read};
ghost use Rattle.optcheck_cli.specs.Words.{asked_of};

use crate::CheckStatus;
use crate::found::find;
use crate::halt::{End, Halt};
use crate::reading::request;
use crate::say::{said_of, say};
use crate::verdict::judge;
use crate::words::Asked;
use certificate_texts::Cert;
use memory::Memory;
use solver_io::{Folder, Sink};
use std::alloc::Global;
use workbook::Workbook;

const USAGE: &str = "usage: optcheck --names FILE --cert FILE FILE...\n";

/// Reads the files that the words name, checks the certificate for the sheet of the first sheet's file, and prints one line. A yes means
/// that the claim is true of that sheet by recalculation.
pub fn check_run<F: Folder, K: Sink>(
    alloc: Global,
    words: &[String],
    folder: &mut F,
    out: &mut K,
) -> CheckStatus
    ensures headline { RunsAs (asked_of (texts_of words.now))
        (seen (F.content folder.old) (F.read_faults folder.old) (F.write_faults folder.old)
        (F.write_wants folder.old) (K.pieces out.old) (K.faults out.old))
        (seen (F.content folder.new) (F.read_faults folder.new) (F.write_faults folder.new)
        (F.write_wants folder.new) (K.pieces out.new) (K.faults out.new))
        result }
    ensures exactly { EndsExactly (asked_of (texts_of words.now)) (F.content folder.old) result }
    ensures counts { IsCounted
        (seen (F.content folder.old) (F.read_faults folder.old) (F.write_faults folder.old)
        (F.write_wants folder.old) (K.pieces out.old) (K.faults out.old))
        (seen (F.content folder.new) (F.read_faults folder.new) (F.write_faults folder.new)
        (F.write_wants folder.new) (K.pieces out.new) (K.faults out.new))
        result }
    ensures complete { IsComplete (asked_of (texts_of words.now))
        (seen (F.content folder.old) (F.read_faults folder.old) (F.write_faults folder.old)
        (F.write_wants folder.old) (K.pieces out.old) (K.faults out.old))
        (seen (F.content folder.new) (F.read_faults folder.new) (F.write_faults folder.new)
        (F.write_wants folder.new) (K.pieces out.new) (K.faults out.new))
        result }
{
    match request(alloc, words) {
        Ok(Some(asked)) => check_files(alloc, &asked, folder, out),
        Ok(None) => say(out, USAGE, CheckStatus::Usage),
        Err(_) => CheckStatus::Memory,
    }
}

// The check of what the words ask for.
fn check_files<F: Folder, K: Sink>(
    alloc: Global,
    asked: &Asked,
    folder: &mut F,
    out: &mut K,
) -> CheckStatus
    requires { IsSound asked.now }
    ensures { RunsThrough (Some (asked_read asked.now))
        (seen (F.content folder.old) (F.read_faults folder.old) (F.write_faults folder.old)
        (F.write_wants folder.old) (K.pieces out.old) (K.faults out.old))
        (seen (F.content folder.new) (F.read_faults folder.new) (F.write_faults folder.new)
        (F.write_wants folder.new) (K.pieces out.new) (K.faults out.new))
        result }
{
    match find(alloc, asked, folder) {
        Ok((book, cert)) => say_verdict(alloc, &book, &cert, out),
        Err(End::Halted(halt)) => say_halt(alloc, asked, halt, out),
        Err(End::Failed) => CheckStatus::ReadFault,
        Err(End::Memory) => CheckStatus::Memory,
    }
}

// Checks the certificate, and prints what is found of it.
fn say_verdict<K: Sink>(alloc: Global, book: &Workbook, cert: &Cert, out: &mut K) -> CheckStatus
    requires { 0 < length book.now.sheets }
    ensures says { (c : Certificate) → IsTheCert cert.now c
        → SaysVerdict book.now c (K.pieces out.old) (K.pieces out.new) result }
    ensures ends { EndsJudging result }
    ensures cause { IsSinkFault (K.faults out.old) (K.faults out.new) result }
{
    match told(alloc, book, cert) {
        Ok((line, status)) => say(out, line.as_str(), status),
        Err(_) => CheckStatus::Memory,
    }
}

// The line that says what is found of the certificate, and the status that goes with it.
fn told(alloc: Global, book: &Workbook, cert: &Cert) -> Result<(String, CheckStatus), Memory>
    requires { 0 < length book.now.sheets }
    ensures tells { IfOk result (λ t. (c : Certificate) → IsTheCert cert.now c
        → TellsVerdict book.now c (string_bytes t.0) t.1) }
    ensures judged { IfOk result (λ t. IsJudged t.1) }
    ensures said { IfOk result (λ t. IsSaid t.1) }
{
    let verdict = judge(alloc, book, cert)?;
    said_of(alloc, &verdict, cert, book.sheets())
}

// Prints why a run ends before the check.
fn say_halt<K: Sink>(alloc: Global, asked: &Asked, halt: Halt, out: &mut K) -> CheckStatus
    ensures says { Says (halt_line (asked_read asked.now) halt)
        (status_of halt) (K.pieces out.old) (K.pieces out.new) result }
    ensures cause { IsSinkFault (K.faults out.old) (K.faults out.new) result }
{
    match halt.line(alloc, asked) {
        Ok(line) => say(out, line.as_str(), halt.status()),
        Err(_) => CheckStatus::Memory,
    }
}
