// The solve of a workbook that is made up.
ghost use Rattle.std.specs.Prelude.{◌≡◌, ◌≤◌, ◌<◌, ◌∷◌, [], IfOk, string_bytes};
ghost use Rattle.commands.specs.Commands.{Solve, spoken};
ghost use Rattle.commands.specs.Lines.{CanBeSaid, is_refusal};
ghost use Rattle.command_line.specs.Words.{default_budget, most_made_up};
ghost use Rattle.made_up_books.specs.MadeUp.{made_up, sheet_name};
ghost use Rattle.opensolver_cli.specs.Answering.{AnswersSize, IsSinkFault, SolvesSize};
ghost use Rattle.opensolver_cli.specs.MadeUp.{made_up_line};
ghost use Rattle.session.specs.States.{opened};

use crate::Status;
use crate::answer::say;
use crate::counted::{Beginning, CountedSession};
use command_line::DEFAULT_BUDGET;
use itoa::Buffer;
use made_up_books::made_up;
use node_pick::Picker;
use session::{Answer, Command, Memory, line};
use solver_io::Sink;
use std::alloc::Global;
use std::marker::Brand;
use std::sync::ledger::{Blank, Ledger};

/// Solves the sheet of the workbook of this size, and prints one line.
pub(crate) fn solve_made_up<K: Sink>(
    alloc: Global,
    size: u8,
    out: &mut K,
    pick: &mut Box<dyn Picker>,
) -> Status
    requires some { 1 ≤ size }
    requires few { size ≤ most_made_up }
    ensures solves { SolvesSize (rule pick.old) size (K.pieces out.old) (K.pieces out.new) result }
    ensures cause { IsSinkFault (K.faults out.old) (K.faults out.new) result }
{
    let Ok((text, refused)) = answer_to(alloc, size, pick) else {
        return Status::Memory;
    };
    let status = if refused {
        Status::Refused
    } else {
        Status::Done
    };
    say(out, text.as_str(), status)
}

// The line of the answer, and whether this is a refusal.
fn answer_to(alloc: Global, size: u8, pick: &mut Box<dyn Picker>) -> Result<(String, bool), Memory>
    requires some { 1 ≤ size }
    requires few { size ≤ most_made_up }
    ensures { IfOk result (λ said. AnswersSize (rule pick.old) size (string_bytes said.0) said.1) }
{
    answer_counted::<Brand>(alloc, Blank::new(1), size, pick)
}

// The line and whether it is a refusal, with what the counter of forms begins with.
fn answer_counted<L: Ledger>(
    alloc: Global,
    blank: Blank,
    size: u8,
    pick: &mut Box<dyn Picker>,
) -> Result<(String, bool), Memory>
    requires name { blank.name ≡ L.name }
    requires parts { blank.parts ≡ L.parts }
    requires counted { 0 < blank.parts }
    requires some { 1 ≤ size }
    requires few { size ≤ most_made_up }
    ensures { IfOk result (λ said. AnswersSize (rule pick.old) size (string_bytes said.0) said.1) }
{
    let book = made_up(alloc, size)?;
    let beginning = Beginning { book, blank };
    let mut session = CountedSession::<L>::open(alloc, beginning, DEFAULT_BUDGET)?;
    answer_over(alloc, size, &mut session, pick)
}

// The line and whether it is a refusal, over the session that was opened.
fn answer_over<L: Ledger>(
    alloc: Global,
    size: u8,
    session: &mut CountedSession<L>,
    pick: &mut Box<dyn Picker>,
) -> Result<(String, bool), Memory>
    requires opened { session.now.state ≡ opened (made_up size) default_budget }
    ensures solves { IfOk result (λ said. AnswersSize (rule pick.old) size (string_bytes said.0) said.1) }
{
    let command = Command::Solve(String::from_str(alloc, "gen")?);
    answer_command(alloc, size, &command, session, pick)
}

// The line and whether it is a refusal, by the command to solve the sheet.
fn answer_command<L: Ledger>(
    alloc: Global,
    size: u8,
    command: &Command,
    session: &mut CountedSession<L>,
    pick: &mut Box<dyn Picker>,
) -> Result<(String, bool), Memory>
    requires opened { session.now.state ≡ opened (made_up size) default_budget }
    requires solve { spoken command.now ≡ Solve sheet_name }
    ensures solves { IfOk result (λ said. AnswersSize (rule pick.old) size (string_bytes said.0) said.1) }
{
    let answer = session.session.apply(command, pick, &mut session.steps)?;
    line_of(alloc, size, &answer, session)
}

// The line of an answer, before which the size comes, and whether the answer is a refusal.
fn line_of<L: Ledger>(
    alloc: Global,
    size: u8,
    answer: &Answer,
    session: &CountedSession<L>,
) -> Result<(String, bool), Memory>
    requires sheets { session.now.state.book.sheets ≡ sheet_name ∷ [] }
    requires said { CanBeSaid session.now.state.book.sheets answer.now }
    ensures line { IfOk result (λ said. string_bytes said.0 ≡ made_up_line size answer.now) }
    ensures refusal { IfOk result (λ said. said.1 ≡ is_refusal (sheet_name ∷ []) answer.now) }
{
    let mut text = String::from_str(alloc, "gen ")?;
    let mut digits = Buffer::new();
    text.push_str(digits.format(size))?;
    text.push_str(" ")?;
    let said = line(alloc, answer, session.sheets())?;
    text.push_str(said.as_str())?;
    Ok((text, answer.is_refusal()))
}
