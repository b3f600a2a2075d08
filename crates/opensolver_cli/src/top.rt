// The top call.
ghost use Rattle.std.specs.Prelude.{◌≡◌, ◌<◌, ◌≤◌, All, Some, length, map, option_map, slice_get, string_bytes, true};
ghost use Rattle.cell_refs.specs.declared.units.TheConstants.{MOST_UNITS};
ghost use Rattle.opensolver_cli.specs.Answering.{IsSinkFault, Says};
ghost use Rattle.opensolver_cli.specs.Completeness.{EndsExactly, IsComplete};
ghost use Rattle.opensolver_cli.specs.Headline.{IsCounted, RunsAs, RunsScript, rule_of};
ghost use Rattle.opensolver_cli.specs.Outside.{seen};
ghost use Rattle.run_inputs.specs.Stops.{status_of, stop_line};
ghost use Rattle.command_line.specs.Words.{Script, asked_of, is_sheet, texts_of};
ghost use Rattle.command_line.specs.Read.{job_read, named_of, pick_read};

use crate::Status;
use crate::answer::{answer_records, say};
use crate::made_up::solve_made_up;
use command_line::{Asked, Job, Named, Pick, request};
use node_pick::Picker;
use run_inputs::{End, Stop, find};
use solver_io::{Folder, Sink, Source};
use std::alloc::Global;

const USAGE: &str =
    "usage: opensolver --names FILE [--budget N] [--pick depth|best|oldest] FILE...\n";

/// Reads the files that the words name and the script to its end, answers each record of the script, and writes the files that it
/// saves. The three pickers are those for the deepest node, for the greatest bound and for the least number; the words say which of
/// them a search asks, and the others are let go.
pub fn run<F: Folder, S: Source, K: Sink>(
    alloc: Global,
    words: &[String],
    folder: &mut F,
    script: &mut S,
    out: &mut K,
    pickers: Vec<Box<dyn Picker>>,
) -> Status
    requires three { length pickers.items ≡ 3 }
    ensures headline { RunsAs (map (λ p. rule p) pickers.items) (asked_of (texts_of words.now))
        (seen (F.content folder.old) (F.read_faults folder.old)
        (F.write_faults folder.old) (F.write_wants folder.old) (S.left script.old)
        (S.faults script.old) (K.pieces out.old) (K.faults out.old))
        (seen (F.content folder.new) (F.read_faults folder.new)
        (F.write_faults folder.new) (F.write_wants folder.new) (S.left script.new)
        (S.faults script.new) (K.pieces out.new) (K.faults out.new))
        result }
    ensures exactly { EndsExactly (asked_of (texts_of words.now))
        (F.content folder.old) (S.left script.old) result }
    ensures counts { IsCounted
        (seen (F.content folder.old) (F.read_faults folder.old)
        (F.write_faults folder.old) (F.write_wants folder.old) (S.left script.old)
        (S.faults script.old) (K.pieces out.old) (K.faults out.old))
        (seen (F.content folder.new) (F.read_faults folder.new)
        (F.write_faults folder.new) (F.write_wants folder.new) (S.left script.new)
        (S.faults script.new) (K.pieces out.new) (K.faults out.new))
        result }
    ensures complete { IsComplete (asked_of (texts_of words.now))
        (seen (F.content folder.old) (F.read_faults folder.old)
        (F.write_faults folder.old) (F.write_wants folder.old) (S.left script.old)
        (S.faults script.old) (K.pieces out.old) (K.faults out.old))
        (seen (F.content folder.new) (F.read_faults folder.new)
        (F.write_faults folder.new) (F.write_wants folder.new) (S.left script.new)
        (S.faults script.new) (K.pieces out.new) (K.faults out.new))
        result }
{
    let asked = match request(alloc, words) {
        Ok(Some(asked)) => asked,
        Ok(None) => return say(out, USAGE, Status::Usage),
        Err(_) => return Status::Memory,
    };
    match asked {
        Asked::Script(job) => {
            let mut pick = picker_of(pickers, job.pick);
            run_job(alloc, &job, folder, script, out, &mut pick)
        }
        Asked::MadeUp(size) => {
            let mut pick = picker_of(pickers, Pick::Depth);
            solve_made_up(alloc, size, out, &mut pick)
        }
    }
}

// The picker at a place, where there is one; the others are let go.
fn picker_at(pickers: Vec<Box<dyn Picker>>, place: usize) -> Option<Box<dyn Picker>>
    ensures { option_map (λ p. rule p) result
        ≡ slice_get (map (λ p. rule p) pickers.items) place }
{
    let mut pickers = pickers;
    if place < pickers.len() {
        Some(pickers.swap_remove(place))
    } else {
        None
    }
}

// The picker that is asked for.
fn picker_of(pickers: Vec<Box<dyn Picker>>, pick: Pick) -> Box<dyn Picker>
    requires three { length pickers.items ≡ 3 }
    ensures { rule result ≡ rule_of (map (λ p. rule p) pickers.items) (pick_read pick) }
{
    let place = match pick {
        Pick::Depth => 0,
        Pick::Best => 1,
        Pick::Oldest => 2,
    };
    match picker_at(pickers, place) {
        Some(picker) => picker,
        None => unreachable!(),
    }
}

// What the words ask for, by the picker that they ask for.
fn run_job<F: Folder, S: Source, K: Sink>(
    alloc: Global,
    job: &Job,
    folder: &mut F,
    script: &mut S,
    out: &mut K,
    pick: &mut Box<dyn Picker>,
) -> Status
    requires some { 0 < length job.now.named.sheets.items }
    requires sheets { All (λ w. is_sheet (string_bytes w) ≡ true) job.now.named.sheets.items }
    requires few { job.now.budget ≤ MOST_UNITS }
    ensures headline { RunsScript (rule pick.old) (job_read job.now)
        (seen (F.content folder.old) (F.read_faults folder.old)
        (F.write_faults folder.old) (F.write_wants folder.old) (S.left script.old)
        (S.faults script.old) (K.pieces out.old) (K.faults out.old))
        (seen (F.content folder.new) (F.read_faults folder.new)
        (F.write_faults folder.new) (F.write_wants folder.new) (S.left script.new)
        (S.faults script.new) (K.pieces out.new) (K.faults out.new))
        result }
    ensures exactly { EndsExactly (Some (Script (job_read job.now)))
        (F.content folder.old) (S.left script.old) result }
    ensures counts { IsCounted
        (seen (F.content folder.old) (F.read_faults folder.old)
        (F.write_faults folder.old) (F.write_wants folder.old) (S.left script.old)
        (S.faults script.old) (K.pieces out.old) (K.faults out.old))
        (seen (F.content folder.new) (F.read_faults folder.new)
        (F.write_faults folder.new) (F.write_wants folder.new) (S.left script.new)
        (S.faults script.new) (K.pieces out.new) (K.faults out.new))
        result }
{
    match find(alloc, &job.named, folder, script) {
        Ok((book, rows)) => answer_records(alloc, book, job, &rows, folder, out, pick),
        Err(End::Stopped(stop)) => say_stop(alloc, &job.named, stop, out),
        Err(End::Failed) => Status::ReadFault,
        Err(End::Memory) => Status::Memory,
    }
}

// Prints why a run ends before the first record.
fn say_stop<K: Sink>(alloc: Global, named: &Named, stop: Stop, out: &mut K) -> Status
    ensures says { Says (stop_line (named_of named.now) stop)
        (status_of stop) (K.pieces out.old) (K.pieces out.new) result }
    ensures cause { IsSinkFault (K.faults out.old) (K.faults out.new) result }
{
    match stop.line(alloc, named) {
        Ok(line) => say(out, line.as_str(), stop.status()),
        Err(_) => Status::Memory,
    }
}
