//! The run of the program, with the pickers that it has, and the number in which the program ends: over surroundings that are made here,
//! and over words and handles that are handed in.
//! `here` makes the `Surroundings`: the words of the command line, the working directory, standard input and standard output. `run_here`
//! runs over such a value, and `run_for_real` over words and handles that are given.
//! Below it stands `opensolver_cli`, whose `run` it calls with a picker of each rule. Above it stand the program `opensolver`, and
//! `answers`, which runs cases.
//! Which number tells which end is the program's own rule (docs/FORMATS.md).
#![tactic(auto)]

mod surroundings;

ghost use Rattle.std.specs.Prelude.{◌≡◌, ◌∷◌, [], IfOk, OnErr};
ghost use Rattle.std.specs.Process.{exit_status};
ghost use Rattle.node_pick.specs.Rules.{best_first, depth_first, oldest_first};
ghost use Rattle.opensolver_cli.specs.Completeness.{EndsExactly, IsComplete};
ghost use Rattle.opensolver_cli.specs.Headline.{IsCounted, RunsAs};
ghost use Rattle.run_inputs.specs.Numbers.{number_of};
ghost use Rattle.opensolver_cli.specs.Outside.{seen};
ghost use Rattle.real_run.specs.Exits.{RunsToEnd, Tells};
ghost use Rattle.opensolver_cli.specs.FromCommandLine.{asked_of, texts_of};

use node_pick::{Best, Depth, Oldest, Picker};
use opensolver_cli::{Status, run};
use solver_io::{Folder, Sink, Source};
use std::alloc::{AllocError, Global};
use std::process::ExitCode;
pub use surroundings::{Surroundings, here, run_here};

// The exit code that tells how a run ends.
fn exit_code(status: Status) -> ExitCode
    ensures { exit_status result ≡ number_of status }
{
    ExitCode::from(status.number())
}

/// A run with a picker of each rule over the words and handles that are given, and the exit code in which the program ends: the number of
/// one status, as which the run goes.
pub fn run_for_real<F: Folder, S: Source, K: Sink>(
    alloc: Global,
    words: &[String],
    folder: &mut F,
    script: &mut S,
    out: &mut K,
) -> ExitCode
    ensures { Tells (RunsToEnd (texts_of words.now)
        (seen (F.content folder.old) (F.read_faults folder.old)
        (F.write_faults folder.old) (F.write_wants folder.old) (S.left script.old)
        (S.faults script.old) (K.pieces out.old) (K.faults out.old))
        (seen (F.content folder.new) (F.read_faults folder.new)
        (F.write_faults folder.new) (F.write_wants folder.new) (S.left script.new)
        (S.faults script.new) (K.pieces out.new) (K.faults out.new))) result }
{
    match run_with_pickers(alloc, words, folder, script, out) {
        Ok(status) => exit_code(status),
        Err(_) => exit_code(Status::Memory),
    }
}

/// A run with a picker of each rule, each in a box of its own. An `Err` is want of memory for the boxes: then nothing was read.
pub fn run_with_pickers<F: Folder, S: Source, K: Sink>(
    alloc: Global,
    words: &[String],
    folder: &mut F,
    script: &mut S,
    out: &mut K,
) -> Result<Status, AllocError>
    ensures headline { IfOk result (RunsAs (depth_first ∷ best_first ∷ oldest_first ∷ []) (asked_of (texts_of words.now))
        (seen (F.content folder.old) (F.read_faults folder.old)
        (F.write_faults folder.old) (F.write_wants folder.old) (S.left script.old)
        (S.faults script.old) (K.pieces out.old) (K.faults out.old))
        (seen (F.content folder.new) (F.read_faults folder.new)
        (F.write_faults folder.new) (F.write_wants folder.new) (S.left script.new)
        (S.faults script.new) (K.pieces out.new) (K.faults out.new))) }
    ensures exactly { IfOk result
        (EndsExactly (asked_of (texts_of words.now)) (F.content folder.old) (S.left script.old)) }
    ensures counts { IfOk result (IsCounted
        (seen (F.content folder.old) (F.read_faults folder.old)
        (F.write_faults folder.old) (F.write_wants folder.old) (S.left script.old)
        (S.faults script.old) (K.pieces out.old) (K.faults out.old))
        (seen (F.content folder.new) (F.read_faults folder.new)
        (F.write_faults folder.new) (F.write_wants folder.new) (S.left script.new)
        (S.faults script.new) (K.pieces out.new) (K.faults out.new))) }
    ensures complete { IfOk result (IsComplete (asked_of (texts_of words.now))
        (seen (F.content folder.old) (F.read_faults folder.old)
        (F.write_faults folder.old) (F.write_wants folder.old) (S.left script.old)
        (S.faults script.old) (K.pieces out.old) (K.faults out.old))
        (seen (F.content folder.new) (F.read_faults folder.new)
        (F.write_faults folder.new) (F.write_wants folder.new) (S.left script.new)
        (S.faults script.new) (K.pieces out.new) (K.faults out.new))) }
    ensures unread { OnErr result (
        seen (F.content folder.new) (F.read_faults folder.new)
        (F.write_faults folder.new) (F.write_wants folder.new) (S.left script.new)
        (S.faults script.new) (K.pieces out.new) (K.faults out.new)
        ≡ seen (F.content folder.old) (F.read_faults folder.old)
        (F.write_faults folder.old) (F.write_wants folder.old) (S.left script.old)
        (S.faults script.old) (K.pieces out.old) (K.faults out.old)) }
{
    let mut pickers: Vec<Box<dyn Picker>> = Vec::new(alloc);
    pickers.push(Box::new(alloc, Depth)?)?;
    pickers.push(Box::new(alloc, Best)?)?;
    pickers.push(Box::new(alloc, Oldest)?)?;
    let status = run(alloc, words, folder, script, out, pickers);
    Ok(status)
}
