// The run, and the number in which the program ends.
ghost use Rattle.std.specs.Prelude.{◌≡◌};
ghost use Rattle.std.specs.Process.{exit_status};
ghost use Rattle.command_line.specs.Words.{texts_of};
ghost use Rattle.optcheck_cli.specs.Exits.{RunsToEnd, Tells};
ghost use Rattle.optcheck_cli.specs.Numbers.{number_of};
ghost use Rattle.optcheck_cli.specs.Outside.{seen};

use crate::CheckStatus;
use crate::top::check_run;
use solver_io::{Folder, Sink};
use std::alloc::Global;
use std::process::ExitCode;

// The exit code that tells how a run ends.
pub(crate) fn exit_code(status: CheckStatus) -> ExitCode
    ensures { exit_status result ≡ number_of status }
{
    ExitCode::from(status.number())
}

/// A run over the words and handles that are given, and the exit code in which the program ends: the number of one status, as which the
/// run goes.
pub fn check_for_real<F: Folder, K: Sink>(
    alloc: Global,
    words: &[String],
    folder: &mut F,
    out: &mut K,
) -> ExitCode
    ensures { Tells (RunsToEnd (texts_of words.now)
        (seen (F.content folder.old) (F.read_faults folder.old) (F.write_faults folder.old)
        (F.write_wants folder.old) (K.pieces out.old) (K.faults out.old))
        (seen (F.content folder.new) (F.read_faults folder.new) (F.write_faults folder.new)
        (F.write_wants folder.new) (K.pieces out.new) (K.faults out.new))) result }
{
    exit_code(check_run(alloc, words, folder, out))
}
