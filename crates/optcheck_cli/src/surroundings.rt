// What a check is handed, all in one, and the run over it.
ghost use Rattle.std.specs.Prelude.{◌≡◌, IfErr, IfOk};
ghost use Rattle.optcheck_cli.specs.Exits.{RunsToEnd, Tells};
ghost use Rattle.optcheck_cli.specs.Surroundings.{untouched};
ghost use Rattle.optcheck_cli.specs.declared.status.CheckStatus.TheVariants as status;

use crate::CheckStatus;
use crate::real::{check_for_real, exit_code};
use solver_io::{DirFolder, Folder, OutSink, Sink};
use std::alloc::{AllocError, AllocGlobal};
use std::env;
use std::io::ErrorKind;
use std::marker::Model;
use std::process::ExitCode;
use std::rt::Runtime;

/// The words of a command line, with a folder and a sink. Which ones they are is settled where they are made.
#[derive(Drop)]
pub struct CheckSurroundings<F: Folder, K: Sink> {
    words: Vec<String>,
    folder: F,
    out: K,
}

impl<F: Folder, K: Sink> Model for CheckSurroundings<F, K> {
    ghost use Rattle.command_line.specs.Words.{texts_of};
    ghost use Rattle.optcheck_cli.specs.Outside.{seen};
    ghost use Rattle.optcheck_cli.specs.Surroundings.{Surrounded, surrounded_code};

    ghost Value = { Surrounded };

    ghost coded = { surrounded_code };

    ghost view = { λ s. record {
      words = texts_of s.words.items;
      outside = seen (F.content s.folder) (F.read_faults s.folder) (F.write_faults s.folder) (F.write_wants s.folder)
          (K.pieces s.out) (K.faults s.out);
    } };
}

/// Checks over its surroundings, and gives the exit code in which the program ends: the number of one status, as which the run goes over
/// these words, from what is seen of the folder and the sink before it to what is seen behind it.
pub fn check_here<F: Folder, K: Sink>(here: &mut CheckSurroundings<F, K>) -> ExitCode
    ensures runs { Tells (RunsToEnd here.old.words here.old.outside here.new.outside) result }
    ensures words { here.new.words ≡ here.old.words }
{
    let alloc = *here.words.allocator();
    check_for_real(
        alloc,
        here.words.as_slice(),
        &mut here.folder,
        &mut here.out,
    )
}

/// The words of the program's own command line, with the working directory and standard output; or the exit code where there is no
/// memory for them. A contract can't say which words and bytes these are, since the runtime tells none of them.
pub fn check_surroundings<R: Runtime + AllocGlobal>(
    rt: R,
) -> Result<CheckSurroundings<DirFolder<R>, OutSink<R>>, ExitCode>
    ensures ok { IfOk result (λ made. made.outside ≡ untouched) }
    ensures err { IfErr result (Tells (λ ends. ends ≡ status.Memory)) }
{
    real_surroundings(rt).map_err(|_| exit_code(CheckStatus::Memory))
}

// The words and the real folder and output; an `Err` is want of memory.
fn real_surroundings<R: Runtime + AllocGlobal>(
    rt: R,
) -> Result<CheckSurroundings<DirFolder<R>, OutSink<R>>, AllocError>
    ensures { IfOk result (λ made. made.outside ≡ untouched) }
{
    Ok(CheckSurroundings {
        words: words(&rt)?,
        folder: DirFolder::new(rt.clone()?),
        out: OutSink::new(rt.clone()?),
    })
}

// The words behind the program's name; no words, which are no command line, where one of them is no text.
fn words<R: Runtime + AllocGlobal>(rt: &R) -> Result<Vec<String>, AllocError> {
    match env::args(rt) {
        Ok(words) => words.skip(1).collect(rt.alloc()),
        Err(error) => {
            if error.kind() == ErrorKind::OutOfMemory {
                Err(AllocError)
            } else {
                Ok(Vec::new(rt.alloc()))
            }
        }
    }
}
