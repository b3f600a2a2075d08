// What a run is handed, all in one, and the run over it.
ghost use Rattle.std.specs.Prelude.{◌≡◌, IfErr, IfOk};
ghost use Rattle.real_run.specs.Exits.{IsEnd, RunsToEnd, Tells};
ghost use Rattle.real_run.specs.Surroundings.{untouched};
ghost use Rattle.run_inputs.specs.declared.status.Status.TheVariants as status;

use crate::{exit_code, run_for_real};
use opensolver_cli::Status;
use solver_io::{DirFolder, Folder, InSource, OutSink, Sink, Source};
use std::alloc::{AllocError, AllocGlobal};
use std::env;
use std::io::ErrorKind;
use std::marker::Model;
use std::process::ExitCode;
use std::rt::Runtime;

/// The words of a command line, with a folder, a script and a sink. Which ones they are is settled where they are made.
#[derive(Drop)]
pub struct Surroundings<F: Folder, S: Source, K: Sink> {
    words: Vec<String>,
    folder: F,
    script: S,
    out: K,
}

impl<F: Folder, S: Source, K: Sink> Model for Surroundings<F, S, K> {
    ghost use Rattle.opensolver_cli.specs.FromCommandLine.{texts_of};
    ghost use Rattle.opensolver_cli.specs.Outside.{seen};
    ghost use Rattle.real_run.specs.Surroundings.{Surrounded, surrounded_code};

    ghost Value = { Surrounded };

    ghost coded = { surrounded_code };

    ghost view = { λ s. record {
      words = texts_of s.words.items;
      outside = seen (F.content s.folder) (F.read_faults s.folder) (F.write_faults s.folder) (F.write_wants s.folder)
          (S.left s.script) (S.faults s.script) (K.pieces s.out) (K.faults s.out);
    } };
}

/// Runs over its surroundings, and gives the exit code in which the program ends: the number of one status, as which the run goes over
/// these words, from what is seen of the folder, the script and the sink before it to what is seen behind it.
pub fn run_here<F: Folder, S: Source, K: Sink>(here: &mut Surroundings<F, S, K>) -> ExitCode
    ensures runs { Tells (RunsToEnd here.old.words here.old.outside here.new.outside) result }
    ensures words { here.new.words ≡ here.old.words }
    ensures end { Tells IsEnd result }
{
    let alloc = *here.words.allocator();
    run_for_real(
        alloc,
        here.words.as_slice(),
        &mut here.folder,
        &mut here.script,
        &mut here.out,
    )
}

/// The words of the program's own command line, with the working directory, standard input and standard output; or the exit code where
/// there is no memory for them. A contract can't say which words and bytes these are, since the runtime tells none of them.
pub fn here<R: Runtime + AllocGlobal>(
    rt: R,
) -> Result<Surroundings<DirFolder<R>, InSource<R>, OutSink<R>>, ExitCode>
    ensures ok { IfOk result (λ made. made.outside ≡ untouched) }
    ensures err { IfErr result (Tells (λ ends. ends ≡ status.Memory)) }
{
    real_surroundings(rt).map_err(|_| exit_code(Status::Memory))
}

// The words and the real folder, input and output; an `Err` is want of memory.
fn real_surroundings<R: Runtime + AllocGlobal>(
    rt: R,
) -> Result<Surroundings<DirFolder<R>, InSource<R>, OutSink<R>>, AllocError>
    ensures { IfOk result (λ made. made.outside ≡ untouched) }
{
    Ok(Surroundings {
        words: words(&rt)?,
        folder: DirFolder::new(rt.clone()?),
        script: InSource::new(rt.clone()?),
        out: OutSink::new(rt.clone()?),
    })
}

// The words behind the program's name; no words, which are no command line, where one of them is no text.
fn words<R: Runtime + AllocGlobal>(rt: &R) -> Result<Vec<String>, AllocError> {
    match env::args(rt) {
        Ok(words) => words.skip(1).collect(rt.alloc()),
        Err(error) => {
            if error.kind() == ErrorKind::OutOfMemory {
                Err(AllocError)
            } else {
                Ok(Vec::new(rt.alloc()))
            }
        }
    }
}
