// The program: a run over the command line, the working directory, standard input and standard output.
// `main` calls `here` of `real_run`, which makes these surroundings, and `run_here`, which runs over them. It ends with the exit code that
// either gives.
// Below it stands `real_run` alone. Nothing stands above it.
// Its words, files and statuses are written in docs/FORMATS.md, its commands in docs/COMMANDS.md. All of them are the program's own, but
// for CSV, OpenFormula and the names of Excel's Solver.
#![tactic(auto)]

use real_run::{here, run_here};
use std::process::ExitCode;

fn main(rt: HostRuntime) -> ExitCode {
    match here(rt) {
        Ok(mut surroundings) => run_here(&mut surroundings),
        Err(code) => code,
    }
}
