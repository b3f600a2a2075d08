// The program: a check over the command line, the working directory and standard output.
// `main` calls `check_surroundings` of `optcheck_cli`, which makes these surroundings, and `check_here`, which checks a certificate over
// them. It ends with the exit code that either gives.
// Below it stands `optcheck_cli` alone, and with it no crate that searches. Nothing stands above it.
// What is checked, and what is printed, is written in docs/CERTIFICATES.md; it is the program's own.
#![tactic(auto)]

use optcheck_cli::{check_here, check_surroundings};
use std::process::ExitCode;

fn main(rt: HostRuntime) -> ExitCode {
    match check_surroundings(rt) {
        Ok(mut surroundings) => check_here(&mut surroundings),
        Err(code) => code,
    }
}
