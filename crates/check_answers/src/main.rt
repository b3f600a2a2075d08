// What checks over files in memory print, and how they end.
//
// Standard input has cases, each a check, and standard output has what must come of each. A line of standard input is one of these:
//
//     case NAME         begins a case; the name says what it shows
//     words WORD ..     the words of its command line, with blanks between
//     with NAME         the shared files of this name are files of the case; a file of its own takes the place of one of them
//     fails F P         the calls of the folder and of the printer that fail, each counted from 0
//     cuts NAME         the case is many runs: the file of this name is cut behind each of its bytes
//     file NAME         begins a file
//     shared NAME       begins files that cases may share, by `file` lines behind it
//     |TEXT             a line of the file that was begun, and the line feed at its end
//     >TEXT             bytes of it with no line feed at their end; \n and \x and two digits are a byte each, so \x5c is a backslash
//     times N TEXT      such bytes N times
//     numbered N TEXT   the same, with the number of each time, from 0, in the place of #
//     # TEXT            a remark; so is an empty line
//
// For each case this is printed:
//
//     case NAME
//     |TEXT             a line that the run prints, or >TEXT where the former can't say it
//     status NUMBER     how the run ends
//
// For a case of many runs the lines behind `case` are these, once for each way in which some of the runs come out:
//
//     N runs, first NAME PLACE     how many these are; the file and the place of the first cut, from 0
//     |TEXT                        what each prints
//     status NUMBER
//
// A line of standard input of another form is printed behind `can't be read:`.
//
// Behind the cases comes a run over the real thing, with the words of this program's own command line. One of them is no UTF-8, as no
// case can say it, so that the usage is printed and the program ends in 2.
#![tactic(auto)]

mod cases;
mod running;

use cases::Cases;
use optcheck_cli::{check_here, check_surroundings};
use std::io;
use std::io::{BufRead, BufReader};
use std::process::ExitCode;

fn main(rt: HostRuntime) -> ExitCode {
    if print_answers(&rt).is_err() {
        return ExitCode::FAILURE;
    }
    match check_surroundings(rt) {
        Ok(mut surroundings) => check_here(&mut surroundings),
        Err(code) => code,
    }
}

// Prints what comes of each case of standard input.
fn print_answers(rt: &HostRuntime) -> io::Result<()> {
    let alloc = rt.alloc();
    let mut cases = Cases::new(alloc);
    for line in BufReader::new(alloc, rt.reader())?.lines(alloc) {
        let line = line?;
        if line.starts_with("case ") || line.starts_with("shared ") {
            print_answer(rt, &mut cases)?;
        }
        if !cases.take(&line)? {
            println!(rt; "can't be read: {line}")?;
        }
    }
    print_answer(rt, &mut cases)
}

// Prints what comes of the case that has been read, if one has been.
fn print_answer(rt: &HostRuntime, cases: &mut Cases) -> io::Result<()> {
    let Some(case) = cases.end() else {
        return Ok(());
    };
    let mut answer = String::new(rt.alloc());
    running::show(rt.alloc(), &case, &mut answer)?;
    print!(rt; "{answer}")
}
