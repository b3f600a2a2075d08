// What runs over files and scripts in memory print, how they end, and which files they change.
//
// Standard input has cases, each a run, and standard output has what must come of each. A line of standard input is one of these:
//
//     case NAME         begins a case; the name says what it shows
//     words WORD ..     the words of its command line, with blanks between; one with blanks, or of no letters, stands in quotes, as ''
//     with NAME         the shared files of this name are files of the case
//     fails F S P       the calls of the folder, of the script's source and of the printer that fail, each counted from 0
//     damage cuts       the case is many runs: each of its files, and its script, is cut behind each of its bytes
//     damage bytes      so it is, and each byte is in turn each of 0, 10, 13, 34, 44, 61, 128 and 255
//     file NAME         begins a file
//     script            begins the script
//     shared NAME       begins files that cases may share, by `file` lines behind it
//     |TEXT             a line of the file or script that was begun, and the line feed at its end
//     >TEXT             bytes of it with no line feed at their end; \n, \r and \x and two digits are a byte each, so \x5c is a backslash
//     times N TEXT      such bytes N times
//     numbered N TEXT   the same, with the number of each time, from 0, in the place of #
//     # TEXT            a remark; so is an empty line
//
// For each case this is printed:
//
//     case NAME
//     |TEXT             a line that the run prints, or >TEXT where the former can't say it
//     status NUMBER     how the run ends
//     file NAME         a file that isn't what it was, with its lines behind it
//
// For a case of many runs the lines behind `case` are these, once for each way in which some of the runs come out:
//
//     N runs, first NAME PLACE     how many these are; the file, or `script`, and the place of the first damage, from 0
//     changed NAME DIGEST          a file that isn't what it was, and a digest of what it holds behind each of these runs
//     status NUMBER
//     >TEXT                        what each prints, spelled
//
// A line of standard input of another form is printed behind `can't be read:`.
//
// Behind the cases comes a run over the real thing, with the words of this program's own command line. One of them is no UTF-8, as no
// case can say it, so that the usage is printed and the program ends in 2.
#![tactic(auto)]

mod cases;
mod damage;
mod lines;
mod outcomes;
mod running;
mod spelling;

use cases::Cases;
use lines::Line;
use real_run::{here, run_here};
use std::io;
use std::io::{BufRead, BufReader};
use std::process::ExitCode;

fn main(rt: HostRuntime) -> ExitCode {
    if print_answers(&rt).is_err() {
        return ExitCode::FAILURE;
    }
    match here(rt) {
        Ok(mut surroundings) => run_here(&mut surroundings),
        Err(code) => code,
    }
}

// Prints what comes of each case of standard input.
fn print_answers(rt: &HostRuntime) -> io::Result<()> {
    let alloc = rt.alloc();
    let mut cases = Cases::new(alloc);
    for text in BufReader::new(alloc, rt.reader())?.lines(alloc) {
        let text = text?;
        let line = Line::of(&text);
        if line.begins_files() {
            print_answer(rt, &mut cases)?;
        }
        if !cases.take(line)? {
            println!(rt; "can't be read: {text}")?;
        }
    }
    print_answer(rt, &mut cases)
}

// Prints what comes of the case that has been read, if one has been.
fn print_answer(rt: &HostRuntime, cases: &mut Cases) -> io::Result<()> {
    let Some(case) = cases.end() else {
        return Ok(());
    };
    let mut answer = String::new(rt.alloc());
    match case.damage {
        None => running::show_run(rt.alloc(), &case, &mut answer)?,
        Some(damage) => damage::show_runs(rt.alloc(), &case, damage, &mut answer)?,
    }
    print!(rt; "{answer}")
}
