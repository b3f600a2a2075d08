// The command line as one simple command, and what it gives of words.
ghost use Rattle.std.specs.Prelude.{◌≡◌, IfOk, codes, false, length, map, nat_lt, option_map};
ghost use Rattle.clap.specs.Words.{all_of, app_of, first_of, rule_of};
ghost use Rattle.command_line.specs.Given.{ReadsWords, given};
ghost use Rattle.command_line.specs.Line.{option_rule, the_app};
ghost use Rattle.command_line.specs.Words as line;

use clap::error::ErrorKind;
use clap::{Arg, ArgAction, ArgMatches, Command};
use memory::Memory;
use std::alloc::{AllocError, Global};

/// What the command gives of the words; none exactly where it refuses them.
pub(crate) fn matches_in<'a>(
    alloc: Global,
    words: &'a [String],
) -> Result<Option<ArgMatches<'a>>, Memory>
    ensures { IfOk result (ReadsWords (line.texts_of words.entry.now)) }
{
    let command = the_command(alloc)?;
    match command.try_get_matches_from(words) {
        Ok(matches) => Ok(Some(matches)),
        Err(error) => {
            if error.kind() == ErrorKind::OutOfMemory {
                Err(Memory)
            } else {
                Ok(None)
            }
        }
    }
}

/// The value of the option.
pub(crate) fn value_of<'a>(matches: &ArgMatches<'a>, name: &str) -> Option<&'a str>
    ensures { option_map (λ s. s.now) result ≡ first_of name.now (given matches.now) }
{
    matches.get_str(name)
}

/// The files, copied.
pub(crate) fn files_in(alloc: Global, matches: &ArgMatches<'_>) -> Result<Vec<String>, AllocError>
    ensures { IfOk result (λ v. line.texts_of v.items ≡ line.files_in (given matches.now)) }
{
    match file_words(matches) {
        Some(files) => copies_of(alloc, files),
        None => Ok(Vec::new(alloc)),
    }
}

// Copies of the texts.
fn copies_of(alloc: Global, texts: &[&str]) -> Result<Vec<String>, AllocError>
    ensures { IfOk result (λ v. line.texts_of v.items ≡ map (λ t. t.now) texts.now) }
{
    let mut copies = Vec::new(alloc);
    for text in texts {
        copies.push(String::from_str(alloc, text)?)?;
    }
    Ok(copies)
}

/// Whether anything but the size of a workbook that is made up is given.
pub(crate) fn more_is_given(matches: &ArgMatches<'_>) -> bool
    ensures { result ≡ line.more_is_given (given matches.now) }
{
    is_given(matches, "names")
        || is_given(matches, "budget")
        || is_given(matches, "pick")
        || has_files(matches)
}

// Whether there is a file.
fn has_files(matches: &ArgMatches<'_>) -> bool
    ensures { result ≡ nat_lt 0 (length (line.files_in (given matches.now))) }
{
    match file_words(matches) {
        Some(files) => !files.is_empty(),
        None => false,
    }
}

// The words that stand without an option, if there are some.
fn file_words<'b, 'a>(matches: &'b ArgMatches<'a>) -> Option<&'b [&'a str]>
    ensures { option_map (λ s. map (λ f. f.now) s.now) result
        ≡ all_of (codes "files") (given matches.now) }
{
    matches.get_strs("files")
}

// Whether the option is given.
fn is_given(matches: &ArgMatches<'_>, name: &str) -> bool
    ensures { result ≡ line.is_given (given matches.now) name.now }
{
    value_of(matches, name).is_some()
}

/// The command: four options that take a value, and files. It has no flags for help and for a version, and no rules of its own.
pub(crate) fn the_command<'a>(alloc: Global) -> Result<Command<'a>, AllocError>
    ensures { IfOk result (λ c. app_of c ≡ the_app) }
{
    let files = Arg::new(alloc, "files").action(ArgAction::Append);
    let bare = Command::new(alloc, "opensolver")
        .no_binary_name(true)
        .disable_help_flag(true)
        .disable_version_flag(true);
    bare.arg(option(alloc, "names"))?
        .arg(option(alloc, "budget"))?
        .arg(option(alloc, "pick"))?
        .arg(option(alloc, "gen"))?
        .arg(files)
}

// An option that takes one value.
fn option<'a>(alloc: Global, name: &'a str) -> Arg<'a>
    ensures rule { rule_of result ≡ option_rule name.entry.now }
    ensures local { result.global ≡ false }
{
    Arg::new(alloc, name).long(name).action(ArgAction::Set)
}
