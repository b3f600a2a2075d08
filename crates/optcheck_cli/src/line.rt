// The command line as one simple command, and what it gives of words.
ghost use Rattle.std.specs.Prelude.{◌≡◌, IfOk, codes, false, map, option_map};
ghost use Rattle.clap.specs.Words.{all_of, app_of, first_of, rule_of};
ghost use Rattle.command_line.specs.Given.{given};
ghost use Rattle.command_line.specs.Line.{option_rule};
ghost use Rattle.command_line.specs.Words.{files_in, texts_of};
ghost use Rattle.optcheck_cli.specs.Given.{ReadsWords};
ghost use Rattle.optcheck_cli.specs.Line.{the_app};

use clap::error::ErrorKind;
use clap::{Arg, ArgAction, ArgMatches, Command};
use memory::Memory;
use std::alloc::{AllocError, Global};

/// What the command gives of the words; none exactly where it refuses them.
pub(crate) fn matches_in<'a>(
    alloc: Global,
    words: &'a [String],
) -> Result<Option<ArgMatches<'a>>, Memory>
    ensures { IfOk result (ReadsWords (texts_of words.entry.now)) }
{
    let command = the_command(alloc)?;
    match command.try_get_matches_from(words) {
        Ok(matches) => Ok(Some(matches)),
        Err(error) => {
            if error.kind() == ErrorKind::OutOfMemory {
                Err(Memory)
            } else {
                Ok(None)
            }
        }
    }
}

/// The value of the option.
pub(crate) fn value_of<'a>(matches: &ArgMatches<'a>, name: &str) -> Option<&'a str>
    ensures { option_map (λ s. s.now) result ≡ first_of name.now (given matches.now) }
{
    matches.get_str(name)
}

/// The files, copied.
pub(crate) fn files_in(alloc: Global, matches: &ArgMatches<'_>) -> Result<Vec<String>, AllocError>
    ensures { IfOk result (λ v. texts_of v.items ≡ files_in (given matches.now)) }
{
    match file_words(matches) {
        Some(files) => copies_of(alloc, files),
        None => Ok(Vec::new(alloc)),
    }
}

// Copies of the texts.
fn copies_of(alloc: Global, texts: &[&str]) -> Result<Vec<String>, AllocError>
    ensures { IfOk result (λ v. texts_of v.items ≡ map (λ t. t.now) texts.now) }
{
    let mut copies = Vec::new(alloc);
    for text in texts {
        copies.push(String::from_str(alloc, text)?)?;
    }
    Ok(copies)
}

// The words that stand without an option, if there are some.
fn file_words<'b, 'a>(matches: &'b ArgMatches<'a>) -> Option<&'b [&'a str]>
    ensures { option_map (λ s. map (λ f. f.now) s.now) result
        ≡ all_of (codes "files") (given matches.now) }
{
    matches.get_strs("files")
}

// The command: two options that take a value, and files. It has no flags for help and for a version, and no rules of its own.
fn the_command<'a>(alloc: Global) -> Result<Command<'a>, AllocError>
    ensures { IfOk result (λ c. app_of c ≡ the_app) }
{
    let files = Arg::new(alloc, "files").action(ArgAction::Append);
    let bare = Command::new(alloc, "optcheck")
        .no_binary_name(true)
        .disable_help_flag(true)
        .disable_version_flag(true);
    bare.arg(option(alloc, "names"))?
        .arg(option(alloc, "cert"))?
        .arg(files)
}

// An option that takes one value.
fn option<'a>(alloc: Global, name: &'a str) -> Arg<'a>
    ensures rule { rule_of result ≡ option_rule name.entry.now }
    ensures local { result.global ≡ false }
{
    Arg::new(alloc, name).long(name).action(ArgAction::Set)
}
