// How the words of the command line are read.
ghost use Rattle.std.specs.Prelude.{◌≡◌, ◌<◌, All, IfOk, IfSome, codes, length, option_map, string_bytes, true};
ghost use Rattle.std.specs.List.{list_all};
ghost use Rattle.clap.specs.Words.{first_of};
ghost use Rattle.command_line.specs.Given.{given};
ghost use Rattle.command_line.specs.Read.{named_of};
ghost use Rattle.command_line.specs.Words.{files_in, is_sheet, named_by, texts_of};
ghost use Rattle.optcheck_cli.specs.Read.{IsSound, asked_read};
ghost use Rattle.optcheck_cli.specs.Words.{asked_by, asked_of};

use crate::line::{files_in, matches_in, value_of};
use crate::words::Asked;
use clap::ArgMatches;
use command_line::{Named, stem_of};
use memory::Memory;
use std::alloc::Global;

/// What the words ask for; none where they are of another form. The words stand without the program's name.
pub(crate) fn request(alloc: Global, words: &[String]) -> Result<Option<Asked>, Memory>
    ensures asked { IfOk result (λ a. option_map asked_read a ≡ asked_of (texts_of words.now)) }
    ensures sound { IfOk result (λ a. IfSome a IsSound) }
{
    match matches_in(alloc, words)? {
        Some(matches) => asked_in(alloc, &matches),
        None => Ok(None),
    }
}

// The files that are given, where they are of the form.
fn asked_in(alloc: Global, matches: &ArgMatches<'_>) -> Result<Option<Asked>, Memory>
    ensures asked { IfOk result (λ a. option_map asked_read a ≡ asked_by (given matches.now)) }
    ensures sound { IfOk result (λ a. IfSome a IsSound) }
{
    let Some(named) = named_in(alloc, matches)? else {
        return Ok(None);
    };
    let Some(certificate) = value_of(matches, "cert") else {
        return Ok(None);
    };
    let certificate = String::from_str(alloc, certificate)?;
    Ok(Some(Asked { named, certificate }))
}

// The file of the names and the files of the sheets, where both are given.
fn named_in(alloc: Global, matches: &ArgMatches<'_>) -> Result<Option<Named>, Memory>
    ensures named { IfOk result (λ n. option_map named_of n
        ≡ named_by (first_of (codes "names") (given matches.now)) (files_in (given matches.now))) }
    ensures some { IfOk result (λ n. IfSome n (λ m. 0 < length m.sheets.items)) }
    ensures sheets { IfOk result
        (λ n. IfSome n (λ m. All (λ w. is_sheet (string_bytes w) ≡ true) m.sheets.items)) }
{
    let Some(names) = value_of(matches, "names") else {
        return Ok(None);
    };
    let sheets = files_in(alloc, matches)?;
    if sheets.is_empty() || !are_sheets(sheets.as_slice()) {
        return Ok(None);
    }
    let names = String::from_str(alloc, names)?;
    Ok(Some(Named { names, sheets }))
}

// Whether each word is a sheet's file.
fn are_sheets(words: &[String]) -> bool
    ensures { result ≡ list_all is_sheet (texts_of words.now) }
{
    words.iter().all(|word| is_sheet(word.as_str()))
}

// Whether the word is a sheet's file.
fn is_sheet(word: &str) -> bool
    ensures { result ≡ is_sheet word.now }
{
    stem_of(word).is_some()
}
