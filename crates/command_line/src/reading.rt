// How the words of the command line are read.
ghost use Rattle.std.specs.Prelude.{◌≡◌, ◌<◌, All, IfOk, IfSome, None, Some, codes, length, option_map, string_bytes, true};
ghost use Rattle.clap.specs.Words.{first_of};
ghost use Rattle.command_line.specs.Given.{given};
ghost use Rattle.command_line.specs.Read.{IsSound, asked_read, named_of};
ghost use Rattle.command_line.specs.Words as line;

use crate::line::{files_in, matches_in, more_is_given, value_of};
use crate::sheets::are_sheets;
use crate::values::{budget_of, pick_of};
use crate::words::{Asked, Job, MOST_MADE_UP, Named};
use cell_refs::number_up_to;
use clap::ArgMatches;
use memory::Memory;
use std::alloc::Global;

/// What the words ask for; none where they are of another form. The words stand without the program's name.
pub fn request(alloc: Global, words: &[String]) -> Result<Option<Asked>, Memory>
    ensures asked { IfOk result (λ a. option_map asked_read a
        ≡ line.asked_of (line.texts_of words.now)) }
    ensures sound { IfOk result (λ a. IfSome a IsSound) }
{
    let Some(matches) = matches_in(alloc, words)? else {
        return Ok(None);
    };
    match value_of(&matches, "gen") {
        Some(size) => Ok(made_up(&matches, size)),
        None => script(alloc, &matches),
    }
}

// A workbook of this size that is made up, where nothing else is given.
fn made_up(matches: &ArgMatches<'_>, size: &str) -> Option<Asked>
    ensures asked { option_map asked_read result
        ≡ line.asked_by (given matches.now) (Some size.now) }
    ensures sound { IfSome result IsSound }
{
    if more_is_given(matches) {
        return None;
    }
    let size = number_up_to(size, MOST_MADE_UP)?;
    Some(Asked::MadeUp(size as u8))
}

// A script over the files that are given.
fn script(alloc: Global, matches: &ArgMatches<'_>) -> Result<Option<Asked>, Memory>
    ensures asked { IfOk result (λ a. option_map asked_read a
        ≡ line.asked_by (given matches.now) None) }
    ensures sound { IfOk result (λ a. IfSome a IsSound) }
{
    let Some(budget) = budget_of(value_of(matches, "budget")) else {
        return Ok(None);
    };
    let Some(pick) = pick_of(value_of(matches, "pick")) else {
        return Ok(None);
    };
    let Some(named) = named_in(alloc, matches)? else {
        return Ok(None);
    };
    Ok(Some(Asked::Script(Job {
        named,
        budget,
        pick,
    })))
}

// The file of the names and the files of the sheets, where both are given.
fn named_in(alloc: Global, matches: &ArgMatches<'_>) -> Result<Option<Named>, Memory>
    ensures named { IfOk result (λ n. option_map named_of n ≡ line.named_by
        (first_of (codes "names") (given matches.now)) (line.files_in (given matches.now))) }
    ensures some { IfOk result (λ n. IfSome n (λ m. 0 < length m.sheets.items)) }
    ensures sheets { IfOk result
        (λ n. IfSome n (λ m. All (λ w. line.is_sheet (string_bytes w) ≡ true) m.sheets.items)) }
{
    let Some(names) = value_of(matches, "names") else {
        return Ok(None);
    };
    let sheets = files_in(alloc, matches)?;
    if sheets.is_empty() || !are_sheets(sheets.as_slice()) {
        return Ok(None);
    }
    let names = String::from_str(alloc, names)?;
    Ok(Some(Named { names, sheets }))
}
