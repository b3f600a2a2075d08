// The commands of a script.
ghost use Rattle.std.specs.Prelude.{◌≡◌, IfOk, OnErr};
ghost use Rattle.commands.specs.Commands.{HasText, Unknown, command_of, in_table, spoken, with_none, with_one, with_three, with_two};

use sheet_csv::Record;
use sheet_model::Memory;
use std::alloc::Global;

/// A command, with the texts of its record behind the first.
#[derive(Debug, Drop)]
pub enum Command {
    /// The address of a cell, and the text that is put into it.
    Set(String, String),
    Clear(String),
    /// A sheet, or nothing for the whole workbook, a name, and the text that it gets.
    Name(String, String, String),
    /// A sheet, or nothing for the whole workbook, and the name that is removed.
    Unname(String, String),
    Show(String),
    /// The name of the sheet whose linear model is shown.
    Model(String),
    /// The name of the sheet that is solved.
    Solve(String),
    /// The name of the sheet of whose rows the prices are asked for.
    Prices(String),
    /// The name of the sheet of which a search is opened.
    Begin(String),
    /// The name of a sheet with an open search, and how many units of it are asked for.
    Slice(String, String),
    /// The name of the sheet whose search is closed.
    Stop(String),
    /// How many units a search, or a run for prices, may spend from now on.
    Budget(String),
    /// The name of the sheet that is solved for a certificate.
    Cert(String),
    Save,
    Unknown,
}

impl Command {
    /// The command of a record. No memory is wanted where it is none, or has no text.
    pub fn of(alloc: Global, fields: &Record) -> Result<Command, Memory>
        ensures command { IfOk result (λ c. spoken c ≡ command_of fields.now) }
        ensures memory { OnErr result (HasText (command_of fields.now)) }
    {
        match fields.len() {
            1 => Ok(Command::with_none(fields.text(0))),
            2 => Command::with_one(alloc, fields.text(0), fields.text(1)),
            3 => Command::with_two(alloc, fields.text(0), fields.text(1), fields.text(2)),
            4 => Command::with_three(
                alloc,
                fields.text(0),
                fields.text(1),
                fields.text(2),
                fields.text(3),
            ),
            _ => Ok(Command::Unknown),
        }
    }

    // The command of a word alone.
    fn with_none(word: &str) -> Command
        ensures { spoken result ≡ in_table word.now Unknown with_none }
    {
        if word == "save" {
            Command::Save
        } else {
            Command::Unknown
        }
    }

    // The command of a word and one text behind it.
    fn with_one(alloc: Global, word: &str, text: &str) -> Result<Command, Memory>
        ensures command { IfOk result (λ c. spoken c
            ≡ in_table word.now (λ x. Unknown) with_one text.now) }
        ensures memory { OnErr result
            (HasText (in_table word.now (λ x. Unknown) with_one text.now)) }
    {
        if word == "clear" {
            return Ok(Command::Clear(String::from_str(alloc, text)?));
        }
        if word == "show" {
            return Ok(Command::Show(String::from_str(alloc, text)?));
        }
        if word == "model" {
            return Ok(Command::Model(String::from_str(alloc, text)?));
        }
        if word == "solve" {
            return Ok(Command::Solve(String::from_str(alloc, text)?));
        }
        if word == "prices" {
            return Ok(Command::Prices(String::from_str(alloc, text)?));
        }
        if word == "begin" {
            return Ok(Command::Begin(String::from_str(alloc, text)?));
        }
        if word == "stop" {
            return Ok(Command::Stop(String::from_str(alloc, text)?));
        }
        if word == "budget" {
            return Ok(Command::Budget(String::from_str(alloc, text)?));
        }
        if word == "cert" {
            return Ok(Command::Cert(String::from_str(alloc, text)?));
        }
        Ok(Command::Unknown)
    }

    // The command of a word and two texts behind it.
    fn with_two(alloc: Global, word: &str, first: &str, second: &str) -> Result<Command, Memory>
        ensures command { IfOk result (λ c. spoken c
            ≡ in_table word.now (λ x y. Unknown) with_two first.now second.now) }
        ensures memory { OnErr result
            (HasText (in_table word.now (λ x y. Unknown) with_two first.now second.now)) }
    {
        if word == "set" {
            let first = String::from_str(alloc, first)?;
            let second = String::from_str(alloc, second)?;
            return Ok(Command::Set(first, second));
        }
        if word == "unname" {
            let first = String::from_str(alloc, first)?;
            let second = String::from_str(alloc, second)?;
            return Ok(Command::Unname(first, second));
        }
        if word == "slice" {
            let first = String::from_str(alloc, first)?;
            let second = String::from_str(alloc, second)?;
            return Ok(Command::Slice(first, second));
        }
        Ok(Command::Unknown)
    }

    // The command of a word and three texts behind it.
    fn with_three(
        alloc: Global,
        word: &str,
        first: &str,
        second: &str,
        third: &str,
    ) -> Result<Command, Memory>
        ensures command { IfOk result (λ c. spoken c
            ≡ in_table word.now (λ x y z. Unknown) with_three first.now second.now third.now) }
        ensures memory { OnErr result (HasText
            (in_table word.now (λ x y z. Unknown) with_three first.now second.now third.now)) }
    {
        if word == "name" {
            let first = String::from_str(alloc, first)?;
            let second = String::from_str(alloc, second)?;
            let third = String::from_str(alloc, third)?;
            return Ok(Command::Name(first, second, third));
        }
        Ok(Command::Unknown)
    }
}
