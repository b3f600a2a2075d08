// Why a run ends before the check.
ghost use Rattle.std.specs.Prelude.{◌≡◌, ◌++◌, IfOk, OnOk, codes, string_bytes};
ghost use Rattle.std.specs.Fmt.{decimal};
ghost use Rattle.optcheck_cli.specs.Lines.{halt_line, status_of};
ghost use Rattle.optcheck_cli.specs.Read.{asked_read};

use crate::CheckStatus;
use crate::words::Asked;
use itoa::Buffer;
use run_inputs::Stop;
use std::alloc::{AllocError, Global};

/// Why a run ends before the check.
#[derive(Clone, Copy, Debug, PartialEq, Eq)]
pub enum Halt {
    /// A cause of the files of the workbook; also that of a certificate that is too long.
    Files(Stop),
    /// There is no file of the certificate.
    Missing,
    /// The place of the certificate's first byte that is no text.
    NotUtf8(u32),
    /// The certificate's line, counted from 1, with which no certificate's text that is light enough begins.
    Line(u32),
}

/// Why no check is made: a cause that is printed, a call of the folder that failed, or want of memory.
#[derive(Clone, Copy, Debug, PartialEq, Eq)]
pub(crate) enum End {
    Halted(Halt),
    Failed,
    Memory,
}

impl Halt {
    /// The status with which the run ends.
    pub(crate) fn status(self) -> CheckStatus
        ensures { result ≡ status_of self }
    {
        match self {
            Halt::Files(Stop::TooMuch(_)) => CheckStatus::Limit,
            Halt::Files(Stop::BadInput(_, _)) => CheckStatus::BadInput,
            Halt::Missing | Halt::NotUtf8(_) | Halt::Line(_) => CheckStatus::BadInput,
        }
    }

    /// The line that the run prints.
    pub(crate) fn line(self, alloc: Global, asked: &Asked) -> Result<String, AllocError>
        ensures { IfOk result (λ t. string_bytes t ≡ halt_line (asked_read asked.now) self) }
    {
        let word = asked.certificate.as_str();
        match self {
            Halt::Files(stop) => stop.line(alloc, &asked.named),
            Halt::Missing => without_number(alloc, word),
            Halt::NotUtf8(place) => with_number(alloc, word, " not-utf8 ", place),
            Halt::Line(line) => with_number(alloc, word, " cert ", line),
        }
    }
}

// The line of a file that isn't there.
fn without_number(alloc: Global, word: &str) -> Result<String, AllocError>
    ensures { IfOk result (λ t. string_bytes t
        ≡ codes "bad-input " ++ (word.now ++ codes " missing\n")) }
{
    let mut text = String::from_str(alloc, "bad-input ")?;
    text.push_str(word)?;
    text.push_str(" missing\n")?;
    Ok(text)
}

// The line of a file with a cause and its number.
fn with_number(alloc: Global, word: &str, cause: &str, number: u32) -> Result<String, AllocError>
    ensures { IfOk result (λ t. string_bytes t
        ≡ codes "bad-input " ++ (word.now ++ (cause.now ++ (decimal number ++ codes "\n")))) }
{
    let mut text = String::from_str(alloc, "bad-input ")?;
    text.push_str(word)?;
    text.push_str(cause)?;
    end_with(number, &mut text)?;
    Ok(text)
}

/// Appends the digits of a number and a line feed.
pub(crate) fn end_with(number: u32, to: &mut String) -> Result<(), AllocError>
    ensures { OnOk result (string_bytes to.new
        ≡ string_bytes to.old ++ (decimal number ++ codes "\n")) }
{
    let mut digits = Buffer::new();
    to.push_str(digits.format(number))?;
    to.push_str("\n")?;
    Ok(())
}
