// The lines that are printed.
ghost use Rattle.std.specs.Prelude.{◌≡◌, ◌++◌, [], IfOk, OnOk, encode_utf8, string_bytes};
ghost use Rattle.cell_refs.specs.ErrorText.{error_text};
ghost use Rattle.frac128.specs.Printed.{printed};
ghost use Rattle.commands.specs.Lines.{CanBeSaid, answer_text, doubled, said, value_text, words};
ghost use Rattle.commands.specs.Printing.{ReadsBack};
ghost use Rattle.commands.specs.declared.answer.Answer.{Answer};

use crate::answer::Answer;
use crate::certificate::say_certificate;
use crate::price_lines::{say_best, say_prices};
use crate::refusals::{say_form, say_names, say_number, say_pivot, say_text, say_with_cell};
use cell_refs::SheetNames;
use frac128::Frac;
use sheet_model::{Memory, Value};
use std::alloc::Global;

/// The line or lines of an answer. The text of a certificate is what `read_cert` reads.
pub fn line(alloc: Global, answer: &Answer, sheets: &SheetNames) -> Result<String, Memory>
    requires { CanBeSaid sheets.now answer.now }
    ensures text { IfOk result (λ t. string_bytes t ≡ answer_text sheets.now answer.now) }
    ensures reads_back { IfOk result (λ t. ReadsBack answer.now) }
{
    let mut text = String::new(alloc);
    say(answer, sheets, &mut text)?;
    text.push_str("\n")?;
    Ok(text)
}

// Appends an answer.
fn say(answer: &Answer, sheets: &SheetNames, to: &mut String) -> Result<(), Memory>
    requires { CanBeSaid sheets.now answer.now }
    ensures text { OnOk result (string_bytes to.new
        ≡ string_bytes to.old ++ said sheets.now answer.now) }
    ensures reads_back { OnOk result (ReadsBack answer.now) }
{
    match answer {
        Answer::Shown(value) => say_value(value, to),
        Answer::Model(lines) => lines.print(sheets, to),
        Answer::Optimal(value) => say_optimal(*value, to),
        Answer::Prices(prices) => say_prices(prices, to),
        Answer::Cert(cert) => say_certificate(cert, to),
        Answer::More(units) => say_number("more ", *units, to),
        Answer::ToSave(files) => say_number("saved ", files.len() as u64, to),
        Answer::WideCell(cell) => say_with_cell("refused wide ", cell, sheets, to),
        Answer::Names(fault) => say_names(fault, sheets, to),
        Answer::Form(refusal) => say_form(refusal, sheets, to),
        Answer::WideRow(row) => say_number("refused wide-row ", u64::from(*row), to),
        Answer::NotContinuous(cell) => say_with_cell("refused not-continuous ", cell, sheets, to),
        Answer::WidePivot(path, basis, row, column) => {
            say_pivot(path, basis, (*row, *column), sheets, to)
        }
        Answer::Budget(units) => say_number("refused budget ", *units, to),
        Answer::WideRange(row) => say_number("refused wide-range ", u64::from(*row), to),
        Answer::CertLimit(weight) => say_number("refused cert-limit ", *weight, to),
        Answer::NoRoom(cell) => say_with_cell("refused no-room ", cell, sheets, to),
        _ => say_text(words(answer), to),
    }
}

// The words of an answer that has no parts.
fn words(answer: &Answer) -> &'static str
    ensures { result.now ≡ words answer.now }
{
    match answer {
        Answer::Done => "ok",
        Answer::Infeasible => "infeasible",
        Answer::Unbounded => "unbounded",
        Answer::Begun => "begun",
        Answer::Stopped => "stopped",
        Answer::UnknownCommand => "refused unknown-command",
        Answer::BadAddress => "refused bad-address",
        Answer::UnknownSheet => "refused unknown-sheet",
        Answer::OutOfSheet => "refused out-of-sheet",
        Answer::BadNumber => "refused bad-number",
        Answer::BadName => "refused bad-name",
        Answer::FieldTooLong => "refused field-too-long",
        Answer::TooManyCells => "refused too-many-cells",
        Answer::TooManyFormulas => "refused too-many-formulas",
        Answer::TooManyNames => "refused too-many-names",
        Answer::NoSearch => "refused no-search",
        Answer::TooManySearches => "refused too-many-searches",
        Answer::NoObjective => "refused no-objective",
        _ => "",
    }
}

// Appends an optimum, with its value if it has one.
fn say_optimal(value: Option<Frac>, to: &mut String) -> Result<(), Memory>
    ensures { OnOk result (string_bytes to.new
        ≡ string_bytes to.old ++ said [] (Answer.Optimal value)) }
{
    match value {
        Some(number) => say_best(number, to),
        None => say_text("optimal", to),
    }
}

// Appends a value.
fn say_value(value: &Value, to: &mut String) -> Result<(), Memory>
    ensures { OnOk result (string_bytes to.new ≡ string_bytes to.old ++ value_text value.now) }
{
    match value {
        Value::Number(number) => {
            to.push_str("number ")?;
            number.write(to)?;
        }
        Value::Text(text) => {
            to.push_str("text \"")?;
            say_doubled(text.as_str(), to)?;
            to.push_str("\"")?;
        }
        Value::Logical(true) => to.push_str("logical TRUE")?,
        Value::Logical(false) => to.push_str("logical FALSE")?,
        Value::Empty => to.push_str("empty")?,
        Value::Error(kind) => {
            to.push_str("error ")?;
            to.push_str(kind.text())?;
        }
    }
    Ok(())
}

// Appends the text with each quote doubled.
fn say_doubled(text: &str, to: &mut String) -> Result<(), Memory>
    ensures { OnOk result (string_bytes to.new ≡ string_bytes to.old ++ doubled text.now) }
{
    for c in text.chars() {
        say_char(c, to)?;
    }
    Ok(())
}

// Appends a character, or two for a quote.
fn say_char(c: char, to: &mut String) -> Result<(), Memory>
    ensures { OnOk result (string_bytes to.new ≡ string_bytes to.old ++ doubled (encode_utf8 c)) }
{
    if c == '"' {
        to.push_str("\"\"")?;
        return Ok(());
    }
    to.push(c)?;
    Ok(())
}
