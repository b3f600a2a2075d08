// The texts of numbers.
ghost use Rattle.std.specs.Prelude.{[], ◌≡◌, ◌≢◌, ◌==◌, All, IfOk, OnErr, OnOk, length, map, string_bytes};
ghost use Rattle.std.specs.List.{list_any};
ghost use Rattle.frac128.specs.Narrow.{IsNarrow};
ghost use Rattle.workbook.specs.Several.{IsField};
ghost use Rattle.write_back.specs.Writing.{number_text};

use frac128::Frac;
use memory::Memory;
use std::alloc::Global;

/// The texts of numbers, in their order.
pub(crate) fn all_texts(alloc: Global, numbers: &[Frac]) -> Result<Vec<String>, Memory>
    ensures texts { IfOk result (λ texts. map string_bytes texts.items
        ≡ map number_text numbers.now) }
    ensures each { IfOk result (λ texts. length texts.items ≡ length numbers.now) }
    ensures fields { IfOk result (λ texts. All (λ text. IsField (string_bytes text)) texts.items) }
    ensures narrow { OnOk result (All IsNarrow numbers.now) }
    ensures memory { OnErr result (numbers.now ≢ []) }
{
    let mut texts = Vec::new(alloc);
    for number in numbers {
        texts.push(text_of(alloc, *number)?)?;
    }
    Ok(texts)
}

// The text of a number.
#[tactic(auto, using(crate::proofs::Written::number_field))]
fn text_of(alloc: Global, number: Frac) -> Result<String, Memory>
    ensures text { IfOk result (λ text. string_bytes text ≡ number_text number) }
    ensures field { IfOk result (λ text. IsField (string_bytes text)) }
    ensures narrow { IsNarrow number }
{
    // (this call lends the proof that the number is narrow)
    let _num = number.num();
    let text = text_for_cell(alloc, number)?;
    Ok(text)
}

// The number as it is printed, with an equals sign before it where a slash stands in it.
fn text_for_cell(alloc: Global, number: Frac) -> Result<String, Memory>
    ensures { IfOk result (λ text. string_bytes text ≡ number_text number) }
{
    let mut text = String::new(alloc);
    number.write(&mut text)?;
    if !has_slash(text.as_str()) {
        return Ok(text);
    }
    let mut formula = String::from_str(alloc, "=")?;
    formula.push_str(text.as_str())?;
    Ok(formula)
}

// Whether a slash stands in a text.
fn has_slash(text: &str) -> bool
    ensures { result ≡ list_any (λ b. b == 47) text.now }
{
    text.as_bytes().iter().any(|b| *b == b'/')
}
