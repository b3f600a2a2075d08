// Reading the first line.
ghost use Rattle.std.specs.Prelude.{◌≡◌, IfOk, IfSome, codes, option_map};
ghost use Rattle.frac128.specs.Narrow.{IsNarrow};
ghost use Rattle.certificate_lines.specs.Cutting.{ReadAs, Starts};
ghost use Rattle.certificate_lines.specs.Line.{spaced, value_words};
ghost use Rattle.certificate_texts.specs.Lines.{BeginsWith, behind_first, line_of};

use crate::cutting::cut;
use crate::line::{Line, Said};
use crate::number::read_number;
use frac128::Frac;
use memory::Memory;

// A value behind a space, or nothing.
fn read_value(text: &[u8], room: &mut String) -> Result<Option<Option<Frac>>, Memory>
    requires { Starts 32 text.now }
    ensures { IfOk result (λ o. ReadAs (λ v. IfSome v IsNarrow) (λ v. spaced (value_words v)) o text.now) }
{
    let [_, word @ ..] = text else {
        return Ok(Some(None));
    };
    let Some(value) = read_number(word, room)? else {
        return Ok(None);
    };
    Ok(Some(Some(value)))
}

/// The claim behind `cert`.
pub(crate) fn read_claim(
    text: &[u8],
    most: usize,
    room: &mut String,
) -> Result<Option<Line>, Memory>
    requires { Starts 32 text.now }
    ensures { IfOk result (λ o. ReadAs (BeginsWith (codes "cert") most) behind_first
        (option_map line_of o) text.now) }
{
    if text == " infeasible".as_bytes() {
        return Ok(Some(Line::Claim(Said::Infeasible)));
    }
    if text == " unbounded".as_bytes() {
        return Ok(Some(Line::Claim(Said::Unbounded)));
    }
    let [_, behind @ ..] = text else {
        return Ok(None);
    };
    let (word, rest) = cut(behind, b' ');
    if word != "optimal".as_bytes() {
        return Ok(None);
    }
    let Some(value) = read_value(rest, room)? else {
        return Ok(None);
    };
    Ok(Some(Line::Claim(Said::Optimal(value))))
}
