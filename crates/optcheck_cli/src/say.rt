// The line that is printed.
ghost use Rattle.std.specs.Prelude.{◌≡◌, ◌++◌, IfOk, List, codes, string_bytes};
ghost use Rattle.std.specs.Fmt.{decimal};
ghost use Rattle.certificate_lines.specs.Cert.{Cert as Certificate};
ghost use Rattle.certificate_texts.specs.Answers.{IsTheCert};
ghost use Rattle.fractions.specs.Rational.{ℚ};
ghost use Rattle.opt_certificate.specs.Certificate.{optimal};
ghost use Rattle.opt_certificate.specs.Claims.{claim_of};
ghost use Rattle.optcheck_cli.specs.Completeness.{IsJudged};
ghost use Rattle.optcheck_cli.specs.Inner.{IsSaid, IsSinkFault, Says, TellsVerdict, VerdictIsListed};
ghost use Rattle.optcheck_cli.specs.Lines.{status_by, verdict_line, yes_line};
ghost use Rattle.optcheck_cli.specs.Verdicts.{IsVerdict};
ghost use Rattle.workbook.specs.State.{State};

use crate::CheckStatus;
use crate::halt::end_with;
use crate::verdict::Verdict;
use cell_refs::SheetNames;
use certificate_texts::Cert;
use commands::line;
use frac128::Frac;
use memory::Memory;
use opt_certificate::Claim;
use solver_io::{PutEnd, Sink};
use std::alloc::Global;

/// Prints a line.
pub(crate) fn say<K: Sink>(out: &mut K, line: &str, status: CheckStatus) -> CheckStatus
    requires { IsSaid status }
    ensures says { Says line.now status (K.pieces out.old) (K.pieces out.new) result }
    ensures cause { IsSinkFault (K.faults out.old) (K.faults out.new) result }
{
    match out.write(line.as_bytes()) {
        Ok(()) => status,
        Err(PutEnd::Failed) => CheckStatus::WriteFault,
        Err(PutEnd::Memory) => CheckStatus::Memory,
    }
}

/// The line of a verdict, and the status that goes with it.
pub(crate) fn said_of(
    alloc: Global,
    verdict: &Verdict,
    cert: &Cert,
    sheets: &SheetNames,
) -> Result<(String, CheckStatus), Memory>
    requires { VerdictIsListed sheets.now verdict.now }
    ensures tells { IfOk result (λ t. (book : State) (c : Certificate) → sheets.now ≡ book.sheets
        → IsTheCert cert.now c → IsVerdict book c verdict.now
        → TellsVerdict book c (string_bytes t.0) t.1) }
    ensures judged { IfOk result (λ t. IsJudged t.1) }
    ensures said { IfOk result (λ t. IsSaid t.1) }
{
    let line = line_of(alloc, verdict, cert, sheets)?;
    Ok((line, status_by(verdict)))
}

// The status that goes with a verdict.
fn status_by(verdict: &Verdict) -> CheckStatus
    ensures status { result ≡ status_by verdict.now }
    ensures judged { IsJudged result }
    ensures said { IsSaid result }
{
    match verdict {
        Verdict::Yes => CheckStatus::Yes,
        Verdict::No | Verdict::Wide(_) | Verdict::Refused(_) => CheckStatus::No,
    }
}

// The line of a verdict.
fn line_of(
    alloc: Global,
    verdict: &Verdict,
    cert: &Cert,
    sheets: &SheetNames,
) -> Result<String, Memory>
    requires { VerdictIsListed sheets.now verdict.now }
    ensures { IfOk result (λ t. (c : Certificate) → IsTheCert cert.now c
        → string_bytes t ≡ verdict_line sheets.now c verdict.now) }
{
    match verdict {
        Verdict::Yes => yes_line(alloc, &cert.claim, cert.value),
        Verdict::No => Ok(String::from_str(alloc, "no\n")?),
        Verdict::Wide(node) => wide_line(alloc, *node),
        Verdict::Refused(answer) => line(alloc, answer, sheets),
    }
}

// `yes` and what the certificate's first line says behind `cert`.
fn yes_line(alloc: Global, claim: &Claim, value: Option<Frac>) -> Result<String, Memory>
    ensures { IfOk result (λ t. string_bytes t ≡ yes_line (claim_of claim.now) value) }
{
    match claim {
        Claim::Optimal(_) => optimal_line(alloc, value),
        Claim::Infeasible => Ok(String::from_str(alloc, "yes infeasible\n")?),
        Claim::Unbounded(_, _) => Ok(String::from_str(alloc, "yes unbounded\n")?),
    }
}

// `yes optimal`, and the value where there is one.
fn optimal_line(alloc: Global, value: Option<Frac>) -> Result<String, Memory>
    ensures { IfOk result (λ t. (a : List ℚ) → string_bytes t ≡ yes_line (optimal a) value) }
{
    let Some(number) = value else {
        return Ok(String::from_str(alloc, "yes optimal\n")?);
    };
    let mut text = String::from_str(alloc, "yes optimal ")?;
    number.write(&mut text)?;
    text.push_str("\n")?;
    Ok(text)
}

// A node with a sum that isn't narrow.
fn wide_line(alloc: Global, node: u32) -> Result<String, Memory>
    ensures { IfOk result (λ t. string_bytes t
        ≡ codes "wide " ++ (decimal node ++ codes "\n")) }
{
    let mut text = String::from_str(alloc, "wide ")?;
    end_with(node, &mut text)?;
    Ok(text)
}
