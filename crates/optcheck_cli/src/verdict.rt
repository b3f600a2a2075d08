// What is found of a certificate.
ghost use Rattle.std.specs.Prelude.{◌≡◌, ◌<◌, IfOk, length};
ghost use Rattle.certificate_lines.specs.Cert.{Cert as Certificate};
ghost use Rattle.certificate_texts.specs.Answers.{IsTheCert};
ghost use Rattle.optcheck_cli.specs.Inner.{VerdictIsListed};
ghost use Rattle.optcheck_cli.specs.Verdicts.{IsVerdict};
ghost use Rattle.sheet_linear_model.specs.Answers.{prepared_of};
ghost use Rattle.sheet_linear_model.specs.Prepared.{IsPrepared};
ghost use Rattle.sheet_problems.specs.Laws.{ModelIsTheSheet};
ghost use Rattle.solver_names.specs.Answers.{statement_of};
ghost use Rattle.workbook.specs.State.{State};

use crate::prepared::prepare_first;
use crate::value::judge_value;
use certificate_texts::Cert;
use commands::Answer;
use memory::Memory;
use opt_certificate::{CheckStop, check};
use sheet_linear_model::{NoModel, Prepared};
use std::alloc::Global;
use workbook::Workbook;

/// What is found of a certificate for a sheet.
#[derive(Drop)]
pub enum Verdict {
    /// The claim is true of the sheet, and so is the value.
    Yes,
    /// The claim isn't certified, or its numbers are not one for each decision cell, or the value isn't the objective's.
    No,
    /// A sum at the node of this number in preorder does not fit 128 bits.
    Wide(u32),
    /// The sheet has no linear model: the first cause.
    Refused(Answer),
}

/// What is found of a certificate for the first sheet of a workbook.
pub(crate) fn judge(alloc: Global, book: &Workbook, cert: &Cert) -> Result<Verdict, Memory>
    requires { 0 < length book.now.sheets }
    ensures judges { IfOk result (λ v. (c : Certificate) → IsTheCert cert.now c
        → IsVerdict book.now c v) }
    ensures said { IfOk result (VerdictIsListed book.now.sheets) }
{
    match prepare_first(alloc, book) {
        Ok(prepared) => judge_over(alloc, &prepared, cert),
        Err(NoModel::Refused(answer)) => Ok(Verdict::Refused(answer)),
        Err(NoModel::Memory) => Err(Memory),
    }
}

// What is found of a certificate over the sheet's linear model.
fn judge_over(alloc: Global, of: &Prepared, cert: &Cert) -> Result<Verdict, Memory>
    ensures judges { IfOk result (λ v. (book : State) (c : Certificate)
        → IsPrepared book 0 (prepared_of of.now)
        → ModelIsTheSheet book (statement_of of.now.statement) of.now.model
        → IsTheCert cert.now c → IsVerdict book c v) }
    ensures said { IfOk result (λ v. (book : State) → VerdictIsListed book.sheets v) }
{
    if !cert.claim.is_of_size(of.model.whole().len()) {
        return Ok(Verdict::No);
    }
    match check(alloc, &of.model, &cert.tree, &cert.claim) {
        Ok(true) => judge_value(alloc, of, cert),
        Ok(false) => Ok(Verdict::No),
        Err(CheckStop::Wide(node)) => Ok(Verdict::Wide(node)),
        Err(CheckStop::Memory) => Err(Memory),
    }
}
