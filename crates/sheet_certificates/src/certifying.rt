// The certificate of what a search over the model of a sheet answers.
ghost use Rattle.std.specs.Prelude.{◌≡◌, ◌≢◌, ◌≤◌, IfOk, length};
ghost use Rattle.branch_bound.specs.Ends.{IsAnswerOf};
ghost use Rattle.branch_bound.specs.declared.progress.Progress.TheVariants as progress;
ghost use Rattle.commands.specs.Lines.{CanBeSaid};
ghost use Rattle.sheet_certificates.specs.Certified.{AnswersCertificate};
ghost use Rattle.sheet_certificates.specs.Inner.{IsClaimed, Shows};
ghost use Rattle.sheet_solving.specs.FromSheetProblems.{ModelIsTheSheet};
ghost use Rattle.sheet_solving.specs.FromStatementLaws.{IsWhole};
ghost use Rattle.sheet_solving.specs.Searches.{whole_task};
ghost use Rattle.solver_names.specs.Answers.{statement_of};
ghost use Rattle.workbook.specs.State.{State};

use branch_bound::{Progress, Search};
use certificate_texts::Cert;
use commands::Answer;
use memory::Memory;
use node_pick::Picker;
use opt_certificate::{Claim, Tree};
use search_trees::{TreeStop, tree};
use sheet_finding::run_whole;
use sheet_linear_model::Prepared;
use sheet_solving::{objective_value, tell_stop};
use solver_names::Statement;
use std::alloc::Global;

// What an end claims, with the tree that proves it; an optimum with the objective's number, where there is an objective.
fn cert_of(statement: &Statement, tree: Tree, end: Progress) -> Cert
    requires { end ≢ progress.More }
    ensures tree { result.tree ≡ tree }
    ensures claimed { IsClaimed (statement_of statement.now) end result.claim result.value }
{
    match end {
        Progress::Optimal(point, value) => Cert {
            tree,
            claim: Claim::Optimal(point),
            value: objective_value(statement.objective, statement.goal, value),
        },
        Progress::Infeasible => Cert {
            tree,
            claim: Claim::Infeasible,
            value: None,
        },
        Progress::Unbounded(point, direction) => Cert {
            tree,
            claim: Claim::Unbounded(point, direction),
            value: None,
        },
        Progress::More => unreachable!(),
    }
}

// The certificate of a search that has ended so, or how much its tree weighs, where that is too much.
fn certificate(statement: &Statement, search: &Search, end: Progress) -> Result<Answer, Memory>
    requires { IsAnswerOf search.now end }
    ensures { IfOk result (Shows (statement_of statement.now) search.now end) }
{
    match tree(search) {
        Ok(tree) => Ok(Answer::Cert(cert_of(statement, tree, end))),
        Err(TreeStop::TooLong(weight)) => Ok(Answer::CertLimit(weight)),
        Err(TreeStop::Memory) => Err(Memory),
    }
}

/// Solves the model of a sheet by a search of its own, which may spend so many units and opens the nodes that the picker chooses, and
/// certifies its answer. Nothing is written.
pub fn certify(
    alloc: Global,
    of: Prepared,
    budget: u64,
    pick: &mut Box<dyn Picker>,
) -> Result<Answer, Memory>
    requires budget { budget ≤ 1000000 }
    ensures certifies { IfOk result (λ answer. (book : State)
        → ModelIsTheSheet book (statement_of of.statement) of.model
        → AnswersCertificate (whole_task (rule pick.old) budget) book
        (statement_of of.statement) of.model answer) }
    ensures said { IfOk result (λ answer. (book : State)
        → IsWhole book (statement_of of.statement)
        → length of.model.whole ≡ length of.statement.adj → CanBeSaid book.sheets answer) }
    ensures rule { rule pick.new ≡ rule pick.old }
{
    let Prepared {
        statement,
        model,
        ..
    } = of;
    let mut search = Search::begin(alloc, model, budget)?;
    match run_whole(&mut search, budget, pick) {
        Ok(end) => certificate(&statement, &search, end),
        Err(stop) => tell_stop(alloc, &statement, stop),
    }
}
