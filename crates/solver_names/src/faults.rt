// The first fault in what the names of a sheet say: by its kind, and then by its constraint.
ghost use Rattle.std.specs.Prelude.{◌≡◌, ◌≤◌, ◌<◌, [], IfOk, length, string_bytes, unwrap_or};
ghost use Rattle.solver_names.specs.Answers.{IsTold};
ghost use Rattle.solver_names.specs.Constraints as said;
ghost use Rattle.solver_names.specs.Faults as found;
ghost use Rattle.solver_names.specs.Faults.{all_by, bad_code, bad_options, faults, first, found_by, mismatch, missing, no_decision, of_constraints, sides_unformed, too_many};
ghost use Rattle.solver_names.specs.Read.{read_of};
ghost use Rattle.solver_names.specs.Texts.{named};
ghost use Rattle.solver_names.specs.declared.limits.TheConstants.{MOST_CONSTRAINTS};
ghost use Rattle.solver_names.specs.declared.name.Name.TheVariants as name;
ghost use Rattle.solver_names.specs.declared.said.Said.TheVariants.{Says};

use crate::cells::Cells;
use crate::constraints::{Code, Constraint, Side};
use crate::fault::NamesFault;
use crate::limits::{MOST_DECISIONS, MOST_ROWS};
use crate::name::Name;
use crate::names::Names;
use crate::rows::row_count;
use crate::said::Said;
use cell_refs::{Cell, SheetId};
use memory::Memory;
use std::alloc::Global;
use workbook::Workbook;

/// A fault in what the names of a sheet say.
#[derive(Clone, Copy)]
pub(crate) enum Fault {
    NoNames,
    /// The text of the name is no reference, or no side.
    Reference(Name),
    /// The constraint lacks a part.
    Missing(u16),
    /// The constraint's code is none of the six.
    Code(u16),
    /// The constraint, and how many cells its left and its right side have.
    Sizes(u16, u32, u32),
    /// The constraint, and the first of its cells that isn't to be decided.
    NotDecision(u16, Cell),
    /// The option isn't of its form.
    Option(Name),
    TooManyDecisions(u32),
    TooManyRows(u32),
}

/// What is asked of each constraint.
#[derive(Clone, Copy)]
pub(crate) enum Check {
    Sides,
    Parts,
    Code,
    Sizes,
    Decisions,
}

// A side that isn't of its form.
fn side_fault(constraint: &Constraint) -> Option<Fault>
    ensures { result ≡ first (sides_unformed constraint.now) }
{
    if constraint.left.is_unformed() {
        return Some(Fault::Reference(Name::Left(constraint.k)));
    }
    if constraint.right.is_unformed() {
        return Some(Fault::Reference(Name::Right(constraint.k)));
    }
    None
}

// Whether the code is a relation.
fn is_related(code: &Said<Code>) -> bool
    ensures { result ≡ said.is_related code.now }
{
    matches!(code, Said::Says(Code::Related(_)))
}

// A part that a constraint lacks: a right side is wanted of relations alone.
fn part_fault(constraint: &Constraint) -> Option<Fault>
    ensures { result ≡ first (missing constraint.now) }
{
    if constraint.left.is_absent()
        || constraint.code.is_absent()
        || is_related(&constraint.code) && constraint.right.is_absent()
    {
        return Some(Fault::Missing(constraint.k));
    }
    None
}

// A code that is none of the six.
fn code_fault(constraint: &Constraint) -> Option<Fault>
    ensures { result ≡ first (bad_code constraint.now) }
{
    if constraint.code.is_unformed() {
        return Some(Fault::Code(constraint.k));
    }
    None
}

// A right area with neither one cell nor as many as the left.
fn size_fault(constraint: &Constraint) -> Option<Fault>
    ensures { result ≡ first (mismatch constraint.now) }
{
    let Said::Says(left) = &constraint.left else {
        return None;
    };
    let Said::Says(Side::Area(right)) = &constraint.right else {
        return None;
    };
    if right.len() == 1 || right.len() == left.len() {
        return None;
    }
    Some(Fault::Sizes(constraint.k, left.len(), right.len()))
}

// Whether the cells on the left are to be whole, or 0 or 1, or different.
fn is_mark(code: &Said<Code>) -> bool
    ensures { result ≡ found.is_mark code.now }
{
    matches!(
        code,
        Said::Says(Code::Whole | Code::Binary | Code::Different)
    )
}

// A cell that is to be whole, or 0 or 1, or different from others, and isn't to be decided.
fn decision_fault(decisions: &Cells, constraint: &Constraint) -> Option<Fault>
    ensures { result ≡ first (no_decision decisions.now constraint.now) }
{
    if !is_mark(&constraint.code) {
        return None;
    }
    let Said::Says(left) = &constraint.left else {
        return None;
    };
    match decisions.other_in(*left) {
        Some(cell) => Some(Fault::NotDecision(constraint.k, cell)),
        None => None,
    }
}

// The first fault that a check finds in a constraint.
fn fault_by(check: Check, decisions: &Cells, constraint: &Constraint) -> Option<Fault>
    ensures { result ≡ first (found_by check decisions.now constraint.now) }
{
    match check {
        Check::Sides => side_fault(constraint),
        Check::Parts => part_fault(constraint),
        Check::Code => code_fault(constraint),
        Check::Sizes => size_fault(constraint),
        Check::Decisions => decision_fault(decisions, constraint),
    }
}

// The first fault that a check finds.
fn first_by(check: Check, decisions: &Cells, constraints: &[Constraint]) -> Option<Fault>
    ensures { result ≡ first (all_by check decisions.now constraints.now) }
{
    for constraint in constraints {
        if let Some(fault) = fault_by(check, decisions, constraint) {
            return Some(fault);
        }
    }
    None
}

// The first fault of the constraints.
fn constraint_fault(decisions: &Cells, constraints: &[Constraint]) -> Option<Fault>
    ensures { result ≡ first (of_constraints decisions.now constraints.now) }
{
    if let Some(fault) = first_by(Check::Sides, decisions, constraints) {
        return Some(fault);
    }
    if let Some(fault) = first_by(Check::Parts, decisions, constraints) {
        return Some(fault);
    }
    if let Some(fault) = first_by(Check::Code, decisions, constraints) {
        return Some(fault);
    }
    if let Some(fault) = first_by(Check::Sizes, decisions, constraints) {
        return Some(fault);
    }
    first_by(Check::Decisions, decisions, constraints)
}

// Whether a value is to be reached.
fn is_reached(goal: &Said<u16>) -> bool
    ensures { result ≡ found.is_reached goal.now }
{
    matches!(goal, Said::Says(3))
}

// An option that isn't of its form: what is wanted is read where there is an objective, and its value where it is to be reached.
fn option_fault(names: &Names) -> Option<Fault>
    ensures { result ≡ first (bad_options (read_of names.now)) }
{
    let is_wanted = !names.objective.is_absent();
    if is_wanted && names.goal.is_unformed() {
        return Some(Fault::Option(Name::Goal));
    }
    if is_wanted && is_reached(&names.goal) && names.value.is_unformed() {
        return Some(Fault::Option(Name::Value));
    }
    if names.negative.is_unformed() {
        return Some(Fault::Option(Name::Negative));
    }
    if names.count.is_unformed() {
        return Some(Fault::Option(Name::Count));
    }
    None
}

// Too many cells to be decided, or rows.
fn count_fault(decisions: &Cells, constraints: &[Constraint]) -> Option<Fault>
    requires { length constraints.now ≤ MOST_CONSTRAINTS }
    ensures { result ≡ first (too_many decisions.now constraints.now) }
{
    let cells = decisions.len();
    if cells > MOST_DECISIONS as u32 {
        return Some(Fault::TooManyDecisions(cells));
    }
    let rows = row_count(constraints);
    if rows > MOST_ROWS as u32 {
        return Some(Fault::TooManyRows(rows));
    }
    None
}

// The first fault where the cells to be decided are of their form.
fn fault_with(names: &Names, decisions: &Cells) -> Option<Fault>
    requires said { names.now.decisions ≡ Says decisions.now }
    requires few { length names.now.constraints.items ≤ MOST_CONSTRAINTS }
    ensures { result ≡ first (faults (read_of names.now)) }
{
    if names.objective.is_unformed() {
        return Some(Fault::Reference(Name::Objective));
    }
    if let Some(fault) = constraint_fault(decisions, &names.constraints) {
        return Some(fault);
    }
    if let Some(fault) = option_fault(names) {
        return Some(fault);
    }
    count_fault(decisions, &names.constraints)
}

/// The first fault, or none.
pub(crate) fn first_fault(names: &Names) -> Option<Fault>
    requires { length names.now.constraints.items ≤ MOST_CONSTRAINTS }
    ensures { result ≡ first (faults (read_of names.now)) }
{
    match &names.decisions {
        Said::Absent => Some(Fault::NoNames),
        Said::Unformed => Some(Fault::Reference(Name::Decisions)),
        Said::Says(decisions) => fault_with(names, decisions),
    }
}

/// The fault as it is told.
pub(crate) fn named_fault(
    alloc: Global,
    book: &Workbook,
    sheet: SheetId,
    fault: Fault,
) -> Result<NamesFault, Memory>
    ensures { IfOk result (λ told. IsTold book.now sheet.0 fault told) }
{
    match fault {
        Fault::NoNames => Ok(NamesFault::NoNames),
        Fault::Reference(name) => Ok(NamesFault::BadReference(name.text(alloc)?)),
        Fault::Missing(k) => Ok(NamesFault::MissingPart(k)),
        Fault::Code(k) => Ok(NamesFault::BadRelation(k, code_text(alloc, book, sheet, k)?)),
        Fault::Sizes(k, left, right) => Ok(NamesFault::SizeMismatch(k, left, right)),
        Fault::NotDecision(k, cell) => Ok(NamesFault::NotDecision(k, cell)),
        Fault::Option(name) => Ok(NamesFault::BadOption(name.text(alloc)?)),
        Fault::TooManyDecisions(count) => Ok(NamesFault::TooManyDecisions(count)),
        Fault::TooManyRows(count) => Ok(NamesFault::TooManyRows(count)),
    }
}

// The code of a constraint as it stands.
fn code_text(alloc: Global, book: &Workbook, sheet: SheetId, k: u16) -> Result<String, Memory>
    ensures { IfOk result (λ s. string_bytes s
        ≡ unwrap_or (named book.now sheet.0 (name.Code k)) []) }
{
    let text = Name::Code(k).find(alloc, book, sheet)?.unwrap_or("");
    Ok(String::from_str(alloc, text)?)
}
