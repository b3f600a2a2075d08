// Values that are given to parameters.
ghost use Rattle.std.specs.Prelude.{◌≡◌, ◌<◌, ◌≤◌, if◌then◌else◌, All, IfErr, IfOk, OnErr, OnOk, length, slice_set};
ghost use Rattle.affine_forms.specs.Assigned.{assigned};
ghost use Rattle.commands.specs.Lines.{CanBeSaid};
ghost use Rattle.frac128.specs.Narrow.{IsNarrow};
ghost use Rattle.sheet_quick.specs.Giving.{Gives, IsCutShort, number_given};
ghost use Rattle.sheet_quick.specs.Inner.{CanBeWritten, IsPartly, ModelOr, Tells, TellsOther, Writes, is_accepted, with_values};
ghost use Rattle.sheet_quick.specs.Opened.{IsOpen, quick_of};
ghost use Rattle.sheet_quick.specs.declared.stops.NoGiven.TheVariants as stops;
ghost use Rattle.sheet_finding.specs.Finding.{CanBeFound};
ghost use Rattle.sheet_finding.specs.FromSheetSolving.{whole_task};
ghost use Rattle.workbook.specs.Edits.{after_set};
ghost use Rattle.cell_refs.specs.Listed.{IsListed};
ghost use Rattle.write_back.specs.Writing.{AreDistinct};

use crate::quick::SheetQuick;
use crate::stops::NoGiven;
use cell_refs::{Cell, TEXT_BYTES};
use commands::Answer;
use frac128::Frac;
use lin_model::LinModel;
use memory::Memory;
use node_pick::Picker;
use quick_solve::{QuickModel, QuickStop};
use sheet_finding::{Found, find};
use solver_names::Statement;
use std::alloc::Global;
use workbook::Workbook;
use write_back::{PutFault, put};

// The number of a numeral that a cell can hold.
fn number_given(text: &str) -> Option<Frac>
    ensures { result ≡ number_given text.now }
{
    if text.is_empty() {
        return None;
    }
    if text.len() > TEXT_BYTES as usize {
        return None;
    }
    match Frac::read(text) {
        Ok(number) => Some(number),
        Err(_) => None,
    }
}

// The values with another one at a place.
fn with_value(alloc: Global, values: &[Frac], place: u16, number: Frac) -> Result<Vec<Frac>, Memory>
    requires { place < length values.now }
    ensures { IfOk result (λ all. all.items ≡ slice_set values.now place number) }
{
    let mut all = Vec::from_slice(alloc, values)?;
    all[place as usize] = number;
    Ok(all)
}

// The linear model where the parameters have these values.
fn model_with(alloc: Global, model: &QuickModel, values: &[Frac]) -> Result<LinModel, NoGiven>
    requires { length values.now ≡ model.now.count }
    ensures { ModelOr model.now (assigned values.now) result }
{
    match model.at(alloc, values) {
        Ok(model) => Ok(model),
        Err(QuickStop::WideSet(row)) => Err(NoGiven::WideSet(row)),
        Err(QuickStop::WideRow(row)) => Err(NoGiven::WideRow(row)),
        Err(QuickStop::Memory) => Err(NoGiven::Memory),
    }
}

// Puts a numeral into a cell that has a number, for which there is always room.
fn put_text(book: &mut Workbook, cell: Cell, text: &str) -> Result<(), Memory>
    requires { cell.sheet.0 < length book.old.sheets }
    ensures ok { OnOk result (book.new ≡ after_set book.old cell text.now) }
    ensures err { OnErr result (book.new ≡ book.old) }
{
    match book.set(cell, text) {
        Ok(()) => Ok(()),
        Err(_) => Err(Memory),
    }
}

// The numbers of an assignment are narrow.
fn are_narrow(numbers: &[Frac])
    ensures { All IsNarrow numbers.now }
{
    for number in numbers {
        let _num = number.num();
    }
}

// Writes an optimum into the decision cells, and then the text into the parameter.
fn write(
    alloc: Global,
    book: &mut Workbook,
    statement: &Statement,
    cell: Cell,
    text: &str,
    point: &[Frac],
    value: Option<Frac>,
) -> Result<Answer, Memory>
    requires parameter { cell.sheet.0 < length book.old.sheets }
    requires each { length point.now ≡ length statement.now.adj }
    requires listed { All (IsListed book.old.sheets) statement.now.adj }
    requires distinct { AreDistinct statement.now.adj }
    ensures writes { IfOk result (λ told. Writes book.old statement.now.adj cell
        text.now point.now value told book.new) }
    ensures said { IfOk result (CanBeSaid book.old.sheets) }
    ensures sheets { book.new.sheets ≡ book.old.sheets }
    ensures memory { OnErr result (IsPartly book.old statement.now.adj book.new) }
{
    are_narrow(point);
    match put(alloc, book, &statement.adj, point) {
        Ok(()) => {
            put_text(book, cell, text)?;
            Ok(Answer::Optimal(value))
        }
        Err(PutFault::NoRoom(cell)) => Ok(Answer::NoRoom(cell)),
        Err(PutFault::Memory) => Err(Memory),
    }
}

// Puts the text into the parameter where there is nothing to be written and nothing is refused.
fn tell(book: &mut Workbook, cell: Cell, text: &str, told: Answer) -> Result<Answer, Memory>
    requires { cell.sheet.0 < length book.old.sheets }
    ensures tells { IfOk result (λ answer.
        TellsOther book.old cell text.now told answer book.new) }
    ensures said { IfOk result (λ answer.
        CanBeSaid book.old.sheets told → CanBeSaid book.old.sheets answer) }
    ensures sheets { book.new.sheets ≡ book.old.sheets }
    ensures memory { OnErr result (book.new ≡ book.old) }
{
    match told {
        Answer::Infeasible => {
            put_text(book, cell, text)?;
            Ok(Answer::Infeasible)
        }
        Answer::Unbounded => {
            put_text(book, cell, text)?;
            Ok(Answer::Unbounded)
        }
        other => Ok(other),
    }
}

// What is found is written and told.
fn tell_found(
    alloc: Global,
    book: &mut Workbook,
    statement: &Statement,
    cell: Cell,
    text: &str,
    found: Found,
) -> Result<Answer, Memory>
    requires parameter { cell.sheet.0 < length book.old.sheets }
    requires can { CanBeWritten (length statement.now.adj) found }
    requires listed { All (IsListed book.old.sheets) statement.now.adj }
    requires distinct { AreDistinct statement.now.adj }
    ensures tells { IfOk result (λ told. Tells book.old statement.now.adj cell
        text.now found told book.new) }
    ensures said { IfOk result (λ told.
        CanBeFound book.old.sheets found → CanBeSaid book.old.sheets told) }
    ensures sheets { book.new.sheets ≡ book.old.sheets }
    ensures memory { OnErr result (IsPartly book.old statement.now.adj book.new) }
{
    match found {
        Found::Optimal(point, value) => write(alloc, book, statement, cell, text, &point, value),
        Found::Told(told) => tell(book, cell, text, told),
    }
}

// Whether an answer is no refusal of a search.
fn is_accepted(answer: &Answer) -> bool
    ensures { result ≡ is_accepted answer.now }
{
    match answer {
        Answer::Optimal(_) | Answer::Infeasible | Answer::Unbounded => true,
        _ => false,
    }
}

// Keeps the values where the answer is no refusal.
fn keep_values(quick: &mut SheetQuick, values: Vec<Frac>, told: &Answer)
    ensures { quick_of quick.new ≡ (if is_accepted told.now
        then with_values (quick_of quick.old) values.items else quick_of quick.old) }
{
    if is_accepted(told) {
        quick.values = values;
    }
}

/// Gives a parameter the number of a text and solves: the values are put into the forms, which are not found again, and a search of the
/// model that this makes may spend so many units. After an optimum the decision cells and then the parameter are written; where nothing
/// is permitted, or there is no best value, the parameter alone is; after a refusal nothing is.
pub fn give(
    alloc: Global,
    book: &mut Workbook,
    quick: &mut SheetQuick,
    cell: Cell,
    text: &str,
    budget: u64,
    pick: &mut Box<dyn Picker>,
) -> Result<Answer, NoGiven>
    requires budget { budget ≤ 1000000 }
    requires open { IsOpen book.old (quick_of quick.old) }
    ensures gives { Gives (whole_task (rule pick.old) budget) book.old (quick_of quick.old) cell
        text.now result book.new (quick_of quick.new) }
    ensures open { IsOpen book.new (quick_of quick.new) }
    ensures said { IfOk result (CanBeSaid book.old.sheets) }
    ensures sheets { book.new.sheets ≡ book.old.sheets }
    ensures memory { IfErr result (λ stop. stop ≡ stops.Memory
        → IsCutShort book.old (quick_of quick.old) book.new (quick_of quick.new)) }
    ensures rule { rule pick.new ≡ rule pick.old }
{
    let Some(place) = quick.parameters.find(cell) else {
        return Err(NoGiven::NotParameter);
    };
    let Some(number) = number_given(text) else {
        return Err(NoGiven::BadNumeral);
    };
    let values = with_value(alloc, &quick.values, place, number)?;
    let model = model_with(alloc, &quick.model, &values)?;
    let found = find(alloc, &quick.statement, model, budget, pick)?;
    let answer = tell_found(alloc, book, &quick.statement, cell, text, found)?;
    keep_values(quick, values, &answer);
    Ok(answer)
}
