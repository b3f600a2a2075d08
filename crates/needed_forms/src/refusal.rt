// The first reason why a sheet has no linear model.
ghost use Rattle.std.specs.Prelude.{◌≡◌, All, IfOk};
ghost use Rattle.form_needs.specs.FirstRefusal.{IsRefusal};
ghost use Rattle.needed_cells.specs.Settled.{IsRoot, IsSettled};
ghost use Rattle.needed_forms.specs.Firsts.{first_told, least_told};
ghost use Rattle.needed_forms.specs.Told.{told_refusal};
ghost use Rattle.workbook.specs.Kinds.{book_of};

use crate::least::least_in;
use crate::places::needed_places;
use crate::stage::Stage;
use crate::told::Told;
use form_needs::FormRefusal;
use formula_ast::Expr;
use memory::Memory;
use needed_cells::FormTable;
use std::alloc::Global;
use workbook::{Adj, Place, Workbook};

/// The first refusal over the places that a model of these roots needs: malformed cells, then circular places, then refusals of
/// their own, then what is no number; of each the least place. `None` where there is none.
pub fn first_refusal(
    alloc: Global,
    book: &Workbook,
    adj: &Adj,
    sides: &[(u16, Expr)],
    forms: &FormTable,
    roots: &[Place],
) -> Result<Option<FormRefusal>, Memory>
    requires settled { IsSettled (book_of book.now) sides.now adj.now forms.now }
    requires roots { All (IsRoot sides.now) roots.now }
    ensures { IfOk result (IsRefusal (record {
      book = book_of book.now;
      sides = sides.now;
      decisions = adj.now;
      roots = roots.now;
    })) }
{
    let needed = needed_places(alloc, book, adj, sides, forms, roots)?;
    let told = Told { book, adj, forms };
    Ok(first_told(&told, &needed, roots))
}

// The first refusal over needed places and over roots.
fn first_told(told: &Told, needed: &[Place], roots: &[Place]) -> Option<FormRefusal>
    ensures { result ≡ first_told (told_refusal
        (book_of told.now.book.now) told.now.adj.now told.now.forms.now) needed.now roots.now }
{
    if let Some(refusal) = least_told(told, Stage::Malformed, needed) {
        return Some(refusal);
    }
    if let Some(refusal) = least_told(told, Stage::Circular, needed) {
        return Some(refusal);
    }
    if let Some(refusal) = least_told(told, Stage::Refused, needed) {
        return Some(refusal);
    }
    least_told(told, Stage::NotNumber, roots)
}

// The refusal of this kind of the least place that has one.
fn least_told(told: &Told, stage: Stage, places: &[Place]) -> Option<FormRefusal>
    ensures { result ≡ least_told (told_refusal
        (book_of told.now.book.now) told.now.adj.now told.now.forms.now) stage places.now }
{
    match least_in(told, stage, places) {
        Some(place) => told.refusal(place),
        None => None,
    }
}
