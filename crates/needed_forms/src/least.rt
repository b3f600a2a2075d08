// The least place with a refusal of a kind.
ghost use Rattle.std.specs.Prelude.{◌≡◌};
ghost use Rattle.needed_forms.specs.Firsts.{is_before, is_told, least_in, lesser, with_least};
ghost use Rattle.needed_forms.specs.Told.{told_refusal};
ghost use Rattle.workbook.specs.Kinds.{book_of};
ghost use Rattle.cell_refs.specs.declared.place.Place.TheVariants as place;

use crate::stage::{Stage, is_in};
use crate::told::Told;
use cell_refs::Cell;
use workbook::Place;

/// The least of some places with a refusal of this kind.
pub(crate) fn least_in(told: &Told, stage: Stage, places: &[Place]) -> Option<Place>
    ensures { result ≡ least_in (is_told (told_refusal
        (book_of told.now.book.now) told.now.adj.now told.now.forms.now) stage) places.now }
{
    let mut least = None;
    let mut place = places.len();
    while place > 0 {
        place -= 1;
        least = with_least(told, stage, places[place], least);
    }
    least
}

// The lesser of a place, if it has a refusal of this kind, and of another.
fn with_least(told: &Told, stage: Stage, place: Place, least: Option<Place>) -> Option<Place>
    ensures { result ≡ with_least (is_told (told_refusal
        (book_of told.now.book.now) told.now.adj.now told.now.forms.now) stage place) place least }
{
    if is_in(stage, told.refusal(place)) {
        return Some(lesser(place, least));
    }
    least
}

// The lesser of two places.
fn lesser(place: Place, other: Option<Place>) -> Place
    ensures { result ≡ lesser place other }
{
    let Some(other) = other else {
        return place;
    };
    if is_before(place, other) {
        return place;
    }
    other
}

// Whether a place comes before another.
fn is_before(place: Place, other: Place) -> bool
    ensures { result ≡ is_before place other }
{
    match place {
        Place::Cell(cell) => is_cell_before(cell, other),
        Place::Side(number) => is_side_before(number, other),
    }
}

// Whether a cell comes before a place.
fn is_cell_before(cell: Cell, other: Place) -> bool
    ensures { result ≡ is_before (place.Cell cell) other }
{
    match other {
        Place::Cell(other) => cell < other,
        Place::Side(_) => true,
    }
}

// Whether a side comes before a place.
fn is_side_before(number: u16, other: Place) -> bool
    ensures { result ≡ is_before (place.Side number) other }
{
    match other {
        Place::Cell(_) => false,
        Place::Side(other) => number < other,
    }
}
