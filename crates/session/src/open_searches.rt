// The open searches of sheets, in a list with a place for each sheet.
ghost use Rattle.std.specs.Prelude.{◌≡◌, ◌<◌, ◌↔◌, IfOk, IsTrue, None, Some, filter, is_some, length, map, replicate, slice_index_or, slice_set};
ghost use Rattle.session.specs.Inner.{search_after};
ghost use Rattle.kept_book.specs.FromSheetSolving.{Opened};

use commands::{Answer, Memory};
use kept_book::OpenSearch;
use lin_model::LinModel;
use std::alloc::Global;
use std::mem;

/// How many sheets may have an open search.
pub const MOST_SEARCHES: usize = 8;

/// A place without a search for each of so many sheets.
pub(crate) fn no_searches(alloc: Global, sheets: usize) -> Result<Vec<Option<OpenSearch>>, Memory>
    ensures { IfOk result (λ searches. searches.items ≡ replicate sheets None) }
{
    let mut searches = Vec::new(alloc);
    for _ in 0..sheets {
        searches.push(None)?;
    }
    Ok(searches)
}

// Whether there is a search.
fn is_open(search: &Option<OpenSearch>) -> bool
    ensures { result ≡ is_some search.now }
{
    search.is_some()
}

// How many sheets have an open search.
fn count_open(searches: &[Option<OpenSearch>]) -> usize
    ensures { result ≡ length (filter is_some searches.now) }
{
    searches.iter().filter(|search| is_open(search)).count()
}

/// How many sheets but the one at the place have an open search.
pub(crate) fn count_others(searches: &[Option<OpenSearch>], place: usize) -> usize
    ensures { result ≡ length (filter is_some (slice_set searches.now place None)) }
{
    let count = count_open(searches);
    if has_search(searches, place) {
        count - 1
    } else {
        count
    }
}

/// Whether the sheet at the place has an open search.
pub(crate) fn has_search(searches: &[Option<OpenSearch>], place: usize) -> bool
    ensures { result ≡ is_some (slice_index_or searches.now place None) }
{
    match searches.get(place) {
        Some(search) => is_open(search),
        None => false,
    }
}

/// For each sheet whether it has an open search.
pub(crate) fn searching(alloc: Global, searches: &[Option<OpenSearch>]) -> Result<Vec<bool>, Memory>
    ensures { IfOk result (λ found. found.items ≡ map is_some searches.now) }
{
    let mut found = Vec::new(alloc);
    for search in searches {
        found.push(is_open(search))?;
    }
    Ok(found)
}

/// Whether the open search of the sheet at the place is one of this model.
pub(crate) fn has_model(searches: &[Option<OpenSearch>], place: usize, model: &LinModel) -> bool
    ensures { (search : Opened) → slice_index_or searches.now place None ≡ Some search
        → (IsTrue result ↔ (search.model ≡ model.now)) }
{
    match searches.get(place) {
        Some(Some(search)) => search.model().same(model),
        Some(None) | None => false,
    }
}

/// Takes the open search of the sheet at the place out of the list.
pub(crate) fn take_search(
    searches: &mut Vec<Option<OpenSearch>>,
    place: usize,
) -> Option<OpenSearch>
    requires { place < length searches.old.items }
    ensures search { result ≡ slice_index_or searches.old.items place None }
    ensures left { searches.new.items ≡ slice_set searches.old.items place None }
{
    searches[place].take()
}

/// Puts a search, or none, in the place of what the sheet at the place had.
pub(crate) fn put_search(
    searches: &mut Vec<Option<OpenSearch>>,
    place: usize,
    search: Option<OpenSearch>,
)
    requires { place < length searches.old.items }
    ensures { searches.new.items ≡ slice_set searches.old.items place search }
{
    let mut was = search;
    mem::swap(&mut searches[place], &mut was);
    drop(was);
}

/// What stays open of a search after an answer to a slice: the search where it can be gone on with.
pub(crate) fn search_after(answer: &Answer, search: OpenSearch) -> Option<OpenSearch>
    ensures { result ≡ search_after answer.now search }
{
    match answer {
        Answer::More(_) => Some(search),
        _ => {
            drop(search);
            None
        }
    }
}
