// The cells to be decided among places.
ghost use Rattle.std.specs.Prelude.{◌≡◌};
ghost use Rattle.extract.specs.Places.{decision_at};
ghost use Rattle.form_extraction.specs.Places.{numbered_in};

use workbook::{Adj, Place};

/// The number of a cell that is to be decided; a side has none.
pub(crate) fn decision_at(adj: &Adj, place: Place) -> Option<u16>
    ensures { result ≡ decision_at (numbered_in adj.now) place }
{
    match place {
        Place::Cell(cell) => adj.find(cell),
        Place::Side(_) => None,
    }
}
