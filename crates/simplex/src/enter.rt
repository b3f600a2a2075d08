ghost use Rattle.std.specs.Prelude.{◌≡◌, ◌<◌, ◌+◌, ℕ, length, MatchOption};
ghost use Rattle.dictionaries.specs.Bland.{IsOptimal, Enters};
ghost use Rattle.tableau.specs.Entries.{AreEntries};
ghost use Rattle.simplex.specs.Choices.{EntersAmong};

use frac128::Frac;
use tableau::{Dict, Row};

/// The choice among the column of one entry more.
fn enter_step(
    dict: &Dict,
    row: &Row,
    kept: &[(u16, Frac)],
    best: Option<u16>,
    place: usize,
) -> Option<u16>
    requires place { place < length kept.now }
    requires width { length row.now ≡ length dict.now.nonbasic + 1 }
    requires entries { AreEntries row.now kept.now }
    requires so_far { EntersAmong dict.now row.now kept.now place best }
    ensures { EntersAmong dict.now row.now kept.now (place + 1) result }
{
    let (col, entry) = kept[place];
    if dict.column(col) == 0 {
        return best;
    }
    if !entry.is_positive() {
        return best;
    }
    match best {
        None => Some(col),
        Some(least) => {
            if dict.column(col) < dict.column(least) {
                Some(col)
            } else {
                Some(least)
            }
        }
    }
}

/// The column of the improving variable of least number.
pub fn entering(dict: &Dict, row: &Row) -> Option<u16>
    requires { length row.now ≡ length dict.now.nonbasic + 1 }
    ensures { MatchOption result (IsOptimal dict.now row.now) (λ c. Enters dict.now row.now c) }
{
    let kept = row.kept();
    let mut best = None;
    for place in 0..kept.len() {
        best = enter_step(dict, row, kept, best, place);
    }
    best
}
