ghost use Rattle.std.specs.Prelude.{◌≡◌, ◌<◌, ◌+◌, ℕ, length, MatchOption};
ghost use Rattle.fractions.specs.Rational.{zero_ℚ, ◌<ℚ◌};
ghost use Rattle.fractions.specs.Vectors.{at};
ghost use Rattle.dictionaries.specs.Dictionary.{IsFeasible, row_of};
ghost use Rattle.simplex.specs.Choices.{WorstAmong, WorstOf};

use tableau::Dict;

/// The choice among one row more.
fn worst_step(dict: &Dict, best: Option<u16>, row: u16) -> Option<u16>
    requires row { row < length dict.now.basic }
    requires so_far { WorstAmong dict.now row best }
    ensures { WorstAmong dict.now (row + 1) result }
{
    match best {
        None => Some(row),
        Some(least) => {
            if dict.rest(row).is_below(dict.rest(least)) {
                return Some(row);
            }
            if dict.rest(least).is_below(dict.rest(row)) {
                return Some(least);
            }
            if dict.basic(row) < dict.basic(least) {
                Some(row)
            } else {
                Some(least)
            }
        }
    }
}

/// The row with the least constant, where that is negative.
pub fn worst(dict: &Dict) -> Option<u16>
    ensures { MatchOption result (IsFeasible dict.now)
        (λ r. WorstOf dict.now (length dict.now.basic) r × at (row_of dict.now r) 0 <ℚ zero_ℚ) }
{
    let mut best = None;
    for row in 0..dict.height() {
        best = worst_step(dict, best, row);
    }
    match best {
        None => None,
        Some(least) => {
            if dict.rest(least).is_negative() {
                Some(least)
            } else {
                None
            }
        }
    }
}
