ghost use Rattle.std.specs.Prelude.{◌≡◌, ◌<◌, ◌+◌, ℕ, suc, length, MatchOption, MatchResult};
ghost use Rattle.fractions.specs.Rational.{zero_ℚ, neg_ℚ, ◌<ℚ◌};
ghost use Rattle.fractions.specs.Vectors.{at};
ghost use Rattle.dictionaries.specs.Dictionary.{row_of};
ghost use Rattle.dictionaries.specs.Bland.{IsUnbounded, IsPivotRow, IsCandidate, ratio_of, IsNarrowRatio};
ghost use Rattle.simplex.specs.Leaving.{IsSought};

use frac128::{Frac, Wide};
use tableau::Dict;

/// What is found of the rows gone along: none that bounds the column's variable; the one that leaves, with its ratio; or, where
/// a ratio is not narrow, the one of least number of these.
#[derive(Clone, Copy)]
pub(crate) enum Sought {
    Free,
    Leaves(u16, Frac),
    Blocked(u16),
}

/// How far the row, which has the entry in that column, lets the variable of the column grow.
#[tactic(auto, unfolding(dictionaries::specs::Narrow::IsNarrowQuotient))]
fn ratio(dict: &Dict, row: u16, col: u16, entry: Frac) -> Result<Frac, Wide>
    requires row { row < length dict.now.basic }
    requires entry { entry ≡ at (row_of dict.now row) (suc col) }
    requires negative { entry <ℚ zero_ℚ }
    ensures { MatchResult result (λ r. (r ≡ ratio_of dict.now col row)
        × IsNarrowRatio dict.now col row) (λ _. ¬ (IsNarrowRatio dict.now col row)) }
{
    dict.rest(row).div(entry.neg())
}

/// What is found with one row more, whose ratio is narrow.
fn with_ratio(dict: &Dict, col: u16, sought: Sought, row: u16, own: Frac) -> Sought
    requires row { row < length dict.now.basic }
    requires candidate { IsCandidate dict.now col row }
    requires ratio { own ≡ ratio_of dict.now col row }
    requires narrow { IsNarrowRatio dict.now col row }
    requires so_far { IsSought dict.now col row sought }
    ensures { IsSought dict.now col (row + 1) result }
{
    match sought {
        Sought::Free => Sought::Leaves(row, own),
        Sought::Blocked(least_row) => Sought::Blocked(least_row),
        Sought::Leaves(least_row, least) => {
            if own.is_below(least) {
                return Sought::Leaves(row, own);
            }
            if least.is_below(own) {
                return Sought::Leaves(least_row, least);
            }
            if dict.basic(row) < dict.basic(least_row) {
                Sought::Leaves(row, own)
            } else {
                Sought::Leaves(least_row, least)
            }
        }
    }
}

/// What is found with one row more, whose ratio is not narrow.
fn without_ratio(dict: &Dict, col: u16, sought: Sought, row: u16) -> Sought
    requires row { row < length dict.now.basic }
    requires candidate { IsCandidate dict.now col row }
    requires wide { ¬ (IsNarrowRatio dict.now col row) }
    requires so_far { IsSought dict.now col row sought }
    ensures { IsSought dict.now col (row + 1) result }
{
    match sought {
        Sought::Free => Sought::Blocked(row),
        Sought::Leaves(_, _) => Sought::Blocked(row),
        Sought::Blocked(least) => {
            if dict.basic(row) < dict.basic(least) {
                Sought::Blocked(row)
            } else {
                Sought::Blocked(least)
            }
        }
    }
}

/// What is found with one row more.
fn with_row(dict: &Dict, col: u16, sought: Sought, row: u16) -> Sought
    requires row { row < length dict.now.basic }
    requires column { col < length dict.now.nonbasic }
    requires so_far { IsSought dict.now col row sought }
    ensures { IsSought dict.now col (row + 1) result }
{
    let entry = dict.entry(row, col);
    if !entry.is_negative() {
        return sought;
    }
    match ratio(dict, row, col, entry) {
        Ok(own) => with_ratio(dict, col, sought, row, own),
        Err(_) => without_ratio(dict, col, sought, row),
    }
}

/// The row of the pivot at the column, where one bounds its variable: the rows are gone along once.
pub fn pivot_row(dict: &Dict, col: u16) -> Option<u16>
    requires { col < length dict.now.nonbasic }
    ensures { MatchOption result (IsUnbounded dict.now col) (λ r. IsPivotRow dict.now col r) }
{
    let mut sought = Sought::Free;
    for row in 0..dict.height() {
        sought = with_row(dict, col, sought, row);
    }
    match sought {
        Sought::Free => None,
        Sought::Leaves(row, _) => Some(row),
        Sought::Blocked(row) => Some(row),
    }
}
