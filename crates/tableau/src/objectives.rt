// What a pivot does to the rows of the two objectives.
ghost use Rattle.std.specs.Prelude.{◌≡◌, ◌≢◌, ◌<◌, suc, length, MatchResult};
ghost use Rattle.fractions.specs.Rational.{zero_ℚ};
ghost use Rattle.fractions.specs.Vectors.{at};
ghost use Rattle.dictionaries.specs.Dictionary.{solved_row, substituted};
ghost use Rattle.dictionaries.specs.Narrow.{IsNarrowSubstituted};
ghost use Rattle.tableau.specs.Changed.{IsChanged};

use crate::numbers::{change, change_back};
use crate::row::Row;
use frac128::Wide;

/// Lets `by`, to which the leaving row is solved, come in for the variable of the column in both rows. Where a number would
/// not be narrow, nothing has changed.
pub fn change_both(
    objective: &mut Row,
    auxiliary: &mut Row,
    leaving: &Row,
    col: u16,
    by: &Row,
    spare: &mut Row,
) -> Result<(), Wide>
    requires place { suc col < length by.now }
    requires pivot { at leaving.now (suc col) ≢ zero_ℚ }
    requires solved { by.now ≡ solved_row leaving.now (suc col) }
    requires entry { at by.now (suc col) ≢ zero_ℚ }
    requires leaving { length leaving.now ≡ length by.now }
    requires objective { length objective.old ≡ length by.now }
    requires auxiliary { length auxiliary.old ≡ length by.now }
    requires room { length spare.old ≡ length by.now }
    ensures made { MatchResult result
        (λ _. IsChanged objective.old (suc col) by.now objective.new
        × IsChanged auxiliary.old (suc col) by.now auxiliary.new)
        (λ _. (objective.new ≡ objective.old) × (auxiliary.new ≡ auxiliary.old)
        × ¬ (IsNarrowSubstituted objective.old (suc col) by.now
        × IsNarrowSubstituted auxiliary.old (suc col) by.now)) }
    ensures objective { length objective.new ≡ length by.now }
    ensures auxiliary { length auxiliary.new ≡ length by.now }
    ensures room { length spare.new ≡ length by.now }
{
    match change(objective, col, by, spare) {
        Ok(()) => {}
        Err(fault) => return Err(fault),
    }
    match change(auxiliary, col, by, spare) {
        Ok(()) => Ok(()),
        Err(fault) => {
            change_back(objective, col, leaving, spare);
            Err(fault)
        }
    }
}

/// Lets the leaving row come in again in both rows, where this makes narrow numbers.
pub fn restore_both(
    objective: &mut Row,
    auxiliary: &mut Row,
    leaving: &Row,
    col: u16,
    spare: &mut Row,
)
    requires place { suc col < length leaving.now }
    requires pivot { at leaving.now (suc col) ≢ zero_ℚ }
    requires objective { length objective.old ≡ length leaving.now }
    requires auxiliary { length auxiliary.old ≡ length leaving.now }
    requires room { length spare.old ≡ length leaving.now }
    requires narrow { IsNarrowSubstituted objective.old (suc col) leaving.now }
    requires narrow_auxiliary { IsNarrowSubstituted auxiliary.old (suc col) leaving.now }
    ensures objective { objective.new ≡ substituted objective.old (suc col) leaving.now }
    ensures auxiliary { auxiliary.new ≡ substituted auxiliary.old (suc col) leaving.now }
    ensures room { length spare.new ≡ length leaving.now }
{
    change_back(objective, col, leaving, spare);
    change_back(auxiliary, col, leaving, spare);
}
