ghost use Rattle.std.specs.Prelude.{◌≡◌, length};
ghost use Rattle.dictionaries.specs.Bland.{IsUnboundedEnd};
ghost use Rattle.dictionaries.specs.Run.{IsReached};
ghost use Rattle.searches.specs.Trails.{decisions_at, decisions_along};

use frac128::Frac;
use linear_programs::Standard;
use simplex::{cell_change, cell_value};
use tableau::Dict;

/// Writes the decisions' numbers at the dictionary's point.
pub(crate) fn read_point(of: &Standard, dict: &Dict, into: &mut [Frac])
    requires reached { IsReached of.now dict.now }
    requires one_each { length into.old ≡ length of.now.columns }
    ensures { into.new ≡ decisions_at of.now dict.now }
{
    let columns = of.columns();
    for decision in 0..columns.len() {
        into[decision] = cell_value(of, dict, columns[decision]);
    }
}

/// Writes how they change along the column that no row bounds.
pub(crate) fn read_direction(of: &Standard, dict: &Dict, col: u16, into: &mut [Frac])
    requires reached { IsReached of.now dict.now }
    requires end { IsUnboundedEnd dict.now col }
    requires one_each { length into.old ≡ length of.now.columns }
    ensures { into.new ≡ decisions_along of.now dict.now col }
{
    let columns = of.columns();
    for decision in 0..columns.len() {
        into[decision] = cell_change(of, dict, col, columns[decision]);
    }
}
