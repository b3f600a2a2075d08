//! How many units a search spends at most where each decision that is to be whole has two bounds, in contracts alone: the number that is stated to be
//! enough, and the laws of trees and trails behind it.
#![tactic(auto)]

ghost use Rattle.std.specs.Prelude.{◌≡◌};
ghost use Rattle.search_bounds.specs.Choices.{choices_of};
ghost use Rattle.search_bounds.specs.Enough.{enough_for};
ghost use Rattle.search_bounds.specs.Examples.{two_products, three_choices};
ghost use Rattle.search_bounds.specs.Laws.{StatedUnitsAreEnough, TreesAreSmall, TrueTreesSplitInParts, WholesAreCounted};

/// As many whole numbers are between two numbers as are counted.
pub fn wholes_are_counted()
    ensures { WholesAreCounted }
{}

/// Each split of a true tree leaves a whole value of the decision on either side.
pub fn true_trees_split_in_parts()
    ensures { TrueTreesSplitInParts }
{}

/// A tree that splits so has at most twice as many nodes as there are choices of whole values, less one.
pub fn trees_are_small()
    ensures { TreesAreSmall }
{}

/// A search is over, or at a pivot that isn't narrow, before it has spent the stated number of units.
pub fn stated_units_are_enough()
    ensures { StatedUnitsAreEnough }
{}

/// Two decisions, none to be whole, and two rows: 5,152 units are enough.
pub fn units_of_two_products()
    ensures { enough_for two_products ≡ 5152 }
{}

/// Three decisions of 0 or 1 have eight choices; with one row 205,952 units are enough.
pub fn units_of_three_choices()
    ensures choices { choices_of three_choices ≡ 8 }
    ensures units { enough_for three_choices ≡ 205952 }
{}
