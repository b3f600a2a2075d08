//! Linear models, boxes of them and their standard programs, in contracts alone, with their laws.
#![tactic(auto)]

ghost use Rattle.linear_models.specs.Agreement.{LinearAgrees};
ghost use Rattle.linear_models.specs.Laws.{PointsArePermitted, StandardKeepsPoints};

/// The assignments that the problem of a model permits are its points.
pub fn points_are_permitted()
    ensures { PointsArePermitted }
{}

/// The points of a box are those of its standard program, with the same objective.
pub fn standard_keeps_points()
    ensures { StandardKeepsPoints }
{}

/// A statement permits the points of its linear model, and has the same answers.
pub fn linear_agrees()
    ensures { LinearAgrees }
{}
