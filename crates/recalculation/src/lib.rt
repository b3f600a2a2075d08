//! What recalculation means: the value of each cell of a workbook over those of the others, which cells are circular, which are
//! wide on narrow numbers, and what a formula looks at. This crate has the definitions and their laws.
#![tactic(auto)]

ghost use Rattle.recalculation.specs.Laws.{Blocked, BoundIsEnough, CircularIsAnError, CircularIsEndless, DependsOnReached, EqualNumbersGiveEqualValues, FreeRefersToFree, KnownBoundIsEnough, KnownEquation, KnownIsTheValue, KnownLooksAtNoneWide, LookedIsReferred, OverriddenHasItsNumber, RecalculationEquation, ReferredAreCells, UndecidedIfLooksAtAll, UndecidedLooksAtItself, WalksGetShorter, WideHasNoValue, WideIsLookedAt};

/// Which cells a formula refers to, and which are circular, by walks along references.
pub fn walk_laws()
    ensures referred { ReferredAreCells }
    ensures shorter { WalksGetShorter }
    ensures free { FreeRefersToFree }
    ensures endless { CircularIsEndless }
{}

/// The value of a cell, over fractions of any size.
pub fn value_laws()
    ensures bound { BoundIsEnough }
    ensures equation { RecalculationEquation }
    ensures overridden { OverriddenHasItsNumber }
    ensures circular { CircularIsAnError }
    ensures equal { EqualNumbersGiveEqualValues }
    ensures reached { DependsOnReached }
{}

/// The value of a cell on narrow numbers: where there is one it is the value.
pub fn narrow_laws()
    ensures bound { KnownBoundIsEnough }
    ensures equation { KnownEquation }
    ensures value { KnownIsTheValue }
{}

/// What a cell looks at on narrow numbers: where it has no narrow value a wide cell, and only there.
pub fn looking_laws()
    ensures wide { WideIsLookedAt }
    ensures none { WideHasNoValue }
    ensures blocked { Blocked }
    ensures known { KnownLooksAtNoneWide }
    ensures referred { LookedIsReferred }
{}

/// What IF, IFERROR and CHOOSE look at where their first argument doesn't decide which of the others is chosen.
pub fn undecided_laws()
    ensures test { UndecidedIfLooksAtAll }
    ensures other { UndecidedLooksAtItself }
{}
