// What is true of every step of a session, and of every list of commands.
ghost use Rattle.session.specs.Laws.{LimitsOfSearchesAre, OtherSearchesStay, RefusedChangesNothing, SearchesAreApart, SheetsStay, SlicesCountOn};

/// A command leaves the open searches of all sheets but its own as they were.
pub fn other_searches_stay()
    ensures { OtherSearchesStay }
{}

/// No command changes which sheets there are.
pub fn sheets_stay()
    ensures { SheetsStay }
{}

/// A slice that goes further counts the units on where the model is still that of its search, and from 0 where it isn't.
pub fn slices_count_on()
    ensures { SlicesCountOn }
{}

/// A refused command changes neither the workbook nor the budget nor which files count as changed.
pub fn refused_changes_nothing()
    ensures { RefusedChangesNothing }
{}

/// How many sheets may have an open search, and how many units a search may spend.
pub fn limits_of_searches_are()
    ensures { LimitsOfSearchesAre }
{}

/// Whatever other commands stand between, the search of a sheet is as its own commands left it.
pub fn searches_are_apart()
    ensures { SearchesAreApart }
{}
