ghost use Rattle.branch_bound.specs.Slices.{SlicesAreOneRun};

/// Runs of a search, one after the other, are one run of the units of all.
pub fn slices_are_one_run()
    ensures { SlicesAreOneRun }
{}
