// What is true of the trees of texts.
ghost use Rattle.formula_parser.specs.TextTrees.{TreesAreSpelled};

/// The tree of a text is the one that the text spells, where it has no fault.
pub fn trees_are_spelled()
    ensures { TreesAreSpelled }
{}
