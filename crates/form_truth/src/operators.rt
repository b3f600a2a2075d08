// Operators, IF with an open test, IFERROR and CHOOSE.
ghost use Rattle.cell_refs.specs.declared.op.Op.{Op};
ghost use Rattle.form_truth.specs.Laws.{ChoiceIsRight, IfErrorIsRight, InfixIsRight, MinusIsRight, PercentIsRight};
ghost use Rattle.form_truth.specs.Picks.{CertainIsChosen, ChosenIsRight};

/// The operators, on single values and on grids.
pub fn operators_are_right()
    ensures infix_operators { (o : Op) → InfixIsRight o }
    ensures minus { MinusIsRight }
    ensures percent { PercentIsRight }
{}

/// IF with an open test, IFERROR and CHOOSE, also where its place is open and each choice is the error for no choice.
pub fn choices_are_right()
    ensures by_test { ChoiceIsRight }
    ensures by_error { IfErrorIsRight }
    ensures by_place { ChosenIsRight }
    ensures certain { CertainIsChosen }
{}
