// What is true of open quick models.
ghost use Rattle.sheet_quick.specs.Laws.{OpenOnceGiven, OpenOnceWritten, QuickModelIsAModel, QuickModelIsTheLinearModel, QuickModelIsTheSheet, SameStatement};

/// Whatever values the parameters hold, the quick model permits what the sheet permits, with the same objective; where the sheet has a
/// linear model of its own, it is that one. It stays open where a parameter is given a number, and where decision cells are written.
pub fn quick_laws()
    ensures problem { QuickModelIsTheSheet }
    ensures model { QuickModelIsAModel }
    ensures stated { SameStatement }
    ensures linear { QuickModelIsTheLinearModel }
    ensures given { OpenOnceGiven }
    ensures written { OpenOnceWritten }
{}
