// What is true of pieces.
ghost use Rattle.solver_io.specs.Bytes.{TakenIsAppended};

/// The pieces that a sink takes are appended to the bytes that were written.
pub fn taken_is_appended()
    ensures { TakenIsAppended }
{}
