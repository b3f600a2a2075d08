// A quick model of a sheet.
use frac128::Frac;
use quick_solve::QuickModel;
use solver_names::Statement;
use workbook::Adj;

/// What the names of a sheet state, its parameters, their values now, and the forms over decision cells and parameters.
#[derive(Drop)]
pub struct SheetQuick {
    pub statement: Statement,
    pub parameters: Adj,
    pub values: Vec<Frac>,
    pub model: QuickModel,
}
