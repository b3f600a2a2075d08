// What holds of each workbook.
ghost use Rattle.workbook.specs.Filled.{TextsAreSome};
ghost use Rattle.workbook.specs.Listed.{TextsAreListed};

use crate::Workbook;

impl Workbook {
    /// Each cell with a text lies on one of the sheets.
    pub fn texts_are_listed(&self)
        ensures { TextsAreListed self.now }
    {
        // (reading a field lends the proof of what holds of every workbook)
        let _formulas = self.formulas;
    }

    /// No cell has an empty text.
    pub fn texts_are_some(&self)
        ensures { TextsAreSome self.now }
    {
        // (reading a field lends the proof of what holds of every workbook)
        let _formulas = self.formulas;
    }
}
