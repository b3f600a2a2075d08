// What is asked of a workbook's names.
ghost use Rattle.std.specs.Prelude.{◌≡◌, ◌+◌, ◌≤◌, ◌<◌, IfOk, IfSome, length, option_map};
ghost use Rattle.cell_refs.specs.declared.limits.TheConstants.{TEXT_BYTES};
ghost use Rattle.workbook.specs.Kinds.{formula_tree};
ghost use Rattle.workbook.specs.State.{text_of};

use crate::Workbook;
use crate::names::Key;
use crate::say::tree;
use cell_refs::SheetId;
use formula_ast::Expr;
use memory::Memory;
use std::alloc::Global;

impl Workbook {
    /// The text for which a name stands, on the sheet or in the whole workbook, in one look-up.
    pub fn text_of_name(
        &self,
        alloc: Global,
        sheet: Option<SheetId>,
        name: &str,
    ) -> Result<Option<&str>, Memory>
        ensures text { IfOk result (λ text. option_map (λ t. t.now) text
            ≡ text_of self.now.names (option_map (λ s. s.0) sheet) name.now) }
        ensures short { IfOk result (λ text. IfSome text (λ t. length t.now ≤ TEXT_BYTES)) }
    {
        let key = Key::new(alloc, sheet, name)?;
        Ok(self.names().text(&key))
    }

    /// The tree that a text would have as the formula of a cell on a sheet; none where it would be malformed.
    pub fn formula(&self, alloc: Global, home: SheetId, text: &str) -> Result<Option<Expr>, Memory>
        requires length { length text.now ≤ TEXT_BYTES + 1 }
        requires listed { home.0 < length self.now.sheets }
        ensures { IfOk result (λ tree. tree
            ≡ formula_tree self.now.sheets self.now.names home.0 text.now) }
    {
        tree(alloc, &self.scope(home), text)
    }
}
