// An edit of one name.
ghost use Rattle.std.specs.Prelude.{◌≡◌, option_map, string_bytes};
ghost use Rattle.workbook.specs.Changed.{given_text, is_of};

use crate::names::is_same_sheet;
use cell_refs::SheetId;

/// What a name is given: its text, and how its sheet is spelled where it is new.
#[derive(Drop)]
pub(crate) struct Given {
    pub(crate) sheet_text: String,
    pub(crate) text: String,
}

/// An edit of the name of a sheet, or of the whole workbook: what it is given, or none where it is taken away.
#[derive(Drop)]
pub(crate) struct Change {
    pub(crate) sheet: Option<SheetId>,
    pub(crate) name: String,
    pub(crate) given: Option<Given>,
}

impl Change {
    /// Whether it is the edit of this name, in any case of ASCII letters.
    pub(crate) fn is_of(&self, sheet: Option<SheetId>, name: &str) -> bool
        ensures { result ≡ is_of (option_map (λ s. s.0) sheet) name.now self.now }
    {
        is_same_sheet(self.sheet, sheet) && self.name.as_str().eq_ignore_ascii_case(name)
    }

    /// The text of the name after it.
    pub(crate) fn text(&self) -> Option<&str>
        ensures { option_map (λ t. t.now) result ≡ given_text self.now }
    {
        match &self.given {
            Some(given) => Some(given.text.as_str()),
            None => None,
        }
    }
}
