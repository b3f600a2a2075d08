// The errors that a cell may have in place of a value.
ghost use Rattle.std.specs.Prelude.{◌≡◌};
ghost use Rattle.cell_refs.specs.ErrorText.{error_text};

use std::fmt;

/// An error in place of a value.
#[derive(Clone, Copy, Debug, PartialEq, Eq)]
pub enum ErrorKind {
    Div0,
    Value,
    Ref,
    Num,
    NotAvailable,
    Circular,
    Malformed,
}

impl ErrorKind {
    /// What is printed of it.
    pub fn text(self) -> &'static str
        ensures { result.now ≡ error_text self }
    {
        match self {
            ErrorKind::Div0 => "#DIV/0!",
            ErrorKind::Value => "#VALUE!",
            ErrorKind::Ref => "#REF!",
            ErrorKind::Num => "#NUM!",
            ErrorKind::NotAvailable => "#N/A",
            ErrorKind::Circular => "#CIRCULAR",
            ErrorKind::Malformed => "#MALFORMED",
        }
    }
}

impl fmt::Display for ErrorKind {
    ghost use Rattle.std.specs.Prelude.{Some};
    ghost use Rattle.cell_refs.specs.ErrorText.{error_text};

    ghost output = { λ e. Some (error_text e) };

    fn fmt<W: fmt::Write>(&self, f: &mut fmt::Formatter<W>) -> fmt::Result {
        f.write_str(self.text())
    }
}
