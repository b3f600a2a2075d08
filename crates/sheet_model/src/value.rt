// Values of cells and of parts of formulas.
ghost use Rattle.std.specs.Prelude.{◌≡◌, IfOk, List, ℕ, string_bytes};

use cell_refs::ErrorKind;
use frac128::Frac;
use memory::Memory;
use std::alloc::Global;
use std::marker::Model;

/// A text, which contracts see as the list of its bytes.
#[derive(Debug, Drop)]
pub struct Text {
    text: String,
}

impl Model for Text {
    ghost use Rattle.std.specs.Prelude.{List, ℕ, string_bytes};

    ghost Value = { List ℕ };

    ghost view = { λ t. string_bytes t.text };
}

impl Text {
    /// The text of a string.
    pub fn new(text: String) -> Text
        ensures { result ≡ string_bytes text }
    {
        Text { text }
    }

    /// The text as a string.
    pub fn as_str(&self) -> &str
        ensures { result.now ≡ self.now }
    {
        self.text.as_str()
    }
}

/// A value (OpenDocument 1.2 part 2, section 4).
#[derive(Debug, Drop)]
pub enum Value {
    Number(Frac),
    Text(Text),
    Logical(bool),
    /// What a cell without a text has.
    Empty,
    Error(ErrorKind),
}

impl Value {
    /// An equal value.
    pub fn copy(&self, alloc: Global) -> Result<Value, Memory>
        ensures { IfOk result (λ v. v ≡ self.now) }
    {
        match self {
            Value::Number(number) => Ok(Value::Number(*number)),
            Value::Text(text) => {
                Ok(Value::Text(Text::new(String::from_str(alloc, text.as_str())?)))
            }
            Value::Logical(holds) => Ok(Value::Logical(*holds)),
            Value::Empty => Ok(Value::Empty),
            Value::Error(kind) => Ok(Value::Error(*kind)),
        }
    }
}
