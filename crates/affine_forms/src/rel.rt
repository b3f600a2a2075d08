// Relations of a number to 0.
ghost use Rattle.std.specs.Prelude.{◌≡◌, ◌↔◌, IsTrue};
ghost use Rattle.affine_forms.specs.Relations.{Holds, holds, reversed};

use frac128::Frac;

/// How a number stands to 0.
#[derive(Clone, Copy, Debug, PartialEq, Eq)]
pub enum Rel {
    Lt,
    Le,
    Eq,
    Ne,
    Ge,
    Gt,
}

impl Rel {
    /// Whether the number is in the relation to 0.
    pub fn holds(self, number: Frac) -> bool
        ensures fact { IsTrue result ↔ Holds self number }
        ensures test { result ≡ holds self number }
    {
        match self {
            Rel::Lt => number.is_negative(),
            Rel::Le => !number.is_positive(),
            Rel::Eq => number.is_zero(),
            Rel::Ne => !number.is_zero(),
            Rel::Ge => !number.is_negative(),
            Rel::Gt => number.is_positive(),
        }
    }

    /// The relation that holds exactly where this one doesn't.
    pub fn complement(self) -> Rel
        ensures { result ≡ reversed self }
    {
        match self {
            Rel::Lt => Rel::Ge,
            Rel::Le => Rel::Gt,
            Rel::Eq => Rel::Ne,
            Rel::Ne => Rel::Eq,
            Rel::Ge => Rel::Lt,
            Rel::Gt => Rel::Le,
        }
    }
}
