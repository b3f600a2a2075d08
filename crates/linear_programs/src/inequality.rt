ghost use Rattle.std.specs.Prelude.{◌≡◌, ◌↔◌, length, All, IsTrue};
ghost use Rattle.fractions.specs.Rows.{Row};

use frac128::Frac;
use std::marker::Model;

/// A row of a program: its combination of the columns is at most its bound.
#[derive(Drop)]
pub struct Inequality {
    coefficients: Vec<Frac>,
    bound: Frac,
}

impl Model for Inequality {
    ghost use Rattle.fractions.specs.Rows.{Row};

    ghost Value = { Row };

    ghost view = { λ r. record { coefficients = r.coefficients.items; bound = r.bound } };
}

impl Inequality {
    pub fn new(coefficients: Vec<Frac>, bound: Frac) -> Inequality
        ensures { result ≡ record { coefficients = coefficients.items; bound = bound } }
    {
        Inequality {
            coefficients,
            bound,
        }
    }

    /// One number per column.
    pub fn coefficients(&self) -> &[Frac]
        ensures { result.now ≡ self.now.coefficients }
    {
        &self.coefficients
    }

    pub fn bound(&self) -> Frac
        ensures { result ≡ self.now.bound }
    {
        self.bound
    }
}

/// Whether each row has so many coefficients: the test for what a program requires of rows that no model gives, as those of
/// tests.
pub fn are_regular(rows: &[Inequality], width: usize) -> bool
    ensures { IsTrue result ↔ All (λ r. length r.coefficients ≡ width) rows.now }
{
    for row in rows {
        if row.coefficients().len() != width {
            return false;
        }
    }
    true
}
