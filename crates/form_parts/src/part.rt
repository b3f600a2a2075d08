// Parts of formulas.
ghost use Rattle.std.specs.Prelude.{[], ◌≡◌, None, option_map};
ghost use Rattle.form_extraction.specs.Parts.{value_in};
ghost use Rattle.form_extraction.specs.declared.forms.Outcome.TheVariants.{Gives, Without};

use cell_grids::Reference;
use cell_refs::{Cell, Span};
use form_extraction::Outcome;
use form_values::AbsArg;
use std::alloc::Global;
use std::marker::Model;

/// A part of a formula: its place in the text, the cells at which it looks, what it comes to, and its cells where it is a reference.
#[derive(Drop)]
pub struct Part {
    pub(crate) span: Span,
    pub(crate) looks: Vec<Cell>,
    pub(crate) outcome: Outcome,
    pub(crate) reference: Option<Reference>,
}

impl Model for Part {
    ghost use Rattle.form_extraction.specs.Parts.{Part as PartOfFormula};

    ghost Value = { PartOfFormula };

    ghost view = { λ p. record {
      span = p.span;
      looks = p.looks.items;
      outcome = p.outcome;
      reference = p.reference;
    } };
}

impl Part {
    /// The part with these.
    pub fn new(span: Span, looks: Vec<Cell>, outcome: Outcome, reference: Option<Reference>) -> Part
        ensures { result ≡ record {
          span = span;
          looks = looks.items;
          outcome = outcome;
          reference = reference;
        } }
    {
        Part {
            span,
            looks,
            outcome,
            reference,
        }
    }

    /// A part with a value that looks at nothing.
    pub fn plain(alloc: Global, span: Span, value: AbsArg) -> Part
        ensures { result
            ≡ record { span = span; looks = []; outcome = Gives value; reference = None } }
    {
        Part::new(span, Vec::new(alloc), Outcome::Gives(value), None)
    }

    /// Its place in the text.
    pub fn span(&self) -> Span
        ensures { result ≡ self.now.span }
    {
        self.span
    }

    /// The cells at which it looks, in their order.
    pub fn looks(&self) -> &[Cell]
        ensures { result.now ≡ self.now.looks }
    {
        &self.looks
    }

    /// What it comes to.
    pub fn outcome(&self) -> &Outcome
        ensures { result.now ≡ self.now.outcome }
    {
        &self.outcome
    }

    /// Its value, where it has one.
    pub fn value(&self) -> Option<&AbsArg>
        ensures { option_map (λ value. value.now) result ≡ value_in self.now.outcome }
    {
        match &self.outcome {
            Outcome::Gives(value) => Some(value),
            Outcome::Refused(_, _) | Outcome::Without => None,
        }
    }

    /// Its cells, where it is a reference.
    pub fn reference(&self) -> Option<&Reference>
        ensures { option_map (λ grid. grid.now) result ≡ self.now.reference }
    {
        self.reference.as_ref()
    }
}
