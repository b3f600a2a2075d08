// What is true of forms and of relations, whatever the code.
ghost use Rattle.affine_forms.specs.Laws.{CoefficientLaws, EqualityLaws, FormLaws, MovementLaws, MultipleLaws, NarrowLaws, RelationLaws, WorthLaws};

/// The result of an operation on forms is worth what the operation on their worths gives.
pub fn worth_laws()
    ensures { WorthLaws }
{}

/// An operation on forms fits exactly where each of its numbers does.
pub fn narrow_laws()
    ensures { NarrowLaws }
{}

/// Operations on forms give forms.
pub fn form_laws()
    ensures { FormLaws }
{}

/// Each coefficient of a result is that of the operation on coefficients.
pub fn coefficient_laws()
    ensures { CoefficientLaws }
{}

/// Two forms are one, or differ at some point: so equality of forms is equality of functions.
pub fn equality_laws()
    ensures { EqualityLaws }
{}

/// A form with a term takes any value, and two such forms change along one direction.
pub fn movement_laws()
    ensures { MovementLaws }
{}

/// A form is a multiple of another everywhere, or isn't 0 at a point where that one is.
pub fn multiple_laws()
    ensures { MultipleLaws }
{}

/// What reversing a relation means, and exchanging its sides.
pub fn relation_laws()
    ensures { RelationLaws }
{}
