// Affine forms.
ghost use Rattle.std.specs.Prelude.{◌≡◌, ◌↔◌, ◌⊎◌, ◌+◌, ◌<◌, IsTrue, IfErr, IfOk, OnErr, [], length};
ghost use Rattle.std.specs.Result.{result_map_both};
ghost use Rattle.affine_forms.specs.Answers.{Answers, AnswersInPlace, NeedsRoom};
ghost use Rattle.affine_forms.specs.Assigned.{ReachTo, assigned};
ghost use Rattle.affine_forms.specs.Forms.{IsForm, constant_form, decision_form, has_terms, negated};
ghost use Rattle.affine_forms.specs.Steps.{added, added_product, evaluated_at, multiple_of, scaled, subtracted};
ghost use Rattle.affine_forms.specs.declared.stop.FormStop.TheVariants as stops;
ghost use Rattle.calculations.specs.Calculation.{done};

use crate::comparing::{are_below, are_same, are_scaled, coefficient_of, value_at};
use crate::merging::{multiple_of_terms, opposite_terms, sum_of_terms};
use crate::steps::{add, divide, equal, multiply};
use crate::stop::FormStop;
use crate::sums::add_terms;
use crate::terms::Terms;
use frac128::{Frac, Wide};
use memory::Memory;
use std::alloc::Global;
use std::marker::Model;

/// A constant and terms, each the number of a decision and its coefficient: the numbers rise, and no coefficient is 0.
/// Up to two terms stand in the form itself and take no memory.
#[derive(Drop)]
pub struct Form {
    base: Frac,
    terms: Terms,
}

impl Model for Form {
    ghost use Rattle.affine_forms.specs.Forms.{AffineForm, IsForm};

    ghost Value = { AffineForm };

    ghost view = { λ f. record { constant = f.base; terms = f.terms } };

    ghost invariant = { λ f. IsForm (record { constant = f.base; terms = f.terms }) };
}

impl Form {
    /// The form of a number.
    pub fn constant(alloc: Global, c: Frac) -> Form
        ensures { result ≡ constant_form c }
    {
        Form {
            base: c,
            terms: Terms::new(alloc),
        }
    }

    /// The form of a decision.
    pub fn decision(alloc: Global, j: u16) -> Form
        ensures { result ≡ decision_form j }
    {
        Form {
            base: Frac::zero(),
            terms: Terms::one(alloc, (j, Frac::one())),
        }
    }

    /// Its constant.
    pub fn base(&self) -> Frac
        ensures { result ≡ self.now.constant }
    {
        self.base
    }

    /// Its terms.
    pub fn terms(&self) -> &[(u16, Frac)]
        ensures terms { result.now ≡ self.now.terms }
        ensures form { IsForm self.now }
    {
        self.terms.as_slice()
    }

    /// Whether it is the same under every assignment.
    pub fn is_constant(&self) -> bool
        ensures { IsTrue result ↔ (self.now.terms ≡ []) }
    {
        self.terms().is_empty()
    }

    /// Whether its decisions are all below a bound.
    pub fn reaches_to(&self, bound: usize) -> bool
        ensures { IsTrue result ↔ ReachTo self.now.terms bound }
    {
        are_below(self.terms(), bound)
    }

    /// Whether both are one form.
    pub fn same(&self, other: &Form) -> bool
        ensures { IsTrue result ↔ (self.now ≡ other.now) }
    {
        equal(self.base(), other.base()) && are_same(self.terms(), other.terms())
    }

    /// Whether it is the form of a decision.
    pub fn is_decision(&self, j: u16) -> bool
        ensures { IsTrue result ↔ (self.now ≡ decision_form j) }
    {
        equal(self.base(), Frac::zero()) && are_same(self.terms(), &[(j, Frac::one())])
    }

    /// The same form again.
    pub fn copy(&self) -> Result<Form, Memory>
        ensures ok { IfOk result (λ copy. copy ≡ self.now) }
        ensures in_place { OnErr result (2 < length self.now.terms) }
    {
        let terms = Terms::of(self.alloc(), self.terms())?;
        Ok(Form {
            base: self.base(),
            terms,
        })
    }

    /// The form with its sign turned.
    pub fn neg(&self) -> Result<Form, Memory>
        ensures ok { IfOk result (λ turned. turned ≡ negated self.now) }
        ensures in_place { OnErr result (2 < length self.now.terms) }
    {
        let terms = opposite_terms(self.alloc(), self.terms())?;
        Ok(Form {
            base: self.base().neg(),
            terms,
        })
    }

    /// The sum, coefficient by coefficient.
    pub fn add(&self, other: &Form) -> Result<Form, FormStop>
        ensures answer { Answers (added self.now other.now) result }
        ensures in_place { IfErr result (λ stop. stop ≡ stops.Memory
            → NeedsRoom (added self.now other.now)) }
        ensures few { IfErr result (λ stop. stop ≡ stops.Memory
            → 2 < length self.now.terms + length other.now.terms) }
    {
        let base = add(self.base(), other.base())?;
        let terms = sum_of_terms(self.alloc(), self.terms(), other.terms())?;
        Ok(Form { base, terms })
    }

    /// The difference: the sum with the other's sign turned.
    pub fn sub(&self, other: &Form) -> Result<Form, FormStop>
        ensures answer { Answers (subtracted self.now other.now) result }
        ensures in_place { IfErr result (λ stop. stop ≡ stops.Memory
            → NeedsRoom (done (negated other.now)) ⊎ NeedsRoom (subtracted self.now other.now)) }
        ensures few { IfErr result (λ stop. stop ≡ stops.Memory
            → 2 < length self.now.terms + length other.now.terms) }
    {
        let turned = other.neg()?;
        self.add(&turned)
    }

    /// So many times the form.
    pub fn scale(&self, k: Frac) -> Result<Form, FormStop>
        ensures answer { Answers (scaled k self.now) result }
        ensures in_place { IfErr result (λ stop. stop ≡ stops.Memory
            → NeedsRoom (scaled k self.now)) }
        ensures few { IfErr result (λ stop. stop ≡ stops.Memory → 2 < length self.now.terms) }
    {
        let base = multiply(self.base(), k)?;
        let terms = multiple_of_terms(self.alloc(), k, self.terms())?;
        Ok(Form { base, terms })
    }

    /// Adds the other in place. Where its terms lie behind those of the form, they are put there and nothing is moved, so that a
    /// long sum in the order of the decisions takes one pass.
    pub fn add_to(&mut self, other: &Form) -> Result<(), FormStop>
        ensures answer { Answers (added self.old other.now)
            (result_map_both (λ _. self.new) (λ stop. stop) result) }
        ensures unchanged { OnErr result (self.new ≡ self.old) }
        ensures in_place { IfErr result (λ stop. stop ≡ stops.Memory
            → NeedsRoom (added self.old other.now)) }
        ensures few { IfErr result (λ stop. stop ≡ stops.Memory
            → 2 < length self.old.terms + length other.now.terms) }
    {
        let base = add(self.base, other.base())?;
        add_terms(&mut self.terms, other.terms())?;
        self.base = base;
        Ok(())
    }

    /// Adds so many times the other in place: all products are made first, and then added.
    pub fn add_product(&mut self, k: Frac, other: &Form) -> Result<(), FormStop>
        ensures answer { Answers (added_product self.old k other.now)
            (result_map_both (λ _. self.new) (λ stop. stop) result) }
        ensures unchanged { OnErr result (self.new ≡ self.old) }
        ensures in_place { IfErr result (λ stop. stop ≡ stops.Memory
            → NeedsRoom (scaled k other.now) ⊎ NeedsRoom (added_product self.old k other.now)) }
        ensures few { IfErr result (λ stop. stop ≡ stops.Memory
            → 2 < length self.old.terms + length other.now.terms) }
    {
        let product = other.scale(k)?;
        self.add_to(&product)
    }

    /// Whether it is a fraction times the other: the coefficients at the other's first term are divided, the other is multiplied by
    /// that, and compared with the form.
    pub fn multiple_of(&self, other: &Form) -> Result<bool, Wide>
        requires { IsTrue (has_terms other.now) }
        ensures { AnswersInPlace (multiple_of self.now other.now) result }
    {
        let first = other.terms()[0];
        let k = divide(coefficient_of(self.terms(), first.0), first.1)?;
        let base = multiply(other.base(), k)?;
        let same = are_scaled(self.terms(), k, other.terms())?;
        Ok(equal(self.base(), base) && same)
    }

    /// The value under an assignment, which has a number for each term: from the constant, each product is added when it is made.
    pub fn eval(&self, at: &[Frac]) -> Result<Frac, Wide>
        requires { ReachTo self.now.terms (length at.now) }
        ensures { AnswersInPlace (evaluated_at (assigned at.now) self.now) result }
    {
        value_at(self.base(), self.terms(), at)
    }

    // Where memory is taken from.
    fn alloc(&self) -> Global {
        self.terms.alloc()
    }
}
