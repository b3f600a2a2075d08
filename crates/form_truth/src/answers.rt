// Code's answers, and what bends.
ghost use Rattle.sheet_funcs.specs.Arguments.{elements_of};
ghost use Rattle.form_truth.specs.Answered.{AnswersAreRight};
ghost use Rattle.form_truth.specs.Bending.{WhatBendsHasNoForm};
ghost use Rattle.form_truth.specs.Products.{FactorsBend, PairBends};
ghost use Rattle.form_values.specs.Refusals.{SomeBends};
ghost use Rattle.form_values.specs.declared.abs.AbsArg.{AbsArg};

/// What code answers on narrow numbers is right where the row is.
pub fn answers_are_right()
    ensures values { AnswersAreRight (λ value args. SomeBends (λ x. elements_of (value x))) }
    ensures products { AnswersAreRight (λ value args. FactorsBend args) }
    ensures matrices { (a b : AbsArg) → AnswersAreRight (λ value args. PairBends a b) }
{}

/// What bends is neither the same under every assignment nor a form.
pub fn what_bends_has_no_form()
    ensures { WhatBendsHasNoForm }
{}
