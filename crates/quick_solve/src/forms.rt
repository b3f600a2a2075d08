// Values in the place of the parameters of a form.
ghost use Rattle.std.specs.Prelude.{◌≡◌, ◌<◌, ◌+◌, ◌++◌, [], ◌∷◌, IfOk, OnOk, length};
ghost use Rattle.affine_forms.specs.Answers.{Answers, AnswersInPlace};
ghost use Rattle.affine_forms.specs.Assigned.{ReachTo, assigned};
ghost use Rattle.affine_forms.specs.Forms.{IsForm};
ghost use Rattle.affine_forms.specs.Steps.{evaluated_at, with_constant};
ghost use Rattle.parameter_laws.specs.Putting.{decision_terms, parameter_terms, put_in};
ghost use Rattle.quick_solve.specs.Inner.{product_added, with_term};

use affine_forms::{Form, FormStop};
use frac128::{Frac, Wide};
use memory::Memory;
use std::alloc::Global;

// A coefficient times a value, added to a number.
fn add_product(total: Frac, coefficient: Frac, value: Frac) -> Result<Frac, Wide>
    ensures { AnswersInPlace (product_added total coefficient value) result }
{
    let product = coefficient.mul(value)?;
    total.add(product)
}

// The constant with a term put in, where it is that of a parameter.
fn with_term(
    constant: Frac,
    term: (u16, Frac),
    decisions: u16,
    values: &[Frac],
) -> Result<Frac, Wide>
    requires { term.0 < decisions + length values.now }
    ensures { AnswersInPlace (with_term decisions (assigned values.now) constant term) result }
{
    if term.0 >= decisions {
        return add_product(constant, term.1, values[(term.0 - decisions) as usize]);
    }
    Ok(constant)
}

// The constant with the values put in: each product is added when it is made.
fn constant_at(
    base: Frac,
    terms: &[(u16, Frac)],
    decisions: u16,
    values: &[Frac],
) -> Result<Frac, Wide>
    requires { ReachTo terms.now (decisions + length values.now) }
    ensures { AnswersInPlace (evaluated_at (assigned values.now)
        (with_constant base (parameter_terms decisions terms.now))) result }
{
    let mut constant = base;
    for term in terms {
        constant = with_term(constant, *term, decisions, values)?;
    }
    Ok(constant)
}

// Puts a term behind those of the form.
fn put_behind(alloc: Global, form: &mut Form, term: (u16, Frac)) -> Result<(), Memory>
    requires { IsForm (with_constant form.old.constant (form.old.terms ++ term ∷ [])) }
    ensures { OnOk result
        (form.new ≡ with_constant form.old.constant (form.old.terms ++ term ∷ [])) }
{
    let _base = form.base().num();
    let _coefficient = term.1.num();
    match form.add_product(term.1, &Form::decision(alloc, term.0)) {
        Ok(()) => Ok(()),
        Err(FormStop::Memory) => Err(Memory),
        Err(FormStop::Wide) => unreachable!(),
    }
}

// Puts a term behind those of the form, where it is that of a decision.
fn put_term(alloc: Global, form: &mut Form, term: (u16, Frac), decisions: u16) -> Result<(), Memory>
    requires { IsForm (with_constant form.old.constant
        (form.old.terms ++ decision_terms decisions (term ∷ []))) }
    ensures { OnOk result (form.new ≡ with_constant form.old.constant
        (form.old.terms ++ decision_terms decisions (term ∷ []))) }
{
    if term.0 < decisions {
        return put_behind(alloc, form, term);
    }
    Ok(())
}

// The terms of the decisions, behind a constant.
fn decisions_left(
    alloc: Global,
    constant: Frac,
    terms: &[(u16, Frac)],
    decisions: u16,
) -> Result<Form, Memory>
    requires { IsForm (with_constant constant terms.now) }
    ensures { IfOk result (λ left. left ≡ with_constant constant
        (decision_terms decisions terms.now)) }
{
    let mut left = Form::constant(alloc, constant);
    for term in terms {
        put_term(alloc, &mut left, *term, decisions)?;
    }
    Ok(left)
}

/// The form over the first decisions alone, with values in the place of the parameters behind them: from the constant, each product
/// is added when it is made.
pub(crate) fn put_in(
    alloc: Global,
    form: &Form,
    decisions: u16,
    values: &[Frac],
) -> Result<Form, FormStop>
    requires { ReachTo form.now.terms (decisions + length values.now) }
    ensures { Answers (put_in decisions (assigned values.now) form.now) result }
{
    let constant = constant_at(form.base(), form.terms(), decisions, values)?;
    Ok(decisions_left(alloc, constant, form.terms(), decisions)?)
}
