// Sums and multiples of lists of terms.
ghost use Rattle.std.specs.Prelude.{◌≡◌, ◌++◌, ◌+◌, ◌<◌, [], IfErr, IfOk, OnErr, OnOk, length};
ghost use Rattle.affine_forms.specs.Answers.{Answers};
ghost use Rattle.affine_forms.specs.Forms.{negated_terms};
ghost use Rattle.affine_forms.specs.Steps.{in_front, merged, scaled_terms};
ghost use Rattle.affine_forms.specs.Lists.{NeedsRoomFor};
ghost use Rattle.affine_forms.specs.declared.stop.FormStop.TheVariants as stops;

use crate::steps::{add, multiply};
use crate::stop::FormStop;
use crate::terms::Terms;
use frac128::Frac;
use memory::Memory;
use std::alloc::Global;

/// The terms of a sum: two coefficients of one decision are added.
pub(crate) fn sum_of_terms(
    alloc: Global,
    left: &[(u16, Frac)],
    right: &[(u16, Frac)],
) -> Result<Terms, FormStop>
    ensures narrow { Answers (merged left.now right.now) result }
    ensures in_place { IfErr result (λ stop. stop ≡ stops.Memory
        → NeedsRoomFor (merged left.now right.now)) }
    ensures few { IfErr result (λ stop. stop ≡ stops.Memory
        → 2 < length left.now + length right.now) }
{
    let mut terms = Terms::new(alloc);
    let mut i = 0;
    let mut j = 0;
    while i < left.len() && j < right.len() {
        let t = left[i];
        let u = right[j];
        if t.0 < u.0 {
            terms.push(t)?;
            i += 1;
        } else if u.0 < t.0 {
            terms.push(u)?;
            j += 1;
        } else {
            let sum = add(t.1, u.1)?;
            push_some(&mut terms, t.0, sum)?;
            i += 1;
            j += 1;
        }
    }
    terms.append(&left[i..])?;
    terms.append(&right[j..])?;
    Ok(terms)
}

/// The terms with their signs turned.
pub(crate) fn opposite_terms(alloc: Global, terms: &[(u16, Frac)]) -> Result<Terms, Memory>
    ensures turned { IfOk result (λ turned. turned ≡ negated_terms terms.now) }
    ensures in_place { OnErr result (2 < length terms.now) }
{
    let mut turned = Terms::new(alloc);
    for (j, c) in terms {
        turned.push((*j, c.neg()))?;
    }
    Ok(turned)
}

/// The terms times a number.
pub(crate) fn multiple_of_terms(
    alloc: Global,
    k: Frac,
    terms: &[(u16, Frac)],
) -> Result<Terms, FormStop>
    ensures narrow { Answers (scaled_terms k terms.now) result }
    ensures in_place { IfErr result (λ stop. stop ≡ stops.Memory
        → NeedsRoomFor (scaled_terms k terms.now)) }
    ensures few { IfErr result (λ stop. stop ≡ stops.Memory → 2 < length terms.now) }
{
    let mut products = Terms::new(alloc);
    for (j, c) in terms {
        let product = multiply(*c, k)?;
        push_some(&mut products, *j, product)?;
    }
    Ok(products)
}

// A term behind the others, where its coefficient isn't 0.
fn push_some(terms: &mut Terms, j: u16, c: Frac) -> Result<(), Memory>
    ensures pushed { OnOk result (terms.new ≡ terms.old ++ in_front j c []) }
    ensures in_place { OnErr result (2 < length (terms.old ++ in_front j c [])) }
{
    if !c.is_zero() {
        terms.push((j, c))?;
    }
    Ok(())
}
