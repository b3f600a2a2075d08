// Boxes: an optional least and greatest value for each decision.
ghost use Rattle.std.specs.Prelude.{◌≡◌, ◌<◌, IfOk, length};
ghost use Rattle.linear_models.specs.Box.{greater, lesser, lower_part, upper_part};

use frac128::Frac;
use memory::Memory;
use std::alloc::Global;
use std::marker::Model;

/// For each decision a least value and a greatest value, each where it is there.
#[derive(Debug, Drop)]
pub struct BoundBox {
    least: Vec<Option<Frac>>,
    greatest: Vec<Option<Frac>>,
}

impl Model for BoundBox {
    ghost use Rattle.linear_models.specs.Box.{Box};

    ghost Value = { Box };

    ghost view = { λ b. record { least = b.least.items; greatest = b.greatest.items } };
}

impl BoundBox {
    pub fn new(least: Vec<Option<Frac>>, greatest: Vec<Option<Frac>>) -> BoundBox
        ensures { result ≡ record { least = least.items; greatest = greatest.items } }
    {
        BoundBox { least, greatest }
    }

    /// The least values.
    pub fn least(&self) -> &[Option<Frac>]
        ensures { result.now ≡ self.now.least }
    {
        &self.least
    }

    /// The greatest values.
    pub fn greatest(&self) -> &[Option<Frac>]
        ensures { result.now ≡ self.now.greatest }
    {
        &self.greatest
    }

    /// An equal box.
    pub fn copy(&self, alloc: Global) -> Result<BoundBox, Memory>
        ensures { IfOk result (λ b. b ≡ self.now) }
    {
        let least = copy_bounds(alloc, &self.least)?;
        let greatest = copy_bounds(alloc, &self.greatest)?;
        Ok(BoundBox { least, greatest })
    }

    /// The part of the box in which the decision is at most that.
    pub fn at_most(&self, alloc: Global, decision: u16, bound: Frac) -> Result<BoundBox, Memory>
        requires { decision < length self.now.greatest }
        ensures { IfOk result (λ b. b ≡ lower_part self.now decision bound) }
    {
        let least = copy_bounds(alloc, &self.least)?;
        let mut greatest = copy_bounds(alloc, &self.greatest)?;
        greatest[decision as usize] = Some(lesser(greatest[decision as usize], bound));
        Ok(BoundBox { least, greatest })
    }

    /// The part of the box in which the decision is at least that.
    pub fn at_least(&self, alloc: Global, decision: u16, bound: Frac) -> Result<BoundBox, Memory>
        requires { decision < length self.now.least }
        ensures { IfOk result (λ b. b ≡ upper_part self.now decision bound) }
    {
        let mut least = copy_bounds(alloc, &self.least)?;
        let greatest = copy_bounds(alloc, &self.greatest)?;
        least[decision as usize] = Some(greater(least[decision as usize], bound));
        Ok(BoundBox { least, greatest })
    }
}

// The lesser of a greatest value that may be there and another.
pub(crate) fn lesser(bound: Option<Frac>, other: Frac) -> Frac
    ensures { result ≡ lesser bound other }
{
    match bound {
        None => other,
        Some(greatest) => {
            if other.is_below(greatest) {
                other
            } else {
                greatest
            }
        }
    }
}

// The greater of a least value that may be there and another.
pub(crate) fn greater(bound: Option<Frac>, other: Frac) -> Frac
    ensures { result ≡ greater bound other }
{
    match bound {
        None => other,
        Some(least) => { if least.is_below(other) { other } else { least } }
    }
}

fn copy_bounds(alloc: Global, bounds: &[Option<Frac>]) -> Result<Vec<Option<Frac>>, Memory>
    ensures { IfOk result (λ v. v.items ≡ bounds.now) }
{
    Ok(Vec::from_slice(alloc, bounds)?)
}
