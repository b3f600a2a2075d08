// The sums of products that a pivot makes: nothing is multiplied by 1 or -1, and nothing is added to 0.
ghost use Rattle.std.specs.Prelude.{◌≡◌, ◌≢◌, ◌<◌, ◌^◌, ◌↔◌, pos, unsigned_abs, IfSome, IsTrue, MatchResult};
ghost use Rattle.fractions.specs.Rational.{numerator, denominator, one_ℚ, ◌+ℚ◌, ◌*ℚ◌, ◌/ℚ◌};
ghost use Rattle.fractions.specs.Whole.{whole_ℚ};
ghost use Rattle.frac128.specs.Narrow.{IsNarrow};
ghost use Rattle.dictionaries.specs.Narrow.{IsNarrowStep};
ghost use Rattle.tableau.specs.Factors.{IsSmallWhole};

use frac128::{Frac, Wide};
use std::marker::Model;

const SMALL: i128 = 1 << 20;

/// A number by which the entries of a row are multiplied, and as a whole number where it is a small one.
#[derive(Drop)]
pub struct Factor {
    number: Frac,
    whole: Option<i64>,
}

impl Model for Factor {
    ghost use Rattle.std.specs.Prelude.{IfSome};
    ghost use Rattle.fractions.specs.Rational.{ℚ};
    ghost use Rattle.tableau.specs.Factors.{IsSmallWhole};

    ghost Value = { ℚ };

    ghost view = { λ f. f.number };

    ghost invariant = { λ f. IfSome f.whole (IsSmallWhole f.number) };
}

impl Factor {
    /// The number as a factor.
    pub fn of(number: Frac) -> Factor
        ensures { result ≡ number }
    {
        Factor {
            number,
            whole: small_whole(number),
        }
    }

    // The number, where it is whole and below 2^20 in size.
    fn whole(&self) -> Option<i64>
        ensures { IfSome result (IsSmallWhole self.now) }
    {
        self.whole
    }
}

/// Whether the number is 1.
fn is_one(number: Frac) -> bool
    ensures { IsTrue result ↔ (number ≡ one_ℚ) }
{
    number == Frac::one()
}

/// The product, where the factor is 1 or -1.
fn unit_product(factor: Frac, number: Frac) -> Option<Frac>
    ensures { IfSome result (λ f. (f ≡ factor *ℚ number) × IsNarrow f) }
{
    if is_one(factor) {
        let _num = number.num();
        return Some(number);
    }
    if is_one(factor.neg()) {
        let turned = number.neg();
        let _num = turned.num();
        return Some(turned);
    }
    None
}

/// `b * c`.
fn product(b: Frac, c: Frac) -> Result<Frac, Wide>
    ensures { MatchResult result (λ f. (f ≡ b *ℚ c) × IsNarrow (b *ℚ c))
        (λ _. ¬ (IsNarrow (b *ℚ c))) }
{
    if let Some(found) = unit_product(b, c) {
        return Ok(found);
    }
    if let Some(found) = unit_product(c, b) {
        return Ok(found);
    }
    b.mul(c)
}

/// The parts of the number, where they are below 2^20 in size.
fn small_parts(number: Frac) -> Option<(i64, i64)>
    ensures { IfSome result (λ p. (p.0 ≡ numerator number) × (p.1 ≡ pos (denominator number))
        × (unsigned_abs p.0 < 2 ^ 20) × (denominator number < 2 ^ 20)) }
{
    let num = number.num();
    let den = number.den();
    if -SMALL < num && num < SMALL && den < SMALL {
        Some((num as i64, den as i64))
    } else {
        None
    }
}

/// The number, where it is whole and below 2^20 in size.
fn small_whole(number: Frac) -> Option<i64>
    ensures { IfSome result (IsSmallWhole number) }
{
    let num = number.num();
    if number.den() == 1 && -SMALL < num && num < SMALL {
        Some(num as i64)
    } else {
        None
    }
}

/// `n / d` in lowest terms.
fn lowest(n: i64, d: i64) -> Option<Frac>
    requires { d ≢ pos 0 }
    ensures { IfSome result (λ f. (f ≡ whole_ℚ n /ℚ whole_ℚ d) × IsNarrow f) }
{
    if d == 1 {
        return Some(Frac::from_whole(n));
    }
    Frac::new(n as i128, d as i128)
}

/// `a + b * c` over one denominator, where all parts are small.
fn small_step(a: Frac, b: Frac, c: Frac) -> Option<Frac>
    ensures { IfSome result (λ f. (f ≡ a +ℚ b *ℚ c) × IsNarrowStep a b c) }
{
    let (number, under_number) = small_parts(c)?;
    let (factor, under_factor) = small_parts(b)?;
    let (entry, under_entry) = small_parts(a)?;
    let under = under_factor * under_number;
    if under_entry == under {
        return lowest(entry + factor * number, under);
    }
    lowest(
        entry * under + factor * number * under_entry,
        under_entry * under,
    )
}

/// `a + b * c`, where all three are small whole numbers.
fn whole_step(a: Frac, b: &Factor, c: Frac) -> Option<Frac>
    ensures { IfSome result (λ f. (f ≡ a +ℚ b.now *ℚ c) × IsNarrowStep a b.now c) }
{
    let factor = b.whole()?;
    let number = small_whole(c)?;
    let entry = small_whole(a)?;
    lowest(entry + factor * number, 1)
}

/// `a + b * c`.
pub fn plus_product(a: Frac, b: &Factor, c: Frac) -> Result<Frac, Wide>
    ensures { MatchResult result (λ f. (f ≡ a +ℚ b.now *ℚ c) × IsNarrowStep a b.now c)
        (λ _. ¬ (IsNarrowStep a b.now c)) }
{
    match whole_step(a, b, c) {
        Some(found) => Ok(found),
        None => fraction_step(a, b.number, c),
    }
}

/// `a + b * c`.
#[tactic(auto, unfolding(dictionaries::specs::Narrow::IsNarrowStep))]
fn fraction_step(a: Frac, b: Frac, c: Frac) -> Result<Frac, Wide>
    ensures { MatchResult result (λ f. (f ≡ a +ℚ b *ℚ c) × IsNarrowStep a b c)
        (λ _. ¬ (IsNarrowStep a b c)) }
{
    if let Some(found) = small_step(a, b, c) {
        return Ok(found);
    }
    let found = product(b, c)?;
    if a.is_zero() {
        return Ok(found);
    }
    a.add(found)
}
