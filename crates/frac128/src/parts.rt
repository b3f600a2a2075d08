// Pairs of a numerator and a denominator in lowest terms, and the arithmetic on them.

ghost use Rattle.std.specs.Prelude.{◌≡◌, ◌≢◌, pos, neg_ℤ, ◌<◌, ◌<ℤ◌, ◌+ℤ◌, ◌*ℤ◌, ◌↔◌, IsTrue, IsSome, IfSome, MatchOption, MatchResult, IfOk, IsErr};
ghost use Rattle.std.specs.Ordering.{MatchOrdering};
ghost use Rattle.fractions.specs.Floor.{rounded_down};
ghost use Rattle.frac128.specs.Narrow.{IsNarrowWhole};
ghost use Rattle.frac128.specs.Pairs.{IsSame, IsBelow, IsNarrowPair, HasNarrow, HasNarrowSum, product, sum, reciprocal, power, quotient};
ghost use Rattle.frac128.specs.Signed.{signed};

use crate::fault::Wide;
use crate::integers::{
    compare_products, gcd, narrow_power, narrow_product, narrow_scaled, narrow_signed_power,
    narrow_signed_product, narrow_sum, quotient, with_sign,
};
use std::cmp::Ordering;
use std::marker::Model;

/// A numerator and a denominator in lowest terms.
#[derive(Debug, Clone, Copy, PartialEq, Eq)]
pub struct Parts {
    num: i128,
    den: u128,
}

impl Model for Parts {
    ghost use Rattle.frac128.specs.Pairs.{Pair, IsNarrowPair};

    ghost Value = { Pair };

    ghost view = { λ f. record { num = f.num; den = f.den } };

    ghost invariant = { λ f. IsNarrowPair (record { num = f.num; den = f.den }) };

    ghost inverse = { λ x. record { num = x.num; den = x.den } };
}

impl Parts {
    pub const ZERO: Parts = Parts { num: 0, den: 1 };

    pub const ONE: Parts = Parts { num: 1, den: 1 };

    /// A whole number.
    pub fn from_whole(n: i64) -> Parts
        ensures { result ≡ record { num = n; den = 1 } }
    {
        Parts {
            num: n as i128,
            den: 1,
        }
    }

    /// `n / d`, unless `d` is 0 or the fraction in lowest terms is not narrow.
    pub fn new(n: i128, d: i128) -> Option<Parts>
        ensures value { IfSome result (λ f. IsNarrowPair f × IsSame f (quotient n d)) }
        ensures made { IsSome result ↔ ((d ≢ pos 0) × HasNarrow (quotient n d)) }
    {
        if d == 0 {
            None
        } else {
            Parts::in_lowest_terms((n < 0) != (d < 0), n.unsigned_abs(), d.unsigned_abs())
        }
    }

    /// A fraction of a sign and two magnitudes, unless it is not narrow in lowest terms.
    fn in_lowest_terms(negative: bool, n: u128, d: u128) -> Option<Parts>
        requires { 0 < d }
        ensures { MatchOption result (HasNarrow (record { num = signed negative n; den = d }) → ⊥)
            (λ f. IsNarrowPair f × IsSame f (record { num = signed negative n; den = d })) }
    {
        const LIMIT: u128 = 1 << 127;
        let common = gcd(n, d);
        let n = quotient(n, common);
        let d = quotient(d, common);
        if n < LIMIT && d < LIMIT {
            Some(Parts {
                num: with_sign(negative, n),
                den: d,
            })
        } else {
            None
        }
    }

    pub fn num(self) -> i128
        ensures value { result ≡ self.num }
        ensures narrow { IsNarrowPair self }
    {
        self.num
    }

    pub fn den(self) -> i128
        ensures value { result ≡ pos self.den }
        ensures narrow { IsNarrowPair self }
    {
        self.den as i128
    }

    /// Whether the denominator is 1.
    pub fn is_whole(self) -> bool
        ensures { IsTrue result ↔ (self.den ≡ 1) }
    {
        self.den == 1
    }

    pub fn is_zero(self) -> bool
        ensures { IsTrue result ↔ (self.num ≡ pos 0) }
    {
        self.num == 0
    }

    pub fn is_negative(self) -> bool
        ensures { IsTrue result ↔ self.num <ℤ pos 0 }
    {
        self.num < 0
    }

    pub fn is_positive(self) -> bool
        ensures { IsTrue result ↔ pos 0 <ℤ self.num }
    {
        self.num > 0
    }

    pub fn neg(self) -> Parts
        ensures { result ≡ record { num = neg_ℤ self.num; den = self.den } }
    {
        Parts {
            num: -self.num,
            den: self.den,
        }
    }

    /// The product, which is `Wide` where it is not narrow in lowest terms.
    pub fn mul(self, other: Parts) -> Result<Parts, Wide>
        ensures value { IfOk result (λ f. IsNarrowPair f × IsSame f (product self other)) }
        ensures wide { IsErr result ↔ (HasNarrow (product self other) → ⊥) }
    {
        if self.den == 1 && other.den == 1 {
            Parts::mul_whole(self.num, other.num)
        } else {
            self.mul_across(other)
        }
    }

    /// The product of two whole numbers.
    fn mul_whole(left: i128, right: i128) -> Result<Parts, Wide>
        requires left { IsNarrowWhole left }
        requires right { IsNarrowWhole right }
        ensures { MatchResult result (λ f. (f ≡ record { num = left *ℤ right; den = 1 })
            × IsNarrowWhole (left *ℤ right)) (λ _. ¬ (IsNarrowWhole (left *ℤ right))) }
    {
        let num = narrow_signed_product(left, right)?;
        Ok(Parts { num, den: 1 })
    }

    /// The product, with each numerator and the other's denominator divided by what they share.
    #[inline(never)]
    fn mul_across(self, other: Parts) -> Result<Parts, Wide>
        ensures value { IfOk result (λ f. IsNarrowPair f × IsSame f (product self other)) }
        ensures wide { IsErr result ↔ (HasNarrow (product self other) → ⊥) }
    {
        let negative = (self.num < 0) != (other.num < 0);
        let left = self.num.unsigned_abs();
        let right = other.num.unsigned_abs();
        let over_left = gcd(left, other.den);
        let over_right = gcd(right, self.den);
        let num_left = quotient(left, over_left);
        let num_right = quotient(right, over_right);
        let den_left = quotient(self.den, over_right);
        let den_right = quotient(other.den, over_left);
        let num = narrow_product(num_left, num_right)?;
        let den = narrow_product(den_left, den_right)?;
        Ok(Parts {
            num: with_sign(negative, num),
            den,
        })
    }

    /// The sum, which is `Wide` where one of the two numerators over the least common multiple of the
    /// denominators, their sum, or the sum in lowest terms is not narrow.
    pub fn add(self, other: Parts) -> Result<Parts, Wide>
        ensures value { IfOk result (λ f. IsNarrowPair f × IsSame f (sum self other)) }
        ensures narrow { IfOk result (λ _. HasNarrowSum self other) }
        ensures wide { IsErr result ↔ (HasNarrowSum self other → ⊥) }
    {
        if self.den == 1 && other.den == 1 {
            Parts::add_whole(self.num, other.num)
        } else {
            self.add_over_common(other)
        }
    }

    /// The sum of two whole numbers.
    fn add_whole(left: i128, right: i128) -> Result<Parts, Wide>
        requires left { IsNarrowWhole left }
        requires right { IsNarrowWhole right }
        ensures { MatchResult result (λ f. (f ≡ record { num = left +ℤ right; den = 1 })
            × IsNarrowWhole (left +ℤ right)) (λ _. ¬ (IsNarrowWhole (left +ℤ right))) }
    {
        let num = narrow_sum(left, right)?;
        Ok(Parts { num, den: 1 })
    }

    /// The sum, over the least common multiple of the denominators.
    #[inline(never)]
    fn add_over_common(self, other: Parts) -> Result<Parts, Wide>
        ensures value { IfOk result (λ f. IsNarrowPair f × IsSame f (sum self other)) }
        ensures narrow { IfOk result (λ _. HasNarrowSum self other) }
        ensures wide { IsErr result ↔ (HasNarrowSum self other → ⊥) }
    {
        let common = gcd(self.den, other.den);
        let left_rest = quotient(self.den, common);
        let right_rest = quotient(other.den, common);
        let left = narrow_scaled(self.num, right_rest)?;
        let right = narrow_scaled(other.num, left_rest)?;
        let total = narrow_sum(left, right)?;
        let size = total.unsigned_abs();
        let shared = gcd(size, common);
        let den_rest = quotient(other.den, shared);
        let den = narrow_product(left_rest, den_rest)?;
        let num = quotient(size, shared);
        Ok(Parts {
            num: with_sign(total < 0, num),
            den,
        })
    }

    /// The order of the two values.
    pub fn compare(self, other: Parts) -> Ordering
        ensures { MatchOrdering result (IsBelow self other) (self ≡ other) (IsBelow other self) }
    {
        let left = self.num.unsigned_abs();
        let right = other.num.unsigned_abs();
        match (self.num < 0, other.num < 0) {
            (true, false) => Ordering::Less,
            (false, true) => Ordering::Greater,
            (false, false) => compare_products(left, other.den, right, self.den),
            (true, true) => compare_products(right, self.den, left, other.den),
        }
    }

    /// The greatest whole number that is not above the fraction.
    pub fn floor(self) -> i128
        ensures { result ≡ rounded_down self.num self.den }
    {
        self.num.div_euclid(self.den as i128)
    }

    /// `1 / self`.
    pub fn reciprocal(self) -> Parts
        requires { self.num ≢ pos 0 }
        ensures { result ≡ reciprocal self }
    {
        Parts {
            num: with_sign(self.num < 0, self.den),
            den: self.num.unsigned_abs(),
        }
    }

    /// The power, which is `Wide` where it is not narrow.
    pub fn power(self, exponent: u32) -> Result<Parts, Wide>
        ensures value { IfOk result (λ f. IsNarrowPair f × (f ≡ power self exponent)) }
        ensures wide { IsErr result ↔ (IsNarrowPair (power self exponent) → ⊥) }
    {
        let num = narrow_signed_power(self.num, exponent)?;
        let den = narrow_power(self.den, exponent)?;
        Ok(Parts { num, den })
    }
}
