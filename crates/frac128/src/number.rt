// Exact fractions that fit two numbers of 128 bits. Contracts see a fraction of any size.

ghost use Rattle.std.specs.Prelude.{◌≡◌, ◌≢◌, ◌⊎◌, pos, negsuc, ◌≤ℤ◌, ◌<ℤ◌, ◌↔◌, IsTrue, MatchOption, MatchResult};
ghost use Rattle.std.specs.Ordering.{MatchOrdering};
ghost use Rattle.fractions.specs.Floor.{floor_ℚ};
ghost use Rattle.fractions.specs.Power.{power_ℚ, repeated};
ghost use Rattle.fractions.specs.Rational.{ℚ, numerator, denominator, zero_ℚ, one_ℚ, ◌+ℚ◌, ◌*ℚ◌, ◌-ℚ◌, ◌/ℚ◌, neg_ℚ, inv_ℚ, ◌≤ℚ◌, ◌<ℚ◌};
ghost use Rattle.fractions.specs.Whole.{whole_ℚ};
ghost use Rattle.frac128.specs.Narrow.{IsNarrow, IsNarrowSum};

use crate::fault::Wide;
use crate::parts::Parts;
use std::cmp::Ordering;
use std::marker::Model;

/// An exact fraction whose numerator and denominator, in lowest terms, are below `2 ^ 127` in size.
#[derive(Debug, Clone, Copy, PartialEq, Eq)]
pub struct Frac {
    parts: Parts,
}

impl Model for Frac {
    ghost use Rattle.fractions.specs.Rational.{ℚ};
    ghost use Rattle.frac128.specs.Pairs.{IsNarrowPair};
    ghost use Rattle.frac128.specs.Values.{value, pair_of, parts_back};

    ghost Value = { ℚ };

    ghost view = { λ f. value f.parts };

    ghost invariant = { λ f. IsNarrowPair f.parts };

    ghost inverse = { λ x. record { parts = pair_of x } };

    ghost inverse_ok = { parts_back };
}

impl Default for Frac {
    ghost is_default = { λ f. f ≡ zero_ℚ };

    /// The number 0.
    fn default() -> Frac {
        Frac::zero()
    }
}

impl Frac {
    /// The number 0.
    pub fn zero() -> Frac
        ensures { result ≡ zero_ℚ }
    {
        let parts = Parts::ZERO;
        let _num = parts.num();
        Frac { parts }
    }

    /// The number 1.
    pub fn one() -> Frac
        ensures { result ≡ one_ℚ }
    {
        let parts = Parts::ONE;
        let _num = parts.num();
        Frac { parts }
    }

    /// A whole number of 64 bits, which always fits.
    pub fn from_whole(n: i64) -> Frac
        ensures { result ≡ whole_ℚ n }
    {
        Frac {
            parts: Parts::from_whole(n),
        }
    }

    /// `n / d`, of any signs. It is `None` where `d` is 0, and where the fraction does not fit in lowest terms.
    pub fn new(n: i128, d: i128) -> Option<Frac>
        ensures { MatchOption result ((d ≡ pos 0) ⊎ ¬ (IsNarrow (whole_ℚ n /ℚ whole_ℚ d)))
            (λ f. (d ≢ pos 0) × (f ≡ whole_ℚ n /ℚ whole_ℚ d)) }
    {
        match Parts::new(n, d) {
            Some(parts) => Some(Frac { parts }),
            None => None,
        }
    }

    /// The numerator in lowest terms, which has the sign.
    pub fn num(self) -> i128
        ensures value { result ≡ numerator self }
        ensures narrow { IsNarrow self }
    {
        self.parts.num()
    }

    /// The denominator in lowest terms, which is at least 1.
    pub fn den(self) -> i128
        ensures value { result ≡ pos (denominator self) }
        ensures narrow { IsNarrow self }
    {
        self.parts.den()
    }

    /// Whether it is a whole number.
    pub fn is_whole(self) -> bool
        ensures { IsTrue result ↔ (denominator self ≡ 1) }
    {
        self.parts.is_whole()
    }

    /// The greatest whole number that is not above it: -4 for -7/2.
    pub fn floor(self) -> i128
        ensures { result ≡ floor_ℚ self }
    {
        self.parts.floor()
    }

    /// The number with its sign turned.
    pub fn neg(self) -> Frac
        ensures { result ≡ neg_ℚ self }
    {
        Frac {
            parts: self.parts.neg(),
        }
    }

    /// The sum. It is `Wide` where the numerators over the least common multiple of the denominators, their sum,
    /// or the sum in lowest terms do not fit.
    pub fn add(self, other: Frac) -> Result<Frac, Wide>
        ensures { MatchResult result (λ f. (f ≡ self +ℚ other) × IsNarrowSum self other)
            (λ _. ¬ (IsNarrowSum self other)) }
    {
        match self.parts.add(other.parts) {
            Ok(parts) => Ok(Frac { parts }),
            Err(fault) => Err(fault),
        }
    }

    /// The difference: the sum with the other's sign turned.
    pub fn sub(self, other: Frac) -> Result<Frac, Wide>
        ensures { MatchResult result (λ f. (f ≡ self -ℚ other) × IsNarrowSum self (neg_ℚ other))
            (λ _. ¬ (IsNarrowSum self (neg_ℚ other))) }
    {
        self.add(other.neg())
    }

    /// The product. It is `Wide` exactly where it does not fit in lowest terms.
    pub fn mul(self, other: Frac) -> Result<Frac, Wide>
        ensures { MatchResult result (λ f. (f ≡ self *ℚ other) × IsNarrow (self *ℚ other))
            (λ _. ¬ (IsNarrow (self *ℚ other))) }
    {
        match self.parts.mul(other.parts) {
            Ok(parts) => Ok(Frac { parts }),
            Err(fault) => Err(fault),
        }
    }

    /// The quotient. It is `Wide` exactly where it does not fit in lowest terms.
    pub fn div(self, other: Frac) -> Result<Frac, Wide>
        requires { other ≢ zero_ℚ }
        ensures { MatchResult result (λ f. (f ≡ self /ℚ other) × IsNarrow (self /ℚ other))
            (λ _. ¬ (IsNarrow (self /ℚ other))) }
    {
        self.mul(other.inverse())
    }

    /// `1 / self`, which always fits.
    pub fn inverse(self) -> Frac
        requires { self ≢ zero_ℚ }
        ensures { result ≡ inv_ℚ self }
    {
        Frac {
            parts: self.parts.reciprocal(),
        }
    }

    /// The power with a whole exponent: 27/8 for 2/3 to the power -3. It is `Wide` exactly where it does not fit.
    pub fn power(self, exponent: i32) -> Result<Frac, Wide>
        requires low { negsuc 999 ≤ℤ exponent }
        requires high { exponent ≤ℤ pos 1000 }
        requires other_than_zero { exponent <ℤ pos 0 → self ≢ zero_ℚ }
        ensures { MatchResult result (λ f. (f ≡ power_ℚ self exponent)
            × IsNarrow (power_ℚ self exponent)) (λ _. ¬ (IsNarrow (power_ℚ self exponent))) }
    {
        let times = exponent.unsigned_abs();
        if exponent < 0 {
            self.inverse().power_of_times(times)
        } else {
            self.power_of_times(times)
        }
    }

    /// The product of it by itself.
    fn power_of_times(self, times: u32) -> Result<Frac, Wide>
        ensures { MatchResult result (λ f. (f ≡ repeated self times)
            × IsNarrow (repeated self times)) (λ _. ¬ (IsNarrow (repeated self times))) }
    {
        match self.parts.power(times) {
            Ok(parts) => Ok(Frac { parts }),
            Err(fault) => Err(fault),
        }
    }

    /// The order of the two values.
    pub fn compare(self, other: Frac) -> Ordering
        ensures { MatchOrdering result (self <ℚ other) (self ≡ other) (other <ℚ self) }
    {
        self.parts.compare(other.parts)
    }

    /// Whether it is less than the other.
    pub fn is_below(self, other: Frac) -> bool
        ensures { IsTrue result ↔ self <ℚ other }
    {
        match self.compare(other) {
            Ordering::Less => true,
            Ordering::Equal => false,
            Ordering::Greater => false,
        }
    }

    /// Whether it is 0.
    pub fn is_zero(self) -> bool
        ensures { IsTrue result ↔ (self ≡ zero_ℚ) }
    {
        self.parts.is_zero()
    }

    /// Whether it is below 0.
    pub fn is_negative(self) -> bool
        ensures { IsTrue result ↔ self <ℚ zero_ℚ }
    {
        self.parts.is_negative()
    }

    /// Whether it is above 0.
    pub fn is_positive(self) -> bool
        ensures { IsTrue result ↔ zero_ℚ <ℚ self }
    {
        self.parts.is_positive()
    }
}
