// Arithmetic on the numbers of a pair, each result narrow or refused.

ghost use Rattle.std.specs.Prelude.{◌≡◌, pos, ◌+◌, ◌*◌, ◌/◌, ◌<◌, ◌^◌, ◌≤◌, ◌+ℤ◌, ◌*ℤ◌, unsigned_abs, IsTrue, MatchResult};
ghost use Rattle.std.specs.Int.{IsGcd, int_pow};
ghost use Rattle.std.specs.Ordering.{nat_cmp};
ghost use Rattle.frac128.specs.Narrow.{IsNarrowWhole};
ghost use Rattle.frac128.specs.Signed.{signed};

use crate::fault::Wide;
use std::cmp::Ordering;

const HALF: u128 = 1 << 64;

const SHORT: i128 = 1 << 63;

/// The greatest common divisor: nothing is divided where one of the numbers is 1, and divisions are of 64 bits where both fit them.
pub fn gcd(a: u128, b: u128) -> u128
    ensures gcd { IsGcd a b result }
    ensures positive { 0 < b → 0 < result }
{
    if a == 1 {
        1
    } else if b == 1 {
        1
    } else if a < HALF && b < HALF {
        gcd_short(a as u64, b as u64) as u128
    } else {
        gcd_long(a, b)
    }
}

/// The greatest common divisor of two numbers of 64 bits.
fn gcd_short(a: u64, b: u64) -> u64
    ensures gcd { IsGcd a b result }
    ensures positive { 0 < b → 0 < result }
{
    let mut x = a;
    let mut y = b;
    while y != 0 {
        let rest = x % y;
        x = y;
        y = rest;
    }
    x
}

/// The greatest common divisor of two numbers of 128 bits.
#[cold]
fn gcd_long(a: u128, b: u128) -> u128
    ensures gcd { IsGcd a b result }
    ensures positive { 0 < b → 0 < result }
{
    let mut x = a;
    let mut y = b;
    while y != 0 {
        let rest = x % y;
        x = y;
        y = rest;
    }
    x
}

/// `a / b`: nothing is divided where `b` is 1, and the division is of 64 bits where both numbers fit them.
pub fn quotient(a: u128, b: u128) -> u128
    requires { 0 < b }
    ensures { result ≡ a / b }
{
    if b == 1 {
        a
    } else if a < HALF && b < HALF {
        (a as u64 / b as u64) as u128
    } else {
        a / b
    }
}

/// Whether the number fits 64 bits with its sign.
fn is_short(a: i128) -> bool
    ensures { IsTrue result → unsigned_abs a ≤ 2 ^ 63 }
{
    -SHORT <= a && a < SHORT
}

/// The product of two numbers of 64 bits, which needs no test whether it fits.
fn short_product(a: i128, b: i128) -> i128
    requires left { unsigned_abs a ≤ 2 ^ 63 }
    requires right { unsigned_abs b ≤ 2 ^ 63 }
    ensures value { result ≡ a *ℤ b }
    ensures narrow { IsNarrowWhole result }
{
    a * b
}

/// The number of a sign and a size.
pub fn with_sign(negative: bool, magnitude: u128) -> i128
    requires { magnitude < 2 ^ 127 }
    ensures { result ≡ signed negative magnitude }
{
    let value = magnitude as i128;
    if negative { -value } else { value }
}

/// The number, below `2 ^ 127`.
fn narrow(a: u128) -> Result<u128, Wide>
    ensures { MatchResult result (λ r. (r ≡ a) × (r < 2 ^ 127)) (λ _. 2 ^ 127 ≤ a) }
{
    if a < 1 << 127 { Ok(a) } else { Err(Wide) }
}

/// `a * b`, below `2 ^ 127`.
pub fn narrow_product(a: u128, b: u128) -> Result<u128, Wide>
    ensures { MatchResult result (λ r. (r ≡ a * b) × (r < 2 ^ 127)) (λ _. 2 ^ 127 ≤ a * b) }
{
    if a < HALF && b < HALF {
        return narrow(a * b);
    }
    match a.checked_mul(b) {
        Some(r) if r < 1 << 127 => Ok(r),
        _ => Err(Wide),
    }
}

/// `a` to the power `e`, below `2 ^ 127`.
pub fn narrow_power(a: u128, e: u32) -> Result<u128, Wide>
    ensures { MatchResult result (λ r. (r ≡ a ^ e) × (r < 2 ^ 127)) (λ _. 2 ^ 127 ≤ a ^ e) }
{
    match a.checked_pow(e) {
        Some(r) if r < 1 << 127 => Ok(r),
        _ => Err(Wide),
    }
}

/// `a` to the power `e`, where it is narrow.
pub fn narrow_signed_power(a: i128, e: u32) -> Result<i128, Wide>
    ensures { MatchResult result (λ r. (r ≡ int_pow a e) × IsNarrowWhole r)
        (λ _. IsNarrowWhole (int_pow a e) → ⊥) }
{
    match a.checked_pow(e) {
        Some(r) if r != i128::MIN => Ok(r),
        _ => Err(Wide),
    }
}

/// `a * b`, where it is narrow.
pub fn narrow_signed_product(a: i128, b: i128) -> Result<i128, Wide>
    ensures { MatchResult result (λ r. (r ≡ a *ℤ b) × IsNarrowWhole r)
        (λ _. IsNarrowWhole (a *ℤ b) → ⊥) }
{
    if is_short(a) && is_short(b) {
        Ok(short_product(a, b))
    } else {
        long_product(a, b)
    }
}

/// `a * b`, where it is narrow, with a test whether it fits 128 bits.
#[cold]
fn long_product(a: i128, b: i128) -> Result<i128, Wide>
    ensures { MatchResult result (λ r. (r ≡ a *ℤ b) × IsNarrowWhole r)
        (λ _. IsNarrowWhole (a *ℤ b) → ⊥) }
{
    match a.checked_mul(b) {
        Some(r) if r != i128::MIN => Ok(r),
        _ => Err(Wide),
    }
}

/// `a * n`, where it is narrow.
pub fn narrow_scaled(a: i128, n: u128) -> Result<i128, Wide>
    requires { n < 2 ^ 127 }
    ensures { MatchResult result (λ r. (r ≡ a *ℤ pos n) × IsNarrowWhole r)
        (λ _. IsNarrowWhole (a *ℤ pos n) → ⊥) }
{
    narrow_signed_product(a, n as i128)
}

/// `a + b`, where it is narrow.
pub fn narrow_sum(a: i128, b: i128) -> Result<i128, Wide>
    ensures { MatchResult result (λ r. (r ≡ a +ℤ b) × IsNarrowWhole r)
        (λ _. IsNarrowWhole (a +ℤ b) → ⊥) }
{
    match a.checked_add(b) {
        Some(r) if r != i128::MIN => Ok(r),
        _ => Err(Wide),
    }
}

/// `a * b`, as `2 ^ 128` times the first number plus the second.
fn wide_product(a: u128, b: u128) -> (u128, u128)
    ensures { result.0 * 2 ^ 128 + result.1 ≡ a * b }
{
    let (a_high, a_low) = (a / HALF, a % HALF);
    let (b_high, b_low) = (b / HALF, b % HALF);
    let low = a_low * b_low;
    let cross = a_low * b_high;
    let other_cross = a_high * b_low;
    let middle = low / HALF + cross % HALF + other_cross % HALF;
    let high = a_high * b_high + cross / HALF + other_cross / HALF + middle / HALF;
    (high, middle % HALF * HALF + low % HALF)
}

/// The order of `a * b` and `c * d`.
pub fn compare_products(a: u128, b: u128, c: u128, d: u128) -> Ordering
    ensures { result ≡ nat_cmp (a * b) (c * d) }
{
    let (left_high, left_low) = wide_product(a, b);
    let (right_high, right_low) = wide_product(c, d);
    match left_high.cmp(&right_high) {
        Ordering::Equal => left_low.cmp(&right_low),
        order => order,
    }
}
