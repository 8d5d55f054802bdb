//! Arithmetic of whole numbers, whose results have to stay in range.
ghost use Rattle.std.specs.Prelude.{◌≡◌, ◌≢◌, ◌<◌, ◌*◌, ◌^◌, ◌+ℤ◌, ◌*ℤ◌, pos, int_div, IsTrue};
ghost use Rattle.std.specs.Int.{int_pow};
ghost use Rattle.std.specs.Ordering.{nat_cmp};
ghost use Rattle.wl_exact.specs.Gcd.{gcd};
ghost use Rattle.wl_exact.specs.Fraction.{in_range};
ghost use Rattle.wl_exact.specs.Arithmetic.{formed, formed_size, whole_quotient, whole_remainder};

use crate::num::NumFault;
use std::cmp::Ordering;

/// The greatest common divisor, by Euclid's remainders.
pub fn gcd(a: u128, b: u128) -> u128
    ensures value { result ≡ gcd a b }
    ensures positive { 0 < b → 0 < result }
    ensures below { a < 2 ^ 127 → b < 2 ^ 127 → result < 2 ^ 127 }
{
    let mut x = a;
    let mut y = b;
    'remainders: while y != 0 {
        let rest = x % y;
        x = y;
        y = rest;
    }
    x
}

/// The quotient, rounded toward zero.
pub fn over(n: i128, by: u128) -> i128
    requires positive { 0 < by }
    requires in_range { by < 2 ^ 127 }
    ensures { result ≡ int_div n (pos by) }
{
    n / by as i128
}

/// The sum, where it is in range.
pub fn sum(a: i128, b: i128) -> Result<i128, NumFault>
    ensures { result ≡ formed (a +ℤ b) }
{
    match a.checked_add(b) {
        Some(sum) if sum != i128::MIN => Ok(sum),
        _ => Err(NumFault::Overflow),
    }
}

/// The product with a size, where it is in range.
pub fn scaled(a: i128, size: u128) -> Result<i128, NumFault>
    requires { size < 2 ^ 127 }
    ensures { result ≡ formed (a *ℤ pos size) }
{
    product(a, size as i128)
}

/// The product, where it is in range.
pub fn product(a: i128, b: i128) -> Result<i128, NumFault>
    ensures { result ≡ formed (a *ℤ b) }
{
    match a.checked_mul(b) {
        Some(product) if product != i128::MIN => Ok(product),
        _ => Err(NumFault::Overflow),
    }
}

/// The product of two sizes, where it is in range.
pub fn size_product(a: u128, b: u128) -> Result<u128, NumFault>
    ensures { result ≡ formed_size (a * b) }
{
    match a.checked_mul(b) {
        Some(product) if product <= i128::MAX as u128 => Ok(product),
        _ => Err(NumFault::Overflow),
    }
}

/// The power, where it is in range.
pub fn power(base: i128, exponent: u128) -> Result<i128, NumFault>
    ensures { result ≡ formed (int_pow base exponent) }
{
    if exponent < 127 {
        return match base.checked_pow(exponent as u32) {
            Some(power) if power != i128::MIN => Ok(power),
            _ => Err(NumFault::Overflow),
        };
    }
    // Already 2 to the power of 127 is past the range.
    if base.unsigned_abs() > 1 {
        return Err(NumFault::Overflow);
    }
    // Each power of -1, 0 or 1 is the first or the second.
    if exponent % 2 == 0 {
        Ok(base * base)
    } else {
        Ok(base)
    }
}

/// How a * b stands to c * d, of 256 bits each.
pub fn compare_products(a: u128, b: u128, c: u128, d: u128) -> Ordering
    ensures { result ≡ nat_cmp (a * b) (c * d) }
{
    let (left_low, left_high) = a.carrying_mul(b, 0);
    let (right_low, right_high) = c.carrying_mul(d, 0);
    left_high.cmp(&right_high).then(left_low.cmp(&right_low))
}

/// The quotient, rounded down.
pub fn quotient(n: i128, m: i128) -> i128
    requires in_range { IsTrue (in_range n) }
    requires divisor_in_range { IsTrue (in_range m) }
    requires divisor { m ≢ pos 0 }
    ensures { result ≡ whole_quotient n m }
{
    if m < 0 {
        (-n).div_euclid(-m)
    } else {
        n.div_euclid(m)
    }
}

/// What that quotient leaves of n.
pub fn remainder(n: i128, m: i128) -> i128
    requires in_range { IsTrue (in_range n) }
    requires divisor_in_range { IsTrue (in_range m) }
    requires divisor { m ≢ pos 0 }
    ensures { result ≡ whole_remainder n m }
{
    if m < 0 {
        -(-n).rem_euclid(-m)
    } else {
        n.rem_euclid(m)
    }
}
