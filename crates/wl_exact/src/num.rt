//! The number type.
ghost use Rattle.std.specs.Prelude.{◌≡◌, ◌≢◌, pos, negsuc, ◌↔◌, ◌-◌, ◌^◌, ◌<◌, ◌<ℤ◌, ◌⊎◌, IfSome, IsNone, IsTrue, unsigned_abs};
ghost use Rattle.wl_exact.specs.Gcd.{gcd};
ghost use Rattle.wl_exact.specs.Fraction.{of_int, reduced, IsNumber};
ghost use Rattle.wl_exact.specs.Arithmetic.{negation_of, reciprocal_of, floor_of, fraction_cmp, gcd_of, sum_overflows, product_overflows, power_overflows, checked_ratio, checked_sum, checked_product, checked_power, checked_quotient, checked_remainder};

use crate::whole;
use std::cmp::Ordering;
use std::marker::Model;
use thiserror::Error;

/// Why a call gives no number.
#[derive(Clone, Copy, Debug, PartialEq, Eq, Error)]
pub enum NumFault {
    /// A number that is formed on the way leaves the range.
    #[error("Overflow")]
    Overflow,
    /// Something is divided by 0.
    #[error("ZeroDivisor")]
    ZeroDivisor,
}

/// An exact number: a fraction in lowest terms. Its numerator lies from -(2^127 - 1) to 2^127 - 1,
/// and its denominator from 1 to 2^127 - 1. This range, and so where a call overflows, is this
/// project's own.
#[derive(Clone, Copy, Debug, PartialEq, Eq)]
pub struct Num {
    num: i128,
    den: u128,
}

impl Model for Num {
    ghost use Rattle.wl_exact.specs.Fraction.{Fraction, fraction_code, IsNumber};

    ghost Value = { Fraction };

    ghost coded = { fraction_code };

    ghost view = { λ n. record { num = n.num; den = n.den } };

    ghost invariant = { λ n. IsNumber (record { num = n.num; den = n.den }) };

    ghost inverse = { λ f. record { num = f.num; den = f.den } };
}

impl Num {
    /// The whole number, except for -2^127.
    pub fn int(n: i128) -> Option<Num>
        ensures value { IfSome result (λ f. f ≡ of_int n) }
        ensures none { IsNone result ↔ (n ≡ negsuc (2 ^ 127 - 1)) }
    {
        if n == i128::MIN {
            None
        } else {
            Some(number(n, 1))
        }
    }

    /// The numerator.
    pub fn num(&self) -> i128
        ensures value { result ≡ self.now.num }
        ensures number { IsNumber self.now }
    {
        self.num
    }

    /// The denominator.
    pub fn den(&self) -> i128
        ensures value { result ≡ pos self.now.den }
        ensures number { IsNumber self.now }
    {
        self.den as i128
    }

    /// The fraction p/q, in lowest terms and with a positive denominator.
    pub fn ratio(p: i128, q: i128) -> Result<Num, NumFault>
        ensures answer { result ≡ checked_ratio p q }
        ensures zero_divisor { (result ≡ Err NumFault.ZeroDivisor) ↔ (q ≡ pos 0) }
        ensures overflow { (result ≡ Err NumFault.Overflow) ↔
            ((q ≢ pos 0) × ((p ≡ negsuc (2 ^ 127 - 1)) ⊎ (q ≡ negsuc (2 ^ 127 - 1)))) }
    {
        if q == 0 {
            return Err(NumFault::ZeroDivisor);
        }
        if p == i128::MIN || q == i128::MIN {
            return Err(NumFault::Overflow);
        }
        if q < 0 {
            Ok(reduced(-p, q.unsigned_abs()))
        } else {
            Ok(reduced(p, q.unsigned_abs()))
        }
    }

    /// The sum. It is formed over the least common multiple of the denominators, so that their product
    /// may be past the range.
    pub fn add(&self, b: &Num) -> Result<Num, NumFault>
        ensures answer { result ≡ checked_sum self.now b.now }
        ensures overflow { (result ≡ Err NumFault.Overflow) ↔ IsTrue (sum_overflows self.now b.now) }
    {
        let common = whole::gcd(self.den, b.den);
        let left = whole::scaled(self.num, b.den / common)?;
        let right = whole::scaled(b.num, self.den / common)?;
        let num = whole::sum(left, right)?;
        let den = whole::size_product(self.den, b.den / common)?;
        Ok(reduced(num, den))
    }

    /// The product. Each numerator is freed of what it shares with the other denominator first.
    pub fn mul(&self, b: &Num) -> Result<Num, NumFault>
        ensures answer { result ≡ checked_product self.now b.now }
        ensures overflow { (result ≡ Err NumFault.Overflow) ↔ IsTrue (product_overflows self.now b.now) }
    {
        let left = whole::gcd(self.num.unsigned_abs(), b.den);
        let right = whole::gcd(b.num.unsigned_abs(), self.den);
        let num = whole::product(whole::over(self.num, left), whole::over(b.num, right))?;
        let den = whole::size_product(self.den / right, b.den / left)?;
        Ok(number(num, den))
    }

    /// The power, also to a negative exponent. That of 0 to 0 is not defined.
    pub fn pow(&self, n: i128) -> Result<Num, NumFault>
        requires { self.now.num ≡ pos 0 → n ≢ pos 0 }
        ensures answer { result ≡ checked_power self.now n }
        ensures zero_divisor { (result ≡ Err NumFault.ZeroDivisor) ↔ ((self.now.num ≡ pos 0) × (n <ℤ pos 0)) }
        ensures overflow { (result ≡ Err NumFault.Overflow) ↔
            ((result ≢ Err NumFault.ZeroDivisor) × IsTrue (power_overflows self.now n)) }
    {
        if self.num == 0 && n < 0 {
            return Err(NumFault::ZeroDivisor);
        }
        let exponent = n.unsigned_abs();
        let num = whole::power(self.num, exponent)?;
        let den = whole::power(self.den as i128, exponent)?;
        let power = number(num, den as u128);
        if n < 0 {
            Ok(power.reciprocal())
        } else {
            Ok(power)
        }
    }

    /// The number with the other sign.
    pub fn neg(&self) -> Num
        ensures { result ≡ negation_of self.now }
    {
        number(-self.num, self.den)
    }

    /// The greatest whole number that is at most this number, as `Floor` gives it.
    pub fn floor(&self) -> Num
        ensures { result ≡ floor_of self.now }
    {
        number(self.num.div_euclid(self.den as i128), 1)
    }

    /// The order by value.
    pub fn cmp(&self, b: &Num) -> Ordering
        ensures { result ≡ fraction_cmp self.now b.now }
    {
        let left = self.num.unsigned_abs();
        let right = b.num.unsigned_abs();
        match (self.num < 0, b.num < 0) {
            (true, true) => whole::compare_products(right, self.den, left, b.den),
            (true, false) => Ordering::Less,
            (false, true) => Ordering::Greater,
            (false, false) => whole::compare_products(left, b.den, right, self.den),
        }
    }

    /// What the quotient of two whole numbers leaves, as `Mod` gives it: its sign is that of `b`.
    pub fn modulo(&self, b: &Num) -> Result<Num, NumFault>
        requires whole { self.now.den ≡ 1 }
        requires divisor_whole { b.now.den ≡ 1 }
        ensures answer { result ≡ checked_remainder self.now b.now }
        ensures zero_divisor { (result ≡ Err NumFault.ZeroDivisor) ↔ (b.now.num ≡ pos 0) }
        ensures no_overflow { result ≢ Err NumFault.Overflow }
    {
        if b.num == 0 {
            return Err(NumFault::ZeroDivisor);
        }
        Ok(number(whole::remainder(self.num, b.num), 1))
    }

    /// The quotient of two whole numbers, rounded down, as `Quotient` gives it.
    pub fn quotient(&self, b: &Num) -> Result<Num, NumFault>
        requires whole { self.now.den ≡ 1 }
        requires divisor_whole { b.now.den ≡ 1 }
        ensures answer { result ≡ checked_quotient self.now b.now }
        ensures zero_divisor { (result ≡ Err NumFault.ZeroDivisor) ↔ (b.now.num ≡ pos 0) }
        ensures no_overflow { result ≢ Err NumFault.Overflow }
    {
        if b.num == 0 {
            return Err(NumFault::ZeroDivisor);
        }
        Ok(number(whole::quotient(self.num, b.num), 1))
    }

    /// The greatest common divisor of two whole numbers, as `GCD` gives it: it has no sign.
    pub fn gcd(&self, b: &Num) -> Num
        requires whole { self.now.den ≡ 1 }
        requires other_whole { b.now.den ≡ 1 }
        ensures { result ≡ gcd_of self.now b.now }
    {
        let common = whole::gcd(self.num.unsigned_abs(), b.num.unsigned_abs());
        number(common as i128, 1)
    }

    /// The fraction turned over.
    fn reciprocal(&self) -> Num
        requires { self.now.num ≢ pos 0 }
        ensures { result ≡ reciprocal_of self.now }
    {
        if self.num < 0 {
            number(-(self.den as i128), self.num.unsigned_abs())
        } else {
            number(self.den as i128, self.num.unsigned_abs())
        }
    }
}

/// The fraction in lowest terms.
fn reduced(num: i128, den: u128) -> Num
    requires positive { 0 < den }
    requires num_in_range { unsigned_abs num < 2 ^ 127 }
    requires den_in_range { den < 2 ^ 127 }
    ensures { result ≡ reduced num den }
{
    let common = whole::gcd(num.unsigned_abs(), den);
    number(whole::over(num, common), den / common)
}

/// The number of these parts, which are in lowest terms and in range.
fn number(num: i128, den: u128) -> Num
    requires reduced { gcd (unsigned_abs num) den ≡ 1 }
    requires positive { 0 < den }
    requires num_in_range { unsigned_abs num < 2 ^ 127 }
    requires den_in_range { den < 2 ^ 127 }
    ensures { result ≡ record { num = num; den = den } }
{
    Num { num, den }
}
