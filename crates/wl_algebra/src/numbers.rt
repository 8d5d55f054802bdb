//! Rows on numbers alone.
ghost use Rattle.std.specs.Prelude.{◌≡◌, ◌≢◌, ◌-◌, ◌^◌, negsuc, IfSome, List, option_map};
ghost use Rattle.wl_exact.specs.Fraction.{of_int};
ghost use Rattle.wl_algebra.specs.Answers.{IsAnswer, IsPassed, trees};
ghost use Rattle.wl_algebra.specs.Kinds.{measure_by};
ghost use Rattle.wl_algebra.specs.Numbers.{absolute, sign, ceiling, numerator, denominator, only_number, two_integers, of_number, of_pair, modulo, quotient, rational, gcd_row};
ghost use Rattle.wl_expr.specs.Stamped.{Stamped};

use crate::answer::{give_number, overflow, stay};
use crate::element::{integer, number};
use std::alloc::Global;
use wl_exact::{Num, NumFault};
use wl_expr::{Applied, Expr, ExprFault};

/// A function of one number.
#[derive(Clone, Copy)]
pub enum Measure {
    Absolute,
    Sign,
    Floor,
    Ceiling,
    Numerator,
    Denominator,
}

/// The number that is the only element.
fn only_number(args: &[Expr]) -> Option<Num>
    ensures { result ≡ only_number (trees args.now) }
{
    match args {
        [e] => number(e),
        _ => None,
    }
}

/// The whole number, which is in range.
pub(crate) fn whole(n: i128) -> Num
    requires { n ≢ negsuc (2 ^ 127 - 1) }
    ensures { result ≡ of_int n }
{
    match Num::int(n) {
        Some(whole) => whole,
        None => unreachable!(),
    }
}

fn absolute(n: &Num) -> Num
    ensures { result ≡ absolute n.now }
{
    if n.num() < 0 { n.neg() } else { *n }
}

fn measured(measure: Measure, n: &Num) -> Num
    ensures { result ≡ measure_by measure n.now }
{
    match measure {
        Measure::Absolute => absolute(n),
        Measure::Sign => whole(n.num().signum()),
        Measure::Floor => n.floor(),
        Measure::Ceiling => n.neg().floor().neg(),
        Measure::Numerator => whole(n.num()),
        Measure::Denominator => whole(n.den()),
    }
}

pub(crate) fn number_row(
    alloc: Global,
    measure: Measure,
    args: &[Expr],
) -> Result<Applied, ExprFault>
    ensures answer { IsAnswer (of_number (measure_by measure) (trees args.now)) result }
    ensures passed { (ms : List Stamped) → IsPassed ms result }
{
    match only_number(args) {
        Some(n) => give_number(alloc, measured(measure, &n)),
        None => stay(),
    }
}

/// The two integers that are the elements.
fn two_integers(args: &[Expr]) -> Option<(Num, Num)>
    ensures value { option_map (λ p. (p.0.num, p.1.num)) result ≡ two_integers (trees args.now) }
    ensures whole { IfSome result (λ p. (p.0.den ≡ 1) × (p.1.den ≡ 1)) }
{
    match args {
        [n, m] => Some((integer(n)?, integer(m)?)),
        _ => None,
    }
}

pub(crate) fn modulo_row(alloc: Global, args: &[Expr]) -> Result<Applied, ExprFault>
    ensures answer { IsAnswer (of_pair modulo (trees args.now)) result }
    ensures passed { (ms : List Stamped) → IsPassed ms result }
{
    let Some((n, m)) = two_integers(args) else {
        return stay();
    };
    match n.modulo(&m) {
        Ok(remainder) => give_number(alloc, remainder),
        Err(_) => stay(),
    }
}

pub(crate) fn quotient_row(alloc: Global, args: &[Expr]) -> Result<Applied, ExprFault>
    ensures answer { IsAnswer (of_pair quotient (trees args.now)) result }
    ensures passed { (ms : List Stamped) → IsPassed ms result }
{
    let Some((n, m)) = two_integers(args) else {
        return stay();
    };
    match n.quotient(&m) {
        Ok(quotient) => give_number(alloc, quotient),
        Err(_) => stay(),
    }
}

pub(crate) fn rational_row(alloc: Global, args: &[Expr]) -> Result<Applied, ExprFault>
    ensures answer { IsAnswer (of_pair rational (trees args.now)) result }
    ensures passed { (ms : List Stamped) → IsPassed ms result }
{
    let Some((n, m)) = two_integers(args) else {
        return stay();
    };
    match Num::ratio(n.num(), m.num()) {
        Ok(ratio) => give_number(alloc, ratio),
        Err(NumFault::ZeroDivisor) => stay(),
        Err(NumFault::Overflow) => overflow(alloc),
    }
}

pub(crate) fn gcd_row(alloc: Global, args: &[Expr]) -> Result<Applied, ExprFault>
    ensures answer { IsAnswer (gcd_row (trees args.now)) result }
    ensures passed { (ms : List Stamped) → IsPassed ms result }
{
    let mut common = whole(0);
    for arg in args {
        match integer(arg) {
            Some(n) => common = common.gcd(&n),
            None => return stay(),
        }
    }
    give_number(alloc, common)
}
