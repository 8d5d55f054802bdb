//! `Factorial`.
ghost use Rattle.std.specs.Prelude.{◌≡◌, ◌*◌, List};
ghost use Rattle.wl_algebra.specs.Answers.{IsAnswer, IsPassed, trees};
ghost use Rattle.wl_algebra.specs.Factorials.{factorial, factorial_row};
ghost use Rattle.wl_algebra.specs.Ranges.{in_range_only};
ghost use Rattle.wl_expr.specs.Stamped.{Stamped};

use crate::answer::{give_number, overflow, stay};
use crate::element::integer;
use crate::numbers::whole;
use std::alloc::Global;
use wl_expr::{Applied, Expr, ExprFault};

/// The product, where it is in range.
fn product(a: u128, b: u128) -> Option<u128>
    ensures { result ≡ in_range_only (a * b) }
{
    match a.checked_mul(b) {
        Some(product) if product <= i128::MAX as u128 => Some(product),
        _ => None,
    }
}

/// The factorial, where it is in range. It stops at the first product that isn't.
#[tactic(auto, using(crate::proofs::Growth::factorial_next, crate::proofs::Growth::factorial_past))]
fn factorial(n: u128) -> Option<u128>
    ensures { result ≡ in_range_only (factorial n) }
{
    let mut last: u128 = 1;
    let mut k: u128 = 0;
    while k < n {
        k += 1;
        last = product(last, k)?;
    }
    Some(last)
}

pub(crate) fn factorial_row(alloc: Global, args: &[Expr]) -> Result<Applied, ExprFault>
    ensures answer { IsAnswer (factorial_row (trees args.now)) result }
    ensures passed { (ms : List Stamped) → IsPassed ms result }
{
    let [e] = args else {
        return stay();
    };
    let Some(n) = integer(e) else {
        return stay();
    };
    if n.num() < 0 {
        return stay();
    }
    match factorial(n.num().unsigned_abs()) {
        Some(factorial) => give_number(alloc, whole(factorial as i128)),
        None => overflow(alloc),
    }
}
