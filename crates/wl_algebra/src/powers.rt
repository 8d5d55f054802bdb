//! `Power`.
ghost use Rattle.std.specs.Prelude.{◌≡◌, ◌≢◌, IfOk, List, pos};
ghost use Rattle.wl_algebra.specs.Answers.{AllFrom, IsAnswer, IsMade, IsPassed, trees};
ghost use Rattle.wl_algebra.specs.Powers.{integer_power, is_natural, node_power, power, power_of_power, power_of_product, power_row};
ghost use Rattle.wl_expr.specs.Passed.{IsFrom};
ghost use Rattle.wl_expr.specs.Stamped.{Stamped, plain};
ghost use Rattle.wl_expr.specs.Tree.{num};

use crate::answer::{form, give, give_made, give_noticed, give_number, overflow, stay, symbol};
use crate::element::{integer, is_symbol, number};
use crate::numbers::whole;
use std::alloc::Global;
use wl_exact::Num;
use wl_expr::{Applied, Expr, ExprFault, Look, Notice};
use wl_ports::Memory;

/// Whether the expression is the number 0.
fn is_zero(e: &Expr) -> bool
    ensures { result ≡ is_natural 0 (plain e.now) }
{
    match number(e) {
        Some(n) => n == whole(0),
        None => false,
    }
}

/// Whether the expression is the number 1.
fn is_one(e: &Expr) -> bool
    ensures { result ≡ is_natural 1 (plain e.now) }
{
    match number(e) {
        Some(n) => n == whole(1),
        None => false,
    }
}

pub(crate) fn power(alloc: Global, base: &Expr, exponent: &Expr) -> Result<Expr, ExprFault>
    ensures made { IsMade (power (plain base.now) (plain exponent.now)) result }
    ensures passed { (ms : List Stamped) → IsFrom ms base.now → IsFrom ms exponent.now → IfOk result (IsFrom ms) }
{
    form(alloc, "Power", &[base.copy()?, exponent.copy()?])
}

/// The base to the product of the exponents.
fn power_of_power(alloc: Global, base: &Expr, exponent: &Expr, n: &Expr) -> Result<Expr, ExprFault>
    ensures made { IsMade (power_of_power (plain base.now) (plain exponent.now) (plain n.now)) result }
    ensures passed { (ms : List Stamped) → IsFrom ms base.now → IsFrom ms exponent.now → IsFrom ms n.now → IfOk result (IsFrom ms) }
{
    let product = form(alloc, "Times", &[exponent.copy()?, n.copy()?])?;
    power(alloc, base, &product)
}

/// The product of the factors' powers.
#[tactic(auto, using(crate::proofs::Faults::memory_makes))]
fn power_of_product(alloc: Global, factors: &[Expr], n: &Expr) -> Result<Expr, ExprFault>
    ensures made { IsMade (power_of_product (trees factors.now) (plain n.now)) result }
    ensures passed { (ms : List Stamped) → AllFrom ms factors.now → IsFrom ms n.now → IfOk result (IsFrom ms) }
{
    let mut powers = Vec::with_capacity(alloc, factors.len())?;
    for factor in factors {
        powers.push(power(alloc, factor, n)?)?;
    }
    form(alloc, "Times", powers.as_slice())
}

/// The power of two numbers, which fits, so that want of memory is its only fault.
fn power_of_numbers(alloc: Global, base: &Expr, exponent: &Expr) -> Result<Expr, Memory>
    ensures value { IfOk result (λ e. plain e ≡ power (plain base.now) (plain exponent.now)) }
    ensures passed { (ms : List Stamped) → IsFrom ms base.now → IsFrom ms exponent.now → IfOk result (IsFrom ms) }
{
    match power(alloc, base, exponent) {
        Ok(power) => Ok(power),
        Err(_) => Err(Memory),
    }
}

#[tactic(auto, using(crate::proofs::Faults::memory_answers, crate::proofs::Factors::whole_tree))]
fn number_power(alloc: Global, base: &Num, n: &Num) -> Result<Applied, ExprFault>
    requires whole { n.now.den ≡ 1 }
    requires nonzero { n.now.num ≢ pos 0 }
    ensures answer { IsAnswer (integer_power (num base.now) n.now.num) result }
    ensures passed { (ms : List Stamped) → IsPassed ms result }
{
    if base.num() == 0 && n.num() < 0 {
        let power = power_of_numbers(alloc, &Expr::num(alloc, *base)?, &Expr::num(alloc, *n)?)?;
        return give_noticed(Notice::Infinite(power), symbol(alloc, "ComplexInfinity")?);
    }
    match base.pow(n.num()) {
        Ok(power) => give_number(alloc, power),
        Err(_) => overflow(alloc),
    }
}

/// The power of a node, where it is a power or a product.
#[tactic(auto, using(crate::proofs::Faults::memory_answers))]
fn node_power(alloc: Global, head: &Expr, args: &[Expr], n: &Expr) -> Result<Applied, ExprFault>
    ensures answer { IsAnswer (node_power (plain head.now) (trees args.now) (plain n.now)) result }
    ensures passed { (ms : List Stamped) → AllFrom ms args.now → IsFrom ms n.now → IsPassed ms result }
{
    if let [base, exponent] = args {
        if is_symbol(head, "Power") {
            return give_made(power_of_power(alloc, base, exponent, n));
        }
    }
    if is_symbol(head, "Times") {
        return give_made(power_of_product(alloc, args, n));
    }
    stay()
}

#[tactic(auto, using(crate::proofs::Faults::memory_answers, crate::proofs::Factors::whole_tree, wl_expr::proofs::Parts::to_list_plains))]
fn integer_power(alloc: Global, base: &Expr, n: &Num) -> Result<Applied, ExprFault>
    requires whole { n.now.den ≡ 1 }
    requires nonzero { n.now.num ≢ pos 0 }
    ensures answer { IsAnswer (integer_power (plain base.now) n.now.num) result }
    ensures passed { (ms : List Stamped) → IsFrom ms base.now → IsPassed ms result }
{
    match base.view() {
        Look::Num(b) => number_power(alloc, &b, n),
        Look::Node(head, args) => {
            let exponent = Expr::num(alloc, *n)?;
            node_power(alloc, head, args, &exponent)
        }
        _ => stay(),
    }
}

#[tactic(auto, using(crate::proofs::Faults::memory_answers, crate::proofs::Factors::integer_nonzero))]
pub(crate) fn power_row(alloc: Global, args: &[Expr]) -> Result<Applied, ExprFault>
    ensures answer { IsAnswer (power_row (trees args.now)) result }
    ensures passed { (ms : List Stamped) → AllFrom ms args.now → IsPassed ms result }
{
    let [base, exponent] = args else {
        return stay();
    };
    if is_zero(base) && is_zero(exponent) {
        let power = power_of_numbers(alloc, base, exponent)?;
        return give_noticed(
            Notice::Indeterminate(power),
            symbol(alloc, "Indeterminate")?,
        );
    }
    if is_zero(exponent) {
        return give_number(alloc, whole(1));
    }
    if is_one(exponent) {
        return give(base.copy()?);
    }
    if is_one(base) {
        return give_number(alloc, whole(1));
    }
    match integer(exponent) {
        Some(n) => integer_power(alloc, base, &n),
        None => stay(),
    }
}
