//! `Times`.
ghost use Rattle.std.specs.Prelude.{◌≡◌, [], IfOk, List, codes};
ghost use Rattle.std.specs.Map.{lookup};
ghost use Rattle.wl_algebra.specs.Alike.{alike};
ghost use Rattle.wl_algebra.specs.Answers.{AllFrom, IsAnswer, IsMade, IsPassed, trees};
ghost use Rattle.wl_algebra.specs.Joining.{joined};
ghost use Rattle.wl_algebra.specs.Products.{alone, group_left, group_of, groups_left, groups_on, node_group, product_left, product_of_more, product_of_zero, product_on, product_result, times_number, times_row, with_factor, with_group};
ghost use Rattle.wl_algebra.specs.ProductsInside.{EntriesFrom, FactorIsFrom, Joins, PowersFrom, entry_group, entry_groups, plain_factor};
ghost use Rattle.wl_algebra.specs.Sums.{one_number};
ghost use Rattle.wl_exact.specs.Arithmetic.{is_zero};
ghost use Rattle.wl_exact.specs.Fraction.{Fraction};
ghost use Rattle.wl_expr.specs.Applied.{gives};
ghost use Rattle.wl_expr.specs.Passed.{IsFrom};
ghost use Rattle.wl_expr.specs.Stamped.{Stamped, plain};
ghost use Rattle.wl_expr.specs.Tree.{AreSmall, IsWithinLimits, from_list};

use crate::answer::{form, give, give_number, give_symbol, overflow};
use crate::element::{is_symbol, number};
use crate::joining::give_joined;
use crate::numbers::whole;
use crate::powers::power;
use crate::sums::{are_numbers_or_infinities, has};
use indexmap::IndexMap;
use std::alloc::Global;
use wl_exact::Num;
use wl_expr::{Applied, Expr, ExprFault, Look};
use wl_ports::Memory;

/// An element as a power.
#[derive(Drop)]
struct Factor {
    base: Expr,
    exponent: Expr,
    element: Expr,
}

/// The elements of one base: the first of them, and the exponents of all.
#[derive(Drop)]
struct Powers {
    element: Expr,
    exponents: Vec<Expr>,
}

fn alone(alloc: Global, e: &Expr) -> Result<Factor, Memory>
    ensures value { IfOk result (λ f. plain_factor f ≡ alone (plain e.now)) }
    ensures passed { (ms : List Stamped) → IsFrom ms e.now → IfOk result (FactorIsFrom ms) }
{
    Ok(Factor {
        base: e.copy()?,
        exponent: Expr::num(alloc, whole(1))?,
        element: e.copy()?,
    })
}

fn node_factor(alloc: Global, head: &Expr, args: &[Expr], e: &Expr) -> Result<Factor, Memory>
    ensures value { IfOk result (λ f. plain_factor f ≡ node_group (plain head.now) (trees args.now) (plain e.now)) }
    ensures passed { (ms : List Stamped) → AllFrom ms args.now → IsFrom ms e.now → IfOk result (FactorIsFrom ms) }
{
    let [base, exponent] = args else {
        return alone(alloc, e);
    };
    if !is_symbol(head, "Power") {
        return alone(alloc, e);
    }
    Ok(Factor {
        base: base.copy()?,
        exponent: exponent.copy()?,
        element: e.copy()?,
    })
}

/// The base and the exponent of an element.
#[tactic(auto, using(wl_expr::proofs::Parts::to_list_plains))]
fn factor_of(alloc: Global, e: &Expr) -> Result<Factor, Memory>
    ensures value { IfOk result (λ f. plain_factor f ≡ group_of (plain e.now)) }
    ensures passed { (ms : List Stamped) → IsFrom ms e.now → IfOk result (FactorIsFrom ms) }
{
    match e.view() {
        Look::Node(head, args) => node_factor(alloc, head, args, e),
        _ => alone(alloc, e),
    }
}

/// The powers of a base, with one factor more.
fn joined_powers(
    alloc: Global,
    before: Option<Powers>,
    element: Expr,
    exponent: Expr,
) -> Result<Powers, Memory>
    ensures value { IfOk result (Joins before element exponent) }
    ensures first { (ms : List Stamped) → before ≡ None → IsFrom ms element → IsFrom ms exponent → IfOk result (PowersFrom ms) }
    ensures passed { (ms : List Stamped) → (g : Powers) → before ≡ Some g → PowersFrom ms g → IsFrom ms exponent → IfOk result (PowersFrom ms) }
{
    match before {
        Some(powers) => {
            let Powers {
                element,
                mut exponents,
            } = powers;
            exponents.push(exponent)?;
            Ok(Powers { element, exponents })
        }
        None => {
            let mut exponents = Vec::new(alloc);
            exponents.push(exponent)?;
            Ok(Powers { element, exponents })
        }
    }
}

/// The groups and one factor more, which takes the place of its base.
fn with_group(
    alloc: Global,
    mut groups: IndexMap<Expr, Powers>,
    factor: Factor,
) -> Result<IndexMap<Expr, Powers>, Memory>
    ensures value { IfOk result (λ m. entry_groups m.entries ≡ with_group (plain_factor factor) (entry_groups groups.entries)) }
    ensures passed { (ms : List Stamped) → EntriesFrom ms groups.entries → FactorIsFrom ms factor → IfOk result (λ m. EntriesFrom ms m.entries) }
{
    let Factor {
        base,
        exponent,
        element,
    } = factor;
    let place = Powers {
        element: element.copy()?,
        exponents: Vec::new(alloc),
    };
    let before = groups.insert(base.copy()?, place)?;
    let powers = joined_powers(alloc, before, element, exponent)?;
    groups.insert(base, powers)?;
    Ok(groups)
}

/// The groups of the elements that are no numbers.
#[tactic(auto, using(crate::proofs::Groups::number_passes, crate::proofs::Groups::factor_joins))]
fn with_factor(
    alloc: Global,
    groups: IndexMap<Expr, Powers>,
    e: &Expr,
) -> Result<IndexMap<Expr, Powers>, Memory>
    ensures value { IfOk result (λ m. entry_groups m.entries ≡ with_factor (entry_groups groups.entries) (plain e.now)) }
    ensures passed { (ms : List Stamped) → EntriesFrom ms groups.entries → IsFrom ms e.now → IfOk result (λ m. EntriesFrom ms m.entries) }
{
    match number(e) {
        Some(_) => Ok(groups),
        None => with_group(alloc, groups, factor_of(alloc, e)?),
    }
}

fn grouped(alloc: Global, args: &[Expr]) -> Result<IndexMap<Expr, Powers>, Memory>
    ensures value { IfOk result (λ m. entry_groups m.entries ≡ groups_on [] (trees args.now)) }
    ensures passed { (ms : List Stamped) → AllFrom ms args.now → IfOk result (λ m. EntriesFrom ms m.entries) }
{
    let mut groups = IndexMap::new(alloc);
    for arg in args {
        groups = with_factor(alloc, groups, arg)?;
    }
    Ok(groups)
}

/// The product and one element more, unless it overflows.
#[tactic(auto, using(crate::proofs::Groups::number_multiplied, crate::proofs::Groups::others_passed))]
fn times_number(product: Num, e: &Expr) -> Option<Num>
    ensures { result ≡ times_number (Some product) (plain e.now) }
{
    let Some(n) = number(e) else {
        return Some(product);
    };
    match product.mul(&n) {
        Ok(product) => Some(product),
        Err(_) => None,
    }
}

/// The product of the numbers, unless it overflows.
#[tactic(auto, using(crate::proofs::Groups::overflow_stays))]
fn product(args: &[Expr]) -> Option<Num>
    ensures { result ≡ product_on (Some one_number) (trees args.now) }
{
    let mut product = whole(1);
    for arg in args {
        product = times_number(product, arg)?;
    }
    Some(product)
}

/// What is left of a base: an element that is alone as it is, or one power.
#[tactic(auto, using(crate::proofs::Faults::memory_makes))]
fn group_left(alloc: Global, base: &Expr, powers: &Powers) -> Result<Expr, ExprFault>
    ensures made { IsMade (group_left (entry_group (base.now, powers.now))) result }
    ensures passed { (ms : List Stamped) → IsFrom ms base.now → PowersFrom ms powers.now → IfOk result (IsFrom ms) }
{
    match powers.exponents.as_slice() {
        [_] => Ok(powers.element.copy()?),
        exponents => {
            let sum = form(alloc, "Plus", exponents)?;
            power(alloc, base, &sum)
        }
    }
}

/// What is left of the groups. Where one is too large, so is what they are part of.
fn groups_left(alloc: Global, groups: &IndexMap<Expr, Powers>) -> Result<Vec<Expr>, ExprFault>
    ensures value { IfOk result (λ v. trees v.items ≡ groups_left (entry_groups groups.now.entries)) }
    ensures large { result ≡ Err ExprFault.Large → ¬ AreSmall (from_list (groups_left (entry_groups groups.now.entries))) }
    ensures passed { (ms : List Stamped) → EntriesFrom ms groups.now.entries → IfOk result (λ v. AllFrom ms v.items) }
{
    let mut left = Vec::new(alloc);
    for at in 0..groups.len() {
        let Some((base, powers)) = groups.get_index(at) else {
            break;
        };
        left.push(group_left(alloc, base, powers)?)?;
    }
    Ok(left)
}

/// The number and what is left of the groups.
#[tactic(auto, using(crate::proofs::Leftovers::left_answers))]
fn give_product(
    alloc: Global,
    n: Num,
    groups: &IndexMap<Expr, Powers>,
) -> Result<Applied, ExprFault>
    ensures answer { IsAnswer (gives (joined (codes "Times") n one_number (groups_left (entry_groups groups.now.entries)))) result }
    ensures passed { (ms : List Stamped) → EntriesFrom ms groups.now.entries → IsPassed ms result }
{
    let left = groups_left(alloc, groups)?;
    give_joined(alloc, "Times", n, whole(1), left.as_slice())
}

/// The product of elements with this product of numbers, which isn't 0.
#[tactic(auto, using(crate::proofs::Faults::memory_answers))]
fn product_left(alloc: Global, n: Num, args: &[Expr]) -> Result<Applied, ExprFault>
    ensures answer { IsAnswer (product_left n (trees args.now)) result }
    ensures passed { (ms : List Stamped) → AllFrom ms args.now → IsPassed ms result }
{
    if has(args, "ComplexInfinity") && are_numbers_or_infinities(args) {
        return give_symbol(alloc, "ComplexInfinity");
    }
    let groups = grouped(alloc, args)?;
    give_product(alloc, n, &groups)
}

/// The product of elements, 0 among them.
fn product_of_zero(alloc: Global, args: &[Expr]) -> Result<Applied, ExprFault>
    ensures answer { IsAnswer (product_of_zero (trees args.now)) result }
    ensures passed { (ms : List Stamped) → IsPassed ms result }
{
    if has(args, "ComplexInfinity") {
        return give_symbol(alloc, "Indeterminate");
    }
    give_number(alloc, whole(0))
}

fn product_result(alloc: Global, n: Option<Num>, args: &[Expr]) -> Result<Applied, ExprFault>
    ensures answer { IsAnswer (product_result n (trees args.now)) result }
    ensures passed { (ms : List Stamped) → AllFrom ms args.now → IsPassed ms result }
{
    let Some(n) = n else {
        return overflow(alloc);
    };
    if n.num() == 0 {
        return product_of_zero(alloc, args);
    }
    product_left(alloc, n, args)
}

fn product_of_more(alloc: Global, args: &[Expr]) -> Result<Applied, ExprFault>
    ensures answer { IsAnswer (product_of_more (trees args.now)) result }
    ensures passed { (ms : List Stamped) → AllFrom ms args.now → IsPassed ms result }
{
    if has(args, "Indeterminate") {
        return give_symbol(alloc, "Indeterminate");
    }
    product_result(alloc, product(args), args)
}

#[tactic(auto, using(crate::proofs::Faults::memory_answers, crate::proofs::Groups::many_multiplied))]
pub(crate) fn times_row(alloc: Global, args: &[Expr]) -> Result<Applied, ExprFault>
    ensures answer { IsAnswer (times_row (trees args.now)) result }
    ensures passed { (ms : List Stamped) → AllFrom ms args.now → IsPassed ms result }
{
    match args {
        [] => give_number(alloc, whole(1)),
        [only] => give(only.copy()?),
        _ => product_of_more(alloc, args),
    }
}
