//! The order of expressions by their structure, the canonical order that is built on it, and the sort by it.
ghost use Rattle.std.specs.Prelude.{◌≡◌, ◌<◌, length, map, false, pos, MatchOption, IfSome, OnOk, OnErr, [], ◌∷◌};
ghost use Rattle.std.specs.List.Sorted.{IsPermutation};
ghost use Rattle.std.specs.Cmp.Lexicographic.{slice_cmp};
ghost use Rattle.wl_exact.specs.Fraction.{of_int};
ghost use Rattle.wl_expr.specs.Order.{name_order, structural_order, structural_orders, without_numbers, factors, power_of, power_order, last_first, canonical_order};
ghost use Rattle.wl_expr.specs.Proper.{AllProper};
ghost use Rattle.wl_expr.specs.Sorted.{sorted};
ghost use Rattle.wl_expr.specs.Stamped.{plain, plains, from_list};
ghost use Rattle.wl_expr.specs.Tree.{node};
ghost use Rattle.wl_expr.specs.Words.{is_number, is_the};

use crate::expr::Expr;
use crate::look::Look;
use std::cmp::Ordering;
use std::slice;
use wl_exact::Num;
use wl_ports::Memory;

/// The order of names: by letters whatever their case, and lower case first where these are the same.
fn name_order(s: &str, t: &str) -> Ordering
    ensures { result ≡ name_order s.now t.now }
{
    let letters = s.bytes().map(|b| b.to_ascii_lowercase());
    let others = t.bytes().map(|b| b.to_ascii_lowercase());
    letters.cmp(others).then(t.cmp(s))
}

#[cycle(structural)]
fn structural_order(a: &Expr, b: &Expr) -> Ordering
    ensures { result ≡ structural_order (plain a.now) (plain b.now) }
{
    match a.view() {
        Look::Num(n) => match b.view() {
            Look::Num(m) => n.cmp(&m),
            _ => Ordering::Less,
        },
        Look::Text(s) => match b.view() {
            Look::Num(_) => Ordering::Greater,
            Look::Text(t) => s.cmp(t),
            _ => Ordering::Less,
        },
        Look::Symbol(s) => match b.view() {
            Look::Symbol(t) => name_order(s, t),
            Look::Node(_, _) => Ordering::Less,
            _ => Ordering::Greater,
        },
        Look::Node(head, args) => match b.view() {
            Look::Node(other, others) => node_order(head, args, other, others),
            _ => Ordering::Greater,
        },
    }
}

/// The order of two nodes: by the number of elements, then by head, then by elements.
#[cycle(structural)]
#[tactic(auto, using(crate::proofs::Parts::length_to_list_plains))]
fn node_order(head: &Expr, args: &[Expr], other: &Expr, others: &[Expr]) -> Ordering
    ensures { result ≡ structural_order
        (node (plain head.now) (plains (from_list args.now)))
        (node (plain other.now) (plains (from_list others.now))) }
{
    let order = args.len().cmp(&others.len());
    if order.is_ne() {
        return order;
    }
    let order = structural_order(head, other);
    if order.is_ne() {
        return order;
    }
    structural_orders(args, others)
}

/// The order of elements in turn.
#[cycle(structural)]
#[tactic(auto, using(crate::proofs::Parts::depth_arg))]
fn structural_orders(xs: &[Expr], ys: &[Expr]) -> Ordering
    requires { length xs.now ≡ length ys.now }
    ensures { result ≡ structural_orders (plains (from_list xs.now)) (plains (from_list ys.now)) }
{
    for i in 0..xs.len() {
        let order = structural_order(&xs[i], &ys[i]);
        if order.is_ne() {
            return order;
        }
    }
    Ordering::Equal
}

fn is_number(e: &Expr) -> bool
    ensures { result ≡ is_number (plain e.now) }
{
    match e.view() {
        Look::Num(_) => true,
        _ => false,
    }
}

/// Whether the expression is the symbol of this name.
fn is_symbol(e: &Expr, name: &str) -> bool
    ensures { result ≡ is_the name.now (plain e.now) }
{
    match e.view() {
        Look::Symbol(s) => name == s,
        _ => false,
    }
}

fn one() -> Num
    ensures { result ≡ of_int (pos 1) }
{
    match Num::int(1) {
        Some(one) => one,
        None => unreachable!(),
    }
}

/// The base and the exponent of a factor.
#[tactic(auto, using(crate::proofs::Items::two_items, crate::proofs::Factors::power_of_others))]
fn power_of(factor: &Expr) -> (&Expr, Num)
    ensures base { plain result.0.now ≡ (power_of (plain factor.now)).base }
    ensures exponent { result.1 ≡ (power_of (plain factor.now)).exponent }
{
    if let Look::Node(head, [base, exponent]) = factor.view() {
        if let Look::Num(n) = exponent.view() {
            if is_symbol(head, "Power") {
                return (base, n);
            }
        }
    }
    (factor, one())
}

fn power_order(a: &Expr, b: &Expr) -> Ordering
    ensures { result ≡ power_order (power_of (plain a.now)) (power_of (plain b.now)) }
{
    let (base, exponent) = power_of(a);
    let (other_base, other_exponent) = power_of(b);
    let order = structural_order(base, other_base);
    if order.is_ne() {
        return order;
    }
    exponent.cmp(&other_exponent)
}

/// Where the factors of an expression lie, which is no number. Numbers among them are no factors.
#[tactic(auto, using(crate::proofs::Parts::to_list_plains))]
fn factors(e: &Expr) -> &[Expr]
    requires { is_number (plain e.now) ≡ false }
    ensures { without_numbers (map plain result.now) ≡ factors (plain e.now) }
{
    if let Look::Node(head, args) = e.view() {
        if is_symbol(head, "Times") {
            return args;
        }
    }
    slice::from_ref(e)
}

/// The last element that is no number, and the elements before it.
#[tactic(auto, using(crate::proofs::Factors::last_first_factor, crate::proofs::Factors::last_first_number))]
fn split_last_factor(args: &[Expr]) -> Option<(&[Expr], &Expr)>
    ensures factors { MatchOption result
        (last_first (without_numbers (map plain args.now)) ≡ [])
        (λ split. last_first (without_numbers (map plain args.now))
        ≡ power_of (plain split.1.now) ∷ last_first (without_numbers (map plain split.0.now))) }
    ensures shorter { IfSome result (λ split. length split.0.now < length args.now) }
{
    for at in (0..args.len()).rev() {
        let last = &args[at];
        if !is_number(last) {
            return Some((&args[..at], last));
        }
    }
    None
}

/// The order of two lists of factors, of which numbers are none, from the last one backwards.
fn factors_order(xs: &[Expr], ys: &[Expr]) -> Ordering
    ensures { result ≡ slice_cmp power_order
        (last_first (without_numbers (map plain xs.now)))
        (last_first (without_numbers (map plain ys.now))) }
{
    let mut left = xs;
    let mut right = ys;
    loop {
        match split_last_factor(left) {
            None => {
                return match split_last_factor(right) {
                    None => Ordering::Equal,
                    Some(_) => Ordering::Less,
                };
            }
            Some((before, x)) => match split_last_factor(right) {
                None => return Ordering::Greater,
                Some((others, y)) => {
                    let order = power_order(x, y);
                    if order.is_ne() {
                        return order;
                    }
                    left = before;
                    right = others;
                }
            },
        }
    }
}

/// The canonical order.
pub fn canonical_order(a: &Expr, b: &Expr) -> Ordering
    ensures { result ≡ canonical_order (plain a.now) (plain b.now) }
{
    match a.view() {
        Look::Num(n) => match b.view() {
            Look::Num(m) => n.cmp(&m),
            _ => Ordering::Less,
        },
        Look::Text(s) => match b.view() {
            Look::Num(_) => Ordering::Greater,
            Look::Text(t) => s.cmp(t),
            _ => Ordering::Less,
        },
        _ => match b.view() {
            Look::Num(_) | Look::Text(_) => Ordering::Greater,
            _ => {
                let order = factors_order(factors(a), factors(b));
                if order.is_ne() {
                    return order;
                }
                structural_order(a, b)
            }
        },
    }
}

/// Looks at each expression, and so tells that it is proper.
fn look_at(args: &[Expr])
    ensures { AllProper (map plain args.now) }
{
    for arg in args {
        let _weight = arg.weight();
    }
}

/// Puts the expressions into the canonical order, stamps apart. Where memory is wanting they stay as they were.
pub fn sort(args: &mut Vec<Expr>) -> Result<(), Memory>
    ensures sorted { OnOk result (map plain args.new.items ≡ sorted (map plain args.old.items)) }
    ensures parts { IsPermutation args.old.items args.new.items }
    ensures err { OnErr result (args.new.items ≡ args.old.items) }
{
    look_at(args.as_slice());
    args.sort_by(|a, b| a.order(b))?;
    Ok(())
}
