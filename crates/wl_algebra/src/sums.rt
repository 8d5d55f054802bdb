//! `Plus`.
ghost use Rattle.std.specs.Prelude.{◌≡◌, [], ◌∷◌, ◌++◌, false, IfOk, IfSome, List, codes, option_map};
ghost use Rattle.std.specs.List.{list_all, list_any};
ghost use Rattle.std.specs.Map.{lookup};
ghost use Rattle.wl_algebra.specs.Alike.{alike};
ghost use Rattle.wl_algebra.specs.Answers.{AllFrom, IsAnswer, IsMade, IsPassed, trees};
ghost use Rattle.wl_algebra.specs.Sums.{alone, collected, infinities, is_number_or_infinity, joined_term, no_sum, node_term, plus_row, product_term, sum_of_finite, sum_of_more, sum_result, term_left, term_of, terms_left, times_of, with_element};
ghost use Rattle.wl_algebra.specs.SumsInside.{EntriesFrom, entry_term, entry_terms, plain_sum, plain_term, sum_with};
ghost use Rattle.wl_exact.specs.Arithmetic.{is_zero};
ghost use Rattle.wl_expr.specs.Passed.{IsFrom};
ghost use Rattle.wl_expr.specs.Stamped.{Stamped, plain};
ghost use Rattle.wl_expr.specs.Tree.{AreSmall, IsWithinLimits, from_list};
ghost use Rattle.wl_expr.specs.Words.{form, is_the};

use crate::answer::{form, give, give_number, give_symbol, overflow};
use crate::element::{is_number, is_symbol, number};
use crate::joining::{give_joined, number_form};
use crate::numbers::whole;
use indexmap::IndexMap;
use std::alloc::Global;
use std::slice;
use wl_exact::Num;
use wl_expr::{Applied, Expr, ExprFault, Look};
use wl_ports::Memory;

/// A coefficient and what it stands before.
#[derive(Drop)]
struct Term {
    coefficient: Num,
    rest: Expr,
}

/// The sum of the numbers, and the coefficient of each rest, in the order in which the rests came.
#[derive(Drop)]
struct Sum {
    total: Num,
    terms: IndexMap<Expr, Num>,
}

fn alone(e: &Expr) -> Result<Term, Memory>
    ensures value { IfOk result (λ t. plain_term t ≡ alone (plain e.now)) }
    ensures passed { (ms : List Stamped) → IsFrom ms e.now → IfOk result (λ t. IsFrom ms t.rest) }
{
    Ok(Term {
        coefficient: whole(1),
        rest: e.copy()?,
    })
}

/// The product of these elements, which is part of an expression, so that want of memory is its only fault.
fn product_of(alloc: Global, elements: &[Expr]) -> Result<Expr, Memory>
    ensures value { IfOk result (λ e. plain e ≡ form (codes "Times") (trees elements.now)) }
    ensures passed { (ms : List Stamped) → AllFrom ms elements.now → IfOk result (IsFrom ms) }
{
    match form(alloc, "Times", elements) {
        Ok(product) => Ok(product),
        Err(_) => Err(Memory),
    }
}

/// The term that a product is, from its first element and the others.
fn product_term(alloc: Global, first: &Expr, others: &[Expr], e: &Expr) -> Result<Term, Memory>
    ensures value { IfOk result (λ t. plain_term t ≡ product_term (plain first.now) (trees others.now) (plain e.now)) }
    ensures passed { (ms : List Stamped) → AllFrom ms others.now → IsFrom ms e.now → IfOk result (λ t. IsFrom ms t.rest) }
{
    let Some(coefficient) = number(first) else {
        return alone(e);
    };
    match others {
        [] => alone(e),
        [only] => Ok(Term {
            coefficient,
            rest: only.copy()?,
        }),
        _ => Ok(Term {
            coefficient,
            rest: product_of(alloc, others)?,
        }),
    }
}

fn node_term(alloc: Global, head: &Expr, args: &[Expr], e: &Expr) -> Result<Term, Memory>
    ensures value { IfOk result (λ t. plain_term t ≡ node_term (plain head.now) (trees args.now) (plain e.now)) }
    ensures passed { (ms : List Stamped) → AllFrom ms args.now → IsFrom ms e.now → IfOk result (λ t. IsFrom ms t.rest) }
{
    let [first, others @ ..] = args else {
        return alone(e);
    };
    if is_symbol(head, "Times") {
        return product_term(alloc, first, others, e);
    }
    alone(e)
}

/// The coefficient and the rest of an element.
#[tactic(auto, using(wl_expr::proofs::Parts::to_list_plains))]
fn term_of(alloc: Global, e: &Expr) -> Result<Term, Memory>
    ensures value { IfOk result (λ t. plain_term t ≡ term_of (plain e.now)) }
    ensures passed { (ms : List Stamped) → IsFrom ms e.now → IfOk result (λ t. IsFrom ms t.rest) }
{
    match e.view() {
        Look::Node(head, args) => node_term(alloc, head, args, e),
        _ => alone(e),
    }
}

/// The coefficient of a rest, and this one, unless they overflow.
fn coefficient_with(terms: &IndexMap<Expr, Num>, rest: &Expr, coefficient: Num) -> Option<Num>
    ensures { result ≡ sum_with (lookup (alike rest.now) terms.now.entries) coefficient }
{
    match terms.get(rest) {
        None => Some(coefficient),
        Some(before) => match before.add(&coefficient) {
            Ok(sum) => Some(sum),
            Err(_) => None,
        },
    }
}

/// The terms and one more, unless a coefficient overflows.
#[tactic(auto, using(crate::proofs::Terms::term_joins, crate::proofs::Terms::term_overflows, crate::proofs::Terms::entries_put))]
fn with_term(
    mut terms: IndexMap<Expr, Num>,
    term: Term,
) -> Result<Option<IndexMap<Expr, Num>>, Memory>
    ensures value { IfOk result (λ ts. option_map (λ m. entry_terms m.entries) ts ≡ joined_term (plain_term term) (entry_terms terms.entries)) }
    ensures passed { (ms : List Stamped) → EntriesFrom ms terms.entries → IsFrom ms term.rest → IfOk result (λ ts. IfSome ts (λ m. EntriesFrom ms m.entries)) }
{
    let Term { coefficient, rest } = term;
    let Some(sum) = coefficient_with(&terms, &rest, coefficient) else {
        return Ok(None);
    };
    terms.insert(rest, sum)?;
    Ok(Some(terms))
}

/// The sum and one element more, unless it overflows.
#[tactic(auto, using(crate::proofs::Terms::element_is_term))]
fn with_element(alloc: Global, sum: Sum, e: &Expr) -> Result<Option<Sum>, Memory>
    ensures value { IfOk result (λ s. option_map plain_sum s ≡ with_element (plain_sum sum) (plain e.now)) }
    ensures passed { (ms : List Stamped) → EntriesFrom ms sum.terms.entries → IsFrom ms e.now → IfOk result (λ s. IfSome s (λ t. EntriesFrom ms t.terms.entries)) }
{
    let Sum { total, terms } = sum;
    match number(e) {
        Some(n) => match total.add(&n) {
            Ok(total) => Ok(Some(Sum { total, terms })),
            Err(_) => Ok(None),
        },
        None => match with_term(terms, term_of(alloc, e)?)? {
            Some(terms) => Ok(Some(Sum { total, terms })),
            None => Ok(None),
        },
    }
}

/// The numbers and the terms of the elements, unless a sum overflows.
#[tactic(auto, using(crate::proofs::Terms::overflow_stays))]
fn collected(alloc: Global, args: &[Expr]) -> Result<Option<Sum>, Memory>
    ensures value { IfOk result (λ s. option_map plain_sum s ≡ collected (Some no_sum) (trees args.now)) }
    ensures passed { (ms : List Stamped) → AllFrom ms args.now → IfOk result (λ s. IfSome s (λ t. EntriesFrom ms t.terms.entries)) }
{
    let mut sum = Sum {
        total: whole(0),
        terms: IndexMap::new(alloc),
    };
    for arg in args {
        match with_element(alloc, sum, arg)? {
            Some(more) => sum = more,
            None => return Ok(None),
        }
    }
    Ok(Some(sum))
}

/// A coefficient before a rest.
fn times_of(alloc: Global, coefficient: &Num, rest: &Expr) -> Result<Expr, ExprFault>
    ensures made { IsMade (times_of coefficient.now (plain rest.now)) result }
    ensures passed { (ms : List Stamped) → IsFrom ms rest.now → IfOk result (IsFrom ms) }
{
    if let Look::Node(head, args) = rest.view() {
        if is_symbol(head, "Times") {
            return number_form(alloc, "Times", *coefficient, args);
        }
    }
    number_form(alloc, "Times", *coefficient, slice::from_ref(rest))
}

/// What is left of a term that doesn't vanish.
#[tactic(auto, using(crate::proofs::Faults::memory_makes))]
fn term_left(alloc: Global, coefficient: &Num, rest: &Expr) -> Result<Expr, ExprFault>
    ensures made { IsMade (term_left (entry_term (rest.now, coefficient.now))) result }
    ensures passed { (ms : List Stamped) → IsFrom ms rest.now → IfOk result (IsFrom ms) }
{
    if *coefficient == whole(1) {
        return Ok(rest.copy()?);
    }
    times_of(alloc, coefficient, rest)
}

/// These elements, and what is left of one term more, unless it vanishes.
fn with_left(
    mut left: Vec<Expr>,
    alloc: Global,
    coefficient: &Num,
    rest: &Expr,
) -> Result<Vec<Expr>, ExprFault>
    ensures value { IfOk result (λ v. trees v.items ≡ trees left.items ++ terms_left (entry_term (rest.now, coefficient.now) ∷ [])) }
    ensures large { result ≡ Err ExprFault.Large → ¬ IsWithinLimits (term_left (entry_term (rest.now, coefficient.now))) }
    ensures stands { result ≡ Err ExprFault.Large → is_zero coefficient.now ≡ false }
    ensures passed { (ms : List Stamped) → AllFrom ms left.items → IsFrom ms rest.now → IfOk result (λ v. AllFrom ms v.items) }
{
    if coefficient.num() != 0 {
        left.push(term_left(alloc, coefficient, rest)?)?;
    }
    Ok(left)
}

/// What is left of the terms. Where one is too large, so is what they are part of.
fn terms_left(alloc: Global, terms: &IndexMap<Expr, Num>) -> Result<Vec<Expr>, ExprFault>
    ensures value { IfOk result (λ v. trees v.items ≡ terms_left (entry_terms terms.now.entries)) }
    ensures large { result ≡ Err ExprFault.Large → ¬ AreSmall (from_list (terms_left (entry_terms terms.now.entries))) }
    ensures passed { (ms : List Stamped) → EntriesFrom ms terms.now.entries → IfOk result (λ v. AllFrom ms v.items) }
{
    let mut left = Vec::new(alloc);
    for at in 0..terms.len() {
        let Some((rest, coefficient)) = terms.get_index(at) else {
            break;
        };
        left = with_left(left, alloc, coefficient, rest)?;
    }
    Ok(left)
}

/// What is left of a sum.
#[tactic(auto, using(crate::proofs::Leftovers::left_answers))]
fn give_sum(alloc: Global, sum: &Sum) -> Result<Applied, ExprFault>
    ensures answer { IsAnswer (sum_result (Some (plain_sum sum.now))) result }
    ensures passed { (ms : List Stamped) → EntriesFrom ms sum.now.terms.entries → IsPassed ms result }
{
    let left = terms_left(alloc, &sum.terms)?;
    give_joined(alloc, "Plus", sum.total, whole(0), left.as_slice())
}

/// Whether the symbol of this name is among the elements.
pub(crate) fn has(args: &[Expr], name: &str) -> bool
    ensures { result ≡ list_any (is_the name.now) (trees args.now) }
{
    for arg in args {
        if is_symbol(arg, name) {
            return true;
        }
    }
    false
}

/// How many elements are `ComplexInfinity`.
fn infinities(args: &[Expr]) -> usize
    ensures { result ≡ infinities (trees args.now) }
{
    let mut count = 0;
    for arg in args {
        if is_symbol(arg, "ComplexInfinity") {
            count += 1;
        }
    }
    count
}

fn is_number_or_infinity(e: &Expr) -> bool
    ensures { result ≡ is_number_or_infinity (plain e.now) }
{
    is_number(e) || is_symbol(e, "ComplexInfinity")
}

pub(crate) fn are_numbers_or_infinities(args: &[Expr]) -> bool
    ensures { result ≡ list_all is_number_or_infinity (trees args.now) }
{
    for arg in args {
        if !is_number_or_infinity(arg) {
            return false;
        }
    }
    true
}

/// The sum of elements without an infinity too many.
#[tactic(auto, using(crate::proofs::Faults::memory_answers))]
fn finite_sum(alloc: Global, args: &[Expr]) -> Result<Applied, ExprFault>
    ensures answer { IsAnswer (sum_of_finite (trees args.now)) result }
    ensures passed { (ms : List Stamped) → AllFrom ms args.now → IsPassed ms result }
{
    if infinities(args) == 1 && are_numbers_or_infinities(args) {
        return give_symbol(alloc, "ComplexInfinity");
    }
    match collected(alloc, args)? {
        Some(sum) => give_sum(alloc, &sum),
        None => overflow(alloc),
    }
}

fn sum_of_more(alloc: Global, args: &[Expr]) -> Result<Applied, ExprFault>
    ensures answer { IsAnswer (sum_of_more (trees args.now)) result }
    ensures passed { (ms : List Stamped) → AllFrom ms args.now → IsPassed ms result }
{
    if has(args, "Indeterminate") || infinities(args) >= 2 {
        return give_symbol(alloc, "Indeterminate");
    }
    finite_sum(alloc, args)
}

#[tactic(auto, using(crate::proofs::Faults::memory_answers, crate::proofs::Leftovers::many_summed))]
pub(crate) fn plus_row(alloc: Global, args: &[Expr]) -> Result<Applied, ExprFault>
    ensures answer { IsAnswer (plus_row (trees args.now)) result }
    ensures passed { (ms : List Stamped) → AllFrom ms args.now → IsPassed ms result }
{
    match args {
        [] => give_number(alloc, whole(0)),
        [only] => give(only.copy()?),
        _ => sum_of_more(alloc, args),
    }
}
