//! `Part`: first the walk along the indices, for the first one without a part, and then the parts.
ghost use Rattle.std.specs.Prelude.{◌≡◌, Err, IfOk, IfSome, List, None, OnOk, Some, map, option_map};
ghost use Rattle.std.specs.List.{list_all};
ghost use Rattle.wl_expr.specs.Passed.{IsFrom};
ghost use Rattle.wl_expr.specs.Stamped.{Stamped, plain};
ghost use Rattle.wl_expr.specs.Tree.{AreSmall, from_list};
ghost use Rattle.wl_expr.specs.Words.{int_of, is_int};
ghost use Rattle.wl_lists.specs.Answers.{AllFrom, IsAnswer, IsMade, IsPassed, trees};
ghost use Rattle.wl_lists.specs.Parts.{failure, fails_among, fails_at, fails_in, is_index, missing, part_answer, part_at, part_of, part_row, single_part};
ghost use Rattle.wl_lists.specs.PartsInside.{AreMade, FailureIsFrom, MadeAreFrom, once, part_standing, plain_failure};

use crate::answer::{give_made, node, stay, tell_no_part};
use crate::element::{integer, is_symbol, list_elements, parts};
use crate::joining::distinct;
use crate::segments::place;
use indexmap::{IndexMap, IndexSet};
use std::alloc::Global;
use wl_expr::{Applied, Expr, ExprFault};
use wl_ports::Memory;

/// Elements that weigh more together are in no expression.
const MAX_WEIGHT: u64 = 4_000_000;

/// Why a walk along indices ends early.
#[derive(Drop)]
pub(crate) enum Failure {
    /// This index has no part in this expression.
    Missing(Expr, Expr),
    /// An atom is met, and no index that could be told.
    NoIndex,
}

/// The part of an index, and where it stands: 0 for the head, from 1 for the elements.
fn part_at<'a>(e: &'a Expr, index: &Expr) -> Option<(usize, &'a Expr)>
    ensures value { option_map (λ p. plain p.1.now) result ≡ part_at (plain e.now) (int_of (plain index.now)) }
    ensures stands { IfSome result (λ p. part_standing (plain e.now) p.0 ≡ Some (plain p.1.now)) }
    ensures passed { (ms : List Stamped) → IsFrom ms e.now → IfSome result (λ p. IsFrom ms p.1.now) }
{
    let (head, elements) = parts(e)?;
    let n = integer(index)?;
    if n == 0 {
        return Some((0, head));
    }
    let at = place(elements.len(), n)?;
    Some((at + 1, &elements[at]))
}

fn missing(index: &Expr, e: &Expr) -> Result<Option<Failure>, Memory>
    ensures value { IfOk result (λ f. option_map plain_failure f ≡ Some (missing (plain index.now) (plain e.now))) }
    ensures passed { (ms : List Stamped) → IsFrom ms index.now → IsFrom ms e.now
        → IfOk result (λ f. IfSome f (FailureIsFrom ms)) }
{
    Ok(Some(Failure::Missing(index.copy()?, e.copy()?)))
}

/// The first failure at the indices of a list, each with the further ones inside it. No part is walked through twice.
#[cycle(walk)]
fn first_failure_among(
    alloc: Global,
    e: &Expr,
    indices: &[Expr],
    further: &[Expr],
) -> Result<Option<Failure>, Memory>
    ensures value { IfOk result (λ f. option_map plain_failure f
        ≡ fails_among (plain e.now) (λ t. failure (trees further.now) t) (trees indices.now)) }
    ensures passed { (ms : List Stamped) → IsFrom ms e.now → AllFrom ms indices.now → AllFrom ms further.now
        → IfOk result (λ f. IfSome f (FailureIsFrom ms)) }
{
    let mut walked = IndexSet::new(alloc);
    for index in indices {
        let Some((at, part)) = part_at(e, index) else {
            return missing(index, e);
        };
        let is_new = walked.insert(at)?;
        if !is_new {
            continue;
        }
        let failed = first_failure(alloc, part, further)?;
        if failed.is_some() {
            return Ok(failed);
        }
    }
    Ok(None)
}

#[cycle(walk)]
fn first_failure_in(
    alloc: Global,
    e: &Expr,
    indices: &[Expr],
    further: &[Expr],
) -> Result<Option<Failure>, Memory>
    ensures value { IfOk result (λ f. option_map plain_failure f
        ≡ fails_in (plain e.now) (λ t. failure (trees further.now) t) (trees indices.now)) }
    ensures passed { (ms : List Stamped) → IsFrom ms e.now → AllFrom ms indices.now → AllFrom ms further.now
        → IfOk result (λ f. IfSome f (FailureIsFrom ms)) }
{
    if indices.is_empty() && parts(e).is_none() {
        return Ok(Some(Failure::NoIndex));
    }
    first_failure_among(alloc, e, indices, further)
}

/// The first failure of the walk along the indices. Each goes into a part, so this is no deeper than the expression.
#[cycle(walk)]
fn first_failure(alloc: Global, e: &Expr, indices: &[Expr]) -> Result<Option<Failure>, Memory>
    ensures value { IfOk result (λ f. option_map plain_failure f ≡ failure (trees indices.now) (plain e.now)) }
    ensures passed { (ms : List Stamped) → IsFrom ms e.now → AllFrom ms indices.now
        → IfOk result (λ f. IfSome f (FailureIsFrom ms)) }
{
    let [index, further @ ..] = indices else {
        return Ok(None);
    };
    if let Some(among) = list_elements(index) {
        return first_failure_in(alloc, e, among, further);
    }
    match part_at(e, index) {
        Some((_, part)) => first_failure(alloc, part, further),
        None => missing(index, e),
    }
}

/// The part at an index, with the further ones inside it, where the walk doesn't fail. What stands at one place is made once.
#[cycle(build)]
fn made_once(
    alloc: Global,
    made: &mut IndexMap<usize, Expr>,
    e: &Expr,
    index: &Expr,
    further: &[Expr],
) -> Result<Expr, ExprFault>
    requires walked { fails_at (plain e.now) (λ t. failure (trees further.now) t) (plain index.now) ≡ None }
    requires are_made { AreMade (plain e.now) (trees further.now) made.old.entries }
    ensures made { IsMade (part_of (trees further.now) (single_part (plain e.now) (plain index.now))) result }
    ensures are_made { OnOk result (AreMade (plain e.now) (trees further.now) made.new.entries) }
    ensures passed { (ms : List Stamped) → IsFrom ms e.now → MadeAreFrom ms made.old.entries → IfOk result (IsFrom ms) }
    ensures are_passed { (ms : List Stamped) → IsFrom ms e.now → MadeAreFrom ms made.old.entries
        → OnOk result (MadeAreFrom ms made.new.entries) }
{
    let Some((at, inner)) = part_at(e, index) else {
        unreachable!();
    };
    if let Some(before) = made.get(&at) {
        return Ok(before.copy()?);
    }
    let part = part(alloc, inner, further)?;
    made.insert(at, part.copy()?)?;
    Ok(part)
}

/// The parts at the indices of a list, where the walk doesn't fail.
#[cycle(build)]
fn parts_among(
    alloc: Global,
    e: &Expr,
    indices: &[Expr],
    further: &[Expr],
) -> Result<Vec<Expr>, ExprFault>
    requires { fails_among (plain e.now) (λ t. failure (trees further.now) t) (trees indices.now) ≡ None }
    ensures value { IfOk result (λ v. trees v.items
        ≡ map (λ i. part_of (trees further.now) (single_part (plain e.now) i)) (trees indices.now)) }
    ensures large { result ≡ Err ExprFault.Large
        → ¬ AreSmall (from_list (map (λ i. part_of (trees further.now) (single_part (plain e.now) i)) (trees indices.now))) }
    ensures passed { (ms : List Stamped) → IsFrom ms e.now → IfOk result (λ v. AllFrom ms v.items) }
{
    let mut made = IndexMap::new(alloc);
    let mut all = Vec::new(alloc);
    let mut weight = 0;
    for index in indices {
        let part = made_once(alloc, &mut made, e, index, further)?;
        weight += part.weight();
        if weight > MAX_WEIGHT {
            return Err(ExprFault::Large);
        }
        all.push(part)?;
    }
    Ok(all)
}

/// The part at the indices, where the walk along them doesn't fail, and so is no deeper than the expression.
#[cycle(build)]
fn part(alloc: Global, e: &Expr, indices: &[Expr]) -> Result<Expr, ExprFault>
    requires { failure (trees indices.now) (plain e.now) ≡ None }
    ensures made { IsMade (part_of (trees indices.now) (plain e.now)) result }
    ensures passed { (ms : List Stamped) → IsFrom ms e.now → IfOk result (IsFrom ms) }
{
    let [index, further @ ..] = indices else {
        return Ok(e.copy()?);
    };
    if let Some(among) = list_elements(index) {
        let Some((head, _)) = parts(e) else {
            unreachable!();
        };
        let all = parts_among(alloc, e, among, further)?;
        return node(alloc, head, all.as_slice());
    }
    match part_at(e, index) {
        Some((_, inner)) => part(alloc, inner, further),
        None => unreachable!(),
    }
}

/// The index; a list with each of its indices once, which is no larger.
fn once(alloc: Global, index: &Expr) -> Result<Expr, Memory>
    ensures value { IfOk result (λ i. plain i ≡ once (plain index.now)) }
    ensures passed { (ms : List Stamped) → IsFrom ms index.now → IfOk result (IsFrom ms) }
{
    // That an expression fits is a clause of `weight`.
    let _weight = index.weight();
    let Some((head, among)) = parts(index) else {
        return index.copy();
    };
    if !is_symbol(head, "List") {
        return index.copy();
    }
    match node(alloc, head, distinct(alloc, among)?.as_slice()) {
        Ok(shorter) => Ok(shorter),
        Err(ExprFault::Memory) => Err(Memory),
        Err(ExprFault::Large) => unreachable!(),
    }
}

fn each_once(alloc: Global, indices: &[Expr]) -> Result<Vec<Expr>, Memory>
    ensures value { IfOk result (λ v. trees v.items ≡ map once (trees indices.now)) }
    ensures passed { (ms : List Stamped) → AllFrom ms indices.now → IfOk result (λ v. AllFrom ms v.items) }
{
    let mut all = Vec::with_capacity(alloc, indices.len())?;
    for index in indices {
        all.push(once(alloc, index)?)?;
    }
    Ok(all)
}

fn are_integers(elements: &[Expr]) -> bool
    ensures { result ≡ list_all is_int (trees elements.now) }
{
    for element in elements {
        if integer(element).is_none() {
            return false;
        }
    }
    true
}

/// Whether the expression is an integer or a list of integers.
fn is_index(e: &Expr) -> bool
    ensures { result ≡ is_index (plain e.now) }
{
    match list_elements(e) {
        Some(elements) => are_integers(elements),
        None => integer(e).is_some(),
    }
}

fn are_indices(args: &[Expr]) -> bool
    ensures { result ≡ list_all is_index (trees args.now) }
{
    for arg in args {
        if !is_index(arg) {
            return false;
        }
    }
    true
}

/// Gives the part of a node, or tells the first index without one.
#[tactic(auto, using(crate::proofs::Once::once_fails))]
fn give_part(alloc: Global, e: &Expr, indices: &[Expr]) -> Result<Applied, ExprFault>
    ensures answer { IsAnswer (part_answer (part_of (trees indices.now) (plain e.now)) (failure (trees indices.now) (plain e.now))) result }
    ensures passed { (ms : List Stamped) → IsFrom ms e.now → AllFrom ms indices.now → IsPassed ms result }
{
    match first_failure(alloc, e, each_once(alloc, indices)?.as_slice())? {
        None => give_made(part(alloc, e, indices)),
        Some(Failure::Missing(index, inner)) => tell_no_part(index, inner),
        Some(Failure::NoIndex) => stay(),
    }
}

pub(crate) fn part_row(alloc: Global, args: &[Expr]) -> Result<Applied, ExprFault>
    ensures answer { IsAnswer (part_row (trees args.now)) result }
    ensures passed { (ms : List Stamped) → AllFrom ms args.now → IsPassed ms result }
{
    let [e, indices @ ..] = args else {
        return stay();
    };
    if indices.is_empty() || parts(e).is_none() || !are_indices(indices) {
        return stay();
    }
    give_part(alloc, e, indices)
}
