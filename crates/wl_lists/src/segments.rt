//! `Take` and `Drop`.
ghost use Rattle.std.specs.Prelude.{◌≡◌, ◌+◌, ◌≤◌, ◌++◌, IfOk, IfSome, List, drop, length, take};
ghost use Rattle.wl_expr.specs.Stamped.{Stamped, plain};
ghost use Rattle.wl_expr.specs.Words.{int_of};
ghost use Rattle.wl_lists.specs.Answers.{AllFrom, IsAnswer, IsPassed, trees};
ghost use Rattle.wl_lists.specs.Places.{place_of};
ghost use Rattle.wl_lists.specs.Segments.{drop_row, place_in, segment_in, segment_of, segment_to, take_row};

use crate::answer::{give_node, stay};
use crate::element::{integer, list_elements, parts};
use crate::elements::extend;
use std::alloc::Global;
use wl_expr::{Applied, Expr, ExprFault};
use wl_ports::Memory;

/// Where a run of elements begins, from 0, and how many it has.
#[derive(Clone, Copy)]
pub(crate) struct Segment {
    pub(crate) from: usize,
    pub(crate) count: usize,
}

/// The place, from 0, of an index from 1, or from -1 backwards.
pub(crate) fn place(size: usize, n: i128) -> Option<usize>
    ensures value { result ≡ place_of size n }
    ensures within { IfSome result (λ k. k + 1 ≤ size) }
{
    let steps = n.unsigned_abs();
    if steps == 0 || steps > size as u128 {
        return None;
    }
    let steps = steps as usize;
    if n < 0 {
        Some(size - steps)
    } else {
        Some(steps - 1)
    }
}

/// The first n elements, or the last for negative n.
fn segment_to(size: usize, n: i128) -> Option<Segment>
    ensures value { result ≡ segment_to size n }
    ensures within { IfSome result (λ s. s.from + s.count ≤ size) }
{
    let steps = n.unsigned_abs();
    if steps > size as u128 {
        return None;
    }
    let count = steps as usize;
    let from = if n < 0 { size - count } else { 0 };
    Some(Segment { from, count })
}

fn place_in(size: usize, e: &Expr) -> Option<usize>
    ensures value { result ≡ place_in size (int_of (plain e.now)) }
    ensures within { IfSome result (λ k. k + 1 ≤ size) }
{
    place(size, integer(e)?)
}

/// The elements from one place to another.
fn segment_in(size: usize, places: &[Expr]) -> Option<Segment>
    ensures value { result ≡ segment_in size (trees places.now) }
    ensures within { IfSome result (λ s. s.from + s.count ≤ size) }
{
    let [first, last] = places else {
        return None;
    };
    let from = place_in(size, first)?;
    let to = place_in(size, last)?;
    if from > to {
        return None;
    }
    Some(Segment {
        from,
        count: to + 1 - from,
    })
}

fn segment_of(size: usize, e: &Expr) -> Option<Segment>
    ensures value { result ≡ segment_of size (plain e.now) }
    ensures within { IfSome result (λ s. s.from + s.count ≤ size) }
{
    match list_elements(e) {
        Some(places) => segment_in(size, places),
        None => segment_to(size, integer(e)?),
    }
}

/// These elements.
pub(crate) fn taken(elements: &[Expr], s: Segment) -> &[Expr]
    requires { s.from + s.count ≤ length elements.now }
    ensures value { trees result.now ≡ take s.count (drop s.from (trees elements.now)) }
    ensures passed { (ms : List Stamped) → AllFrom ms elements.now → AllFrom ms result.now }
{
    &elements[s.from..s.from + s.count]
}

pub(crate) fn take_row(alloc: Global, args: &[Expr]) -> Result<Applied, ExprFault>
    ensures answer { IsAnswer (take_row (trees args.now)) result }
    ensures passed { (ms : List Stamped) → AllFrom ms args.now → IsPassed ms result }
{
    let [e, s] = args else {
        return stay();
    };
    let Some((head, elements)) = parts(e) else {
        return stay();
    };
    match segment_of(elements.len(), s) {
        Some(s) => give_node(alloc, head, taken(elements, s)),
        None => stay(),
    }
}

/// Copies of the other elements.
fn others(alloc: Global, elements: &[Expr], s: Segment) -> Result<Vec<Expr>, Memory>
    requires { s.from + s.count ≤ length elements.now }
    ensures value { IfOk result (λ v. trees v.items
        ≡ take s.from (trees elements.now) ++ drop (s.from + s.count) (trees elements.now)) }
    ensures passed { (ms : List Stamped) → AllFrom ms elements.now → IfOk result (λ v. AllFrom ms v.items) }
{
    let past = s.from + s.count;
    let before = Segment {
        from: 0,
        count: s.from,
    };
    let behind = Segment {
        from: past,
        count: elements.len() - past,
    };
    let mut left = Vec::new(alloc);
    extend(&mut left, taken(elements, before))?;
    extend(&mut left, taken(elements, behind))?;
    Ok(left)
}

pub(crate) fn drop_row(alloc: Global, args: &[Expr]) -> Result<Applied, ExprFault>
    ensures answer { IsAnswer (drop_row (trees args.now)) result }
    ensures passed { (ms : List Stamped) → AllFrom ms args.now → IsPassed ms result }
{
    let [e, s] = args else {
        return stay();
    };
    let Some((head, elements)) = parts(e) else {
        return stay();
    };
    match segment_of(elements.len(), s) {
        Some(s) => give_node(alloc, head, others(alloc, elements, s)?.as_slice()),
        None => stay(),
    }
}
