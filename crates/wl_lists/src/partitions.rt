//! `Partition`.
ghost use Rattle.std.specs.Prelude.{◌≡◌, ◌≤◌, ◌<◌, ◌+◌, ◌*◌, Err, IfOk, List, Some, length};
ghost use Rattle.wl_expr.specs.Passed.{IsFrom};
ghost use Rattle.wl_expr.specs.Stamped.{Stamped, plain};
ghost use Rattle.wl_expr.specs.Tree.{AreSmall, from_list};
ghost use Rattle.wl_lists.specs.Answers.{AllFrom, IsAnswer, IsMade, IsPassed, trees};
ghost use Rattle.wl_lists.specs.Partitions.{chunk, chunks, partition_by, partition_row};

use crate::answer::{give_elements, give_node, node, stay};
use crate::arrays::count_of;
use crate::element::parts;
use crate::segments::{Segment, taken};
use std::alloc::Global;
use wl_expr::{Applied, Expr, ExprFault};

/// The part of place k, from 0.
fn chunk(
    alloc: Global,
    head: &Expr,
    size: usize,
    elements: &[Expr],
    k: usize,
) -> Result<Expr, ExprFault>
    requires { k * size + size ≤ length elements.now }
    ensures made { IsMade (chunk (plain head.now) size (trees elements.now) k) result }
    ensures passed { (ms : List Stamped) → IsFrom ms head.now → AllFrom ms elements.now → IfOk result (IsFrom ms) }
{
    let part = Segment {
        from: k * size,
        count: size,
    };
    node(alloc, head, taken(elements, part))
}

/// The whole parts.
fn chunks(
    alloc: Global,
    head: &Expr,
    size: usize,
    elements: &[Expr],
) -> Result<Vec<Expr>, ExprFault>
    requires { 0 < size }
    ensures value { IfOk result (λ v. trees v.items ≡ chunks (plain head.now) size (trees elements.now)) }
    ensures large { result ≡ Err ExprFault.Large
        → ¬ AreSmall (from_list (chunks (plain head.now) size (trees elements.now))) }
    ensures passed { (ms : List Stamped) → IsFrom ms head.now → AllFrom ms elements.now
        → IfOk result (λ v. AllFrom ms v.items) }
{
    let count = elements.len() / size;
    let mut all = Vec::new(alloc);
    for k in 0..count {
        let part = chunk(alloc, head, size, elements, k)?;
        all.push(part)?;
    }
    Ok(all)
}

/// Gives the parts of this size; none where it is greater than the number of elements.
fn give_chunks(
    alloc: Global,
    head: &Expr,
    elements: &[Expr],
    size: u128,
) -> Result<Applied, ExprFault>
    ensures answer { IsAnswer (partition_by (plain head.now) (trees elements.now) (Some size)) result }
    ensures passed { (ms : List Stamped) → IsFrom ms head.now → AllFrom ms elements.now → IsPassed ms result }
{
    if size == 0 {
        return stay();
    }
    if size > elements.len() as u128 {
        return give_node(alloc, head, &[]);
    }
    give_elements(alloc, head, chunks(alloc, head, size as usize, elements))
}

pub(crate) fn partition_row(alloc: Global, args: &[Expr]) -> Result<Applied, ExprFault>
    ensures answer { IsAnswer (partition_row (trees args.now)) result }
    ensures passed { (ms : List Stamped) → AllFrom ms args.now → IsPassed ms result }
{
    let [e, n] = args else {
        return stay();
    };
    let Some((head, elements)) = parts(e) else {
        return stay();
    };
    match count_of(n) {
        Some(size) => give_chunks(alloc, head, elements, size),
        None => stay(),
    }
}
