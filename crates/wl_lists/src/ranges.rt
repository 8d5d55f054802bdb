//! `Range`.
ghost use Rattle.std.specs.Prelude.{◌≡◌, IfOk, IfSome, List, option_map};
ghost use Rattle.wl_exact.specs.Span.{first, following, is_past, with_step};
ghost use Rattle.wl_expr.specs.Spans.{span_of};
ghost use Rattle.wl_expr.specs.Stamped.{Stamped};
ghost use Rattle.wl_lists.specs.Answers.{AllFrom, IsAnswer, IsPassed, trees};
ghost use Rattle.wl_lists.specs.Ranges.{range_row, values};
ghost use Rattle.wl_lists.specs.RangesInside.{plain_bounds, plain_coming};

use crate::answer::{give_form, overflow, stay, whole};
use crate::element::number;
use std::alloc::Global;
use wl_exact::Num;
use wl_expr::{Applied, Expr, ExprFault};
use wl_ports::Memory;

/// A list of this many numbers is too heavy.
const TOO_MANY: u64 = 3_999_996;

/// The first value, the bound, and the step.
#[derive(Clone, Copy)]
pub(crate) struct Bounds {
    from: Num,
    to: Num,
    by: Num,
}

/// What comes next of an iterator.
#[derive(Clone, Copy)]
pub(crate) enum Coming {
    Value(Num),
    Ended,
    Overflowed,
}

/// The bounds, where the step isn't 0.
fn with_step(from: Num, to: Num, by: Num) -> Option<Bounds>
    ensures { option_map plain_bounds result ≡ with_step from to by }
{
    if by.num() == 0 {
        return None;
    }
    Some(Bounds { from, to, by })
}

fn bounds_of(args: &[Expr]) -> Option<Bounds>
    ensures { option_map plain_bounds result ≡ span_of (trees args.now) }
{
    match args {
        [to] => with_step(whole(1), number(to)?, whole(1)),
        [from, to] => with_step(number(from)?, number(to)?, whole(1)),
        [from, to, by] => with_step(number(from)?, number(to)?, number(by)?),
        _ => None,
    }
}

/// Whether the value lies past the bound, as seen in the step's direction.
fn is_past(b: &Bounds, v: &Num) -> bool
    ensures { result ≡ is_past (plain_bounds b.now) v.now }
{
    if b.by.num() < 0 {
        v.cmp(&b.to).is_lt()
    } else {
        b.to.cmp(v).is_lt()
    }
}

fn first(b: &Bounds) -> Coming
    ensures { plain_coming result ≡ first (plain_bounds b.now) }
{
    if is_past(b, &b.from) {
        return Coming::Ended;
    }
    Coming::Value(b.from)
}

/// The value after this one. An integer past the range of numbers lies past the bound.
fn following(b: &Bounds, v: &Num) -> Coming
    ensures { plain_coming result ≡ following (plain_bounds b.now) v.now }
{
    match v.add(&b.by) {
        Ok(sum) => {
            if is_past(b, &sum) {
                Coming::Ended
            } else {
                Coming::Value(sum)
            }
        }
        Err(_) => {
            if v.den() == 1 && b.by.den() == 1 {
                Coming::Ended
            } else {
                Coming::Overflowed
            }
        }
    }
}

/// The values, at most so many of them; none where one overflows.
#[tactic(auto, using(crate::proofs::Spanning::put_nothing, crate::proofs::Spanning::overflowed_values))]
fn values(alloc: Global, b: &Bounds, most: u64) -> Result<Option<Vec<Expr>>, Memory>
    ensures value { IfOk result (λ r. option_map (λ v. trees v.items) r
        ≡ values most (plain_bounds b.now) (first (plain_bounds b.now))) }
    ensures passed { (ms : List Stamped) → IfOk result (λ r. IfSome r (λ v. AllFrom ms v.items)) }
{
    let mut all = Vec::new(alloc);
    let mut coming = first(b);
    for made in 0..most {
        match coming {
            Coming::Ended => return Ok(Some(all)),
            Coming::Overflowed => return Ok(None),
            Coming::Value(v) => {
                all.push(Expr::num(alloc, v)?)?;
                coming = following(b, &v);
            }
        }
    }
    Ok(Some(all))
}

pub(crate) fn range_row(alloc: Global, args: &[Expr]) -> Result<Applied, ExprFault>
    ensures answer { IsAnswer (range_row (trees args.now)) result }
    ensures passed { (ms : List Stamped) → AllFrom ms args.now → IsPassed ms result }
{
    let Some(b) = bounds_of(args) else {
        return stay();
    };
    match values(alloc, &b, TOO_MANY)? {
        Some(all) => give_form(alloc, "List", all.as_slice()),
        None => overflow(alloc),
    }
}
