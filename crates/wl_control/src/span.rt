//! The values of an iterator, one after the other.
ghost use Rattle.std.specs.Prelude.{◌≡◌, List, Some, option_map};
ghost use Rattle.wl_control.specs.Iterators.{number_of, span_by, span_of};
ghost use Rattle.wl_control.specs.Places.{following_of, plain_span, trees};
ghost use Rattle.wl_exact.specs.Span.{one, is_past, is_whole, first, following};
ghost use Rattle.wl_expr.specs.Stamped.{plain};

use crate::place::{Following, Span};
use std::cmp::Ordering;
use wl_exact::Num;
use wl_expr::{Expr, Look};

/// The number that an expression is.
fn number_of(e: &Expr) -> Option<Num>
    ensures { result ≡ number_of (plain e.now) }
{
    match e.view() {
        Look::Num(n) => Some(n),
        _ => None,
    }
}

/// The number 1.
fn one() -> Option<Num>
    ensures { result ≡ Some one }
{
    Num::int(1)
}

/// The span of these numbers, where all are there and the step isn't 0.
fn span_by(from: Option<Num>, to: Option<Num>, by: Option<Num>) -> Option<Span>
    ensures { option_map plain_span result ≡ span_by from to by }
{
    let from = from?;
    let to = to?;
    let by = by?;
    if by.num() == 0 {
        return None;
    }
    Some(Span { from, to, by })
}

/// The span of these bounds: one, two or three numbers.
pub(crate) fn span_of(bounds: &[Expr]) -> Option<Span>
    ensures { option_map plain_span result ≡ span_of (trees bounds.now) }
{
    match bounds {
        [to] => span_by(one(), number_of(to), one()),
        [from, to] => span_by(number_of(from), number_of(to), one()),
        [from, to, by] => span_by(number_of(from), number_of(to), number_of(by)),
        _ => None,
    }
}

/// Whether a value lies past the bound.
fn is_past(span: &Span, value: &Num) -> bool
    ensures { result ≡ is_past (plain_span span.now) value.now }
{
    if span.by.num() < 0 {
        value.cmp(&span.to) == Ordering::Less
    } else {
        span.to.cmp(value) == Ordering::Less
    }
}

/// The first value, where it isn't past the bound.
pub(crate) fn first(span: &Span) -> Following
    ensures { following_of result ≡ first (plain_span span.now) }
{
    if is_past(span, &span.from) {
        return Following::Ended;
    }
    Following::Next(span.from)
}

fn is_whole(value: &Num) -> bool
    ensures { result ≡ is_whole value.now }
{
    value.den() == 1
}

/// What follows a value.
pub(crate) fn following(span: &Span, value: &Num) -> Following
    ensures { following_of result ≡ following (plain_span span.now) value.now }
{
    match value.add(&span.by) {
        Ok(next) => {
            if is_past(span, &next) {
                return Following::Ended;
            }
            Following::Next(next)
        }
        Err(_) => {
            if is_whole(value) && is_whole(&span.by) {
                return Following::Ended;
            }
            Following::Overflowed
        }
    }
}
