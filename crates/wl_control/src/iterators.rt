//! `Do` and `Table`: the bounds of an iterator, and its passes.
ghost use Rattle.std.specs.Prelude.{List};
ghost use Rattle.wl_control.specs.Places.{IsAnswer, IsPassed, AllFrom, BoundsAreFrom, FoundIsFrom, PassesAreFrom, bounds_asks, bound_asks, do_again, following_of, over_asks, pass_asks, passes_asks, plain_caught, setting_asks, table_again};
ghost use Rattle.wl_expr.specs.Passed.{IsFrom};
ghost use Rattle.wl_expr.specs.Stamped.{Stamped, plain};

use crate::found::Found;
use crate::loops::PASSES;
use crate::place::{Ask, Bounds, Caught, Ended, Following, Left, Passes, Place, Step, Valued};
use crate::span::{first, following, span_of};
use crate::step::{alone_or, catch, evaluate, give_list, give_null, one_more, stay};
use std::alloc::Global;
use wl_exact::Num;
use wl_expr::{Expr, ExprFault};

/// An iterator from one of its bounds on.
pub(crate) fn bounds_from(alloc: Global, bounds: Bounds) -> Result<Step, ExprFault>
    ensures answer { IsAnswer (bounds_asks bounds) result }
    ensures passed { (ms : List Stamped) → BoundsAreFrom ms bounds → IsPassed ms result }
{
    let Bounds {
        named,
        body,
        found,
        known,
        mut rest,
    } = bounds;
    if let Some(bound) = rest.pop_front() {
        let then = Bounds {
            named,
            body,
            found,
            known,
            rest,
        };
        return evaluate(bound, Valued::Bound(then));
    }
    match span_of(known.as_slice()) {
        None => stay(),
        Some(span) => {
            let start = first(&span);
            let passes = Passes {
                named,
                body,
                span,
                passes: PASSES,
            };
            passes_from(alloc, passes, found, start)
        }
    }
}

/// An iterator once a bound has a value.
pub(crate) fn bound_on(alloc: Global, bounds: Bounds, value: &Expr) -> Result<Step, ExprFault>
    ensures answer { IsAnswer (bound_asks bounds (plain value.now)) result }
    ensures passed { (ms : List Stamped) → BoundsAreFrom ms bounds → IsFrom ms value.now → IsPassed ms result }
{
    let Bounds {
        named,
        body,
        found,
        known,
        rest,
    } = bounds;
    let known = one_more(known, value)?;
    let next = Bounds {
        named,
        body,
        found,
        known,
        rest,
    };
    bounds_from(alloc, next)
}

/// The passes, by what comes next: one with this value, the end, or an overflow.
fn passes_from(
    alloc: Global,
    mut passes: Passes,
    found: Option<Found>,
    next: Following,
) -> Result<Step, ExprFault>
    ensures answer { IsAnswer (passes_asks passes found (following_of next)) result }
    ensures passed { (ms : List Stamped) → PassesAreFrom ms passes → FoundIsFrom ms found → IsPassed ms result }
{
    if passes.passes == 0 {
        return stay();
    }
    passes.passes -= 1;
    match next {
        Following::Ended => passes_over(alloc, found),
        Following::Overflowed => Ok(Step {
            ask: Ask::Overflow,
            place: Place::Over,
        }),
        Following::Next(value) => Ok(Step {
            ask: Ask::Pass,
            place: Place::Leave(Left::Iterate(passes, found, value)),
        }),
    }
}

/// Ends with Null, or with what `Table` has collected.
fn passes_over(alloc: Global, found: Option<Found>) -> Result<Step, ExprFault>
    ensures answer { IsAnswer (over_asks found) result }
    ensures passed { (ms : List Stamped) → FoundIsFrom ms found → IsPassed ms result }
{
    match found {
        None => give_null(alloc),
        Some(found) => give_list(alloc, found.values()),
    }
}

/// A pass that has begun: the name gets its value, where there is one.
pub(crate) fn value_from(
    alloc: Global,
    passes: Passes,
    found: Option<Found>,
    value: Num,
) -> Result<Step, ExprFault>
    ensures answer { IsAnswer (setting_asks passes found value) result }
    ensures passed { (ms : List Stamped) → PassesAreFrom ms passes → FoundIsFrom ms found → IsPassed ms result }
{
    if !passes.named {
        return pass_from(alloc, passes, found, value);
    }
    let number = Expr::num(alloc, value)?;
    Ok(Step {
        ask: Ask::Let(number),
        place: Place::Leave(Left::Set(passes, found, value)),
    })
}

/// A pass at its body.
pub(crate) fn pass_from(
    alloc: Global,
    passes: Passes,
    found: Option<Found>,
    value: Num,
) -> Result<Step, ExprFault>
    ensures answer { IsAnswer (pass_asks passes found value) result }
    ensures passed { (ms : List Stamped) → PassesAreFrom ms passes → FoundIsFrom ms found → IsPassed ms result }
{
    match found {
        None => {
            let body = alone_or(alloc, "Do", passes.body.as_slice())?;
            catch(body, Ended::Do(passes, value))
        }
        Some(found) => {
            let body = alone_or(alloc, "Table", passes.body.as_slice())?;
            evaluate(body, Valued::Table(passes, found, value))
        }
    }
}

/// `Do` once its body has ended.
pub(crate) fn do_on(
    alloc: Global,
    passes: Passes,
    value: Num,
    caught: Caught<'_>,
) -> Result<Step, ExprFault>
    ensures answer { IsAnswer (do_again passes value (plain_caught caught.entry)) result }
    ensures passed { (ms : List Stamped) → PassesAreFrom ms passes → IsPassed ms result }
{
    if let Caught::Broke = caught {
        return give_null(alloc);
    }
    let next = following(&passes.span, &value);
    passes_from(alloc, passes, None, next)
}

/// `Table` once its body has a value.
pub(crate) fn table_on(
    alloc: Global,
    passes: Passes,
    found: Found,
    value: Num,
    body: &Expr,
) -> Result<Step, ExprFault>
    ensures answer { IsAnswer (table_again passes found value (plain body.now)) result }
    ensures passed { (ms : List Stamped) → PassesAreFrom ms passes → AllFrom ms found → IsFrom ms body.now → IsPassed ms result }
{
    let more = found.with(body)?;
    let next = following(&passes.span, &value);
    passes_from(alloc, passes, Some(more), next)
}
