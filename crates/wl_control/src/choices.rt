//! `Which` and `Switch`: conditions and patterns in turn.
ghost use Rattle.std.specs.Prelude.{◌≡◌, List};
ghost use Rattle.wl_control.specs.Asks.{matches};
ghost use Rattle.wl_control.specs.Branches.{which_from, switch_from};
ghost use Rattle.wl_control.specs.Places.{IsAnswer, IsPassed, AllFrom, SwitchIsFrom, trees, value_asks, switch_asks};
ghost use Rattle.wl_control.specs.declared.place.Valued.TheVariants as valued;
ghost use Rattle.wl_expr.specs.Passed.{IsFrom};
ghost use Rattle.wl_expr.specs.Stamped.{Stamped, plain};

use crate::place::{Ask, Place, Step, Switch, Valued};
use crate::step::{evaluate, give, give_null, is_symbol, stay};
use std::alloc::Global;
use std::collections::VecDeque;
use wl_expr::{Expr, ExprFault};

/// `Which` from one of its conditions on.
pub(crate) fn which_from(alloc: Global, mut rest: VecDeque<Expr>) -> Result<Step, ExprFault>
    ensures answer { IsAnswer (which_from (trees rest.items)) result }
    ensures passed { (ms : List Stamped) → AllFrom ms rest.items → IsPassed ms result }
{
    let Some(condition) = rest.pop_front() else {
        return give_null(alloc);
    };
    let Some(chosen) = rest.pop_front() else {
        return stay();
    };
    evaluate(condition, Valued::Which(chosen, rest))
}

/// `Which` once a condition has a value.
pub(crate) fn which_on(
    alloc: Global,
    chosen: Expr,
    rest: VecDeque<Expr>,
    value: &Expr,
) -> Result<Step, ExprFault>
    ensures answer { IsAnswer (value_asks (valued.Which chosen rest) (plain value.now)) result }
    ensures passed { (ms : List Stamped) → IsFrom ms chosen → AllFrom ms rest.items → IsPassed ms result }
{
    if is_symbol(value, "True") {
        return give(chosen);
    }
    if is_symbol(value, "False") {
        return which_from(alloc, rest);
    }
    stay()
}

/// `Switch` from one of its patterns on.
pub(crate) fn switch_from(subject: Expr, mut rest: VecDeque<Expr>) -> Result<Step, ExprFault>
    ensures answer { IsAnswer (switch_from (plain subject) (trees rest.items)) result }
    ensures passed { (ms : List Stamped) → IsFrom ms subject → AllFrom ms rest.items → IsPassed ms result }
{
    let Some(pattern) = rest.pop_front() else {
        return stay();
    };
    let Some(chosen) = rest.pop_front() else {
        return stay();
    };
    evaluate(
        pattern,
        Valued::Switch(Switch {
            subject,
            chosen,
            rest,
        }),
    )
}

/// `Switch` once a pattern has a value: asks whether it matches.
pub(crate) fn switch_on(switch: Switch, pattern: &Expr) -> Result<Step, ExprFault>
    ensures answer { IsAnswer (matches (plain switch.subject) (plain pattern.now) (switch_asks switch)) result }
    ensures passed { (ms : List Stamped) → SwitchIsFrom ms switch → IsFrom ms pattern.now → IsPassed ms result }
{
    let ask = Ask::Matches(switch.subject.copy()?, pattern.copy()?);
    Ok(Step {
        ask,
        place: Place::Match(switch),
    })
}

/// `Switch` once it is known whether its pattern matches.
pub(crate) fn switch_matched(switch: Switch, matched: bool) -> Result<Step, ExprFault>
    ensures answer { IsAnswer (switch_asks switch matched) result }
    ensures passed { (ms : List Stamped) → SwitchIsFrom ms switch → IsPassed ms result }
{
    let Switch {
        subject,
        chosen,
        rest,
    } = switch;
    if matched {
        return give(chosen);
    }
    switch_from(subject, rest)
}
