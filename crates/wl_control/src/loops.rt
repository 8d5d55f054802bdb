//! `While` and `For`: condition, body and step in turn.
ghost use Rattle.std.specs.Prelude.{List};
ghost use Rattle.wl_control.specs.Loops.{after_condition, after_part};
ghost use Rattle.wl_control.specs.Places.{IsAnswer, IsPassed, LoopIsFrom, loop_asks, step_asks, body_asks, condition_asks, plain_caught, end_asks, EndedIsFrom};
ghost use Rattle.wl_expr.specs.Stamped.{Stamped};

use crate::iterators::do_on;
use crate::place::{Ask, Caught, Ended, Left, Loop, Place, Step};
use crate::step::{catch, give_null, is_symbol, stay};
use std::alloc::Global;
use wl_expr::ExprFault;

/// How many passes a loop may begin: 2^64, which is more than there are steps.
pub(crate) const PASSES: u128 = 18_446_744_073_709_551_616;

/// A loop from one of its passes on.
pub(crate) fn loop_from(mut state: Loop) -> Result<Step, ExprFault>
    ensures answer { IsAnswer (loop_asks state) result }
    ensures passed { (ms : List Stamped) → LoopIsFrom ms state → IsPassed ms result }
{
    if state.passes == 0 {
        return stay();
    }
    state.passes -= 1;
    Ok(Step {
        ask: Ask::Pass,
        place: Place::Leave(Left::Condition(state)),
    })
}

/// A loop at its condition.
pub(crate) fn condition_from(state: Loop) -> Result<Step, ExprFault>
    ensures answer { IsAnswer (condition_asks state) result }
    ensures passed { (ms : List Stamped) → LoopIsFrom ms state → IsPassed ms result }
{
    let condition = state.condition.copy()?;
    catch(condition, Ended::Condition(state))
}

/// A loop at its body.
fn body_from(state: Loop) -> Result<Step, ExprFault>
    ensures answer { IsAnswer (body_asks state) result }
    ensures passed { (ms : List Stamped) → LoopIsFrom ms state → IsPassed ms result }
{
    match &state.body {
        None => step_from(state),
        Some(body) => {
            let body = body.copy()?;
            catch(body, Ended::Body(state))
        }
    }
}

/// A loop at its step.
fn step_from(state: Loop) -> Result<Step, ExprFault>
    ensures answer { IsAnswer (step_asks state) result }
    ensures passed { (ms : List Stamped) → LoopIsFrom ms state → IsPassed ms result }
{
    match &state.step {
        None => loop_from(state),
        Some(step) => {
            let step = step.copy()?;
            catch(step, Ended::Step(state))
        }
    }
}

/// A loop once its condition, its body or its step has ended.
pub(crate) fn loop_on(alloc: Global, ended: Ended, caught: Caught<'_>) -> Result<Step, ExprFault>
    ensures answer { IsAnswer (end_asks ended (plain_caught caught.entry)) result }
    ensures passed { (ms : List Stamped) → EndedIsFrom ms ended → IsPassed ms result }
{
    match ended {
        Ended::Do(passes, value) => do_on(alloc, passes, value, caught),
        Ended::Condition(state) => condition_on(alloc, state, caught),
        Ended::Body(state) => match caught {
            Caught::Broke => give_null(alloc),
            Caught::Value(_) => step_from(state),
            Caught::Continued => step_from(state),
        },
        Ended::Step(state) => match caught {
            Caught::Broke => give_null(alloc),
            Caught::Value(_) => loop_from(state),
            Caught::Continued => loop_from(state),
        },
    }
}

/// A loop once its condition has ended.
fn condition_on(alloc: Global, tested: Loop, caught: Caught<'_>) -> Result<Step, ExprFault>
    ensures answer { IsAnswer (after_condition (plain_caught caught.entry) (body_asks tested) (step_asks tested)) result }
    ensures passed { (ms : List Stamped) → LoopIsFrom ms tested → IsPassed ms result }
{
    match caught {
        Caught::Broke => give_null(alloc),
        Caught::Continued => step_from(tested),
        Caught::Value(value) => {
            if is_symbol(value, "True") {
                return body_from(tested);
            }
            give_null(alloc)
        }
    }
}
