//! `And`, `Or` and `CompoundExpression`: elements in turn.
ghost use Rattle.std.specs.Prelude.{List, ◌∷◌};
ghost use Rattle.wl_control.specs.Asks.{gives};
ghost use Rattle.wl_control.specs.Branches.{compound_row, joined, left_over};
ghost use Rattle.wl_control.specs.Places.{IsAnswer, IsPassed, AllFrom, JunctionIsFrom, trees, junction_asks, junction_by, joined_by, left_by};
ghost use Rattle.wl_expr.specs.Passed.{IsFrom};
ghost use Rattle.wl_expr.specs.Stamped.{Stamped, plain};
ghost use Rattle.wl_ports.specs.Name.{IsName};

use crate::place::{Connective, Junction, Step, Valued};
use crate::step::{alone_or, evaluate, give, give_symbol, is_symbol, one_more};
use std::alloc::Global;
use std::collections::VecDeque;
use wl_expr::{Expr, ExprFault};

/// `And` or `Or` from one of its elements on.
pub(crate) fn junction_from(alloc: Global, junction: Junction) -> Result<Step, ExprFault>
    ensures answer { IsAnswer (junction_asks junction) result }
    ensures passed { (ms : List Stamped) → JunctionIsFrom ms junction → IsPassed ms result }
{
    let Junction {
        connective,
        left,
        mut rest,
    } = junction;
    match rest.pop_front() {
        Some(element) => {
            let then = Junction {
                connective,
                left,
                rest,
            };
            evaluate(element, Valued::Junction(then))
        }
        None => left_over(alloc, connective, left.as_slice()),
    }
}

/// What the elements that are left stand for.
fn left_over(alloc: Global, connective: Connective, left: &[Expr]) -> Result<Step, ExprFault>
    ensures answer { IsAnswer (gives (left_by connective (trees left.now))) result }
    ensures passed { (ms : List Stamped) → AllFrom ms left.now → IsPassed ms result }
{
    match connective {
        Connective::And => joined(alloc, "And", "True", left),
        Connective::Or => joined(alloc, "Or", "False", left),
    }
}

/// These elements under the head of this name, where one is alone as itself, and none is the symbol of the other name.
fn joined(alloc: Global, name: &str, skip: &str, left: &[Expr]) -> Result<Step, ExprFault>
    requires name { IsName name.now }
    requires skip { IsName skip.now }
    ensures answer { IsAnswer (gives (left_over name.now skip.now (trees left.now))) result }
    ensures passed { (ms : List Stamped) → AllFrom ms left.now → IsPassed ms result }
{
    if left.len() == 0 {
        return give_symbol(alloc, skip);
    }
    give(alone_or(alloc, name, left)?)
}

/// `And` or `Or` once an element has a value.
pub(crate) fn junction_on(
    alloc: Global,
    junction: Junction,
    value: &Expr,
) -> Result<Step, ExprFault>
    ensures answer { IsAnswer (joined_by junction.connective (trees junction.left.items) (trees junction.rest.items) (plain value.now)) result }
    ensures passed { (ms : List Stamped) → JunctionIsFrom ms junction → IsFrom ms value.now → IsPassed ms result }
{
    match junction.connective {
        Connective::And => joined_on(alloc, junction, "False", "True", value),
        Connective::Or => joined_on(alloc, junction, "True", "False", value),
    }
}

/// `And` or `Or` once an element has a value, by the names of the symbols that end it and that vanish.
fn joined_on(
    alloc: Global,
    junction: Junction,
    end: &str,
    skip: &str,
    value: &Expr,
) -> Result<Step, ExprFault>
    requires { IsName end.now }
    ensures answer { IsAnswer (joined end.now skip.now (trees junction.left.items) (plain value.now)
        (λ more. junction_by junction.connective more (trees junction.rest.items))) result }
    ensures passed { (ms : List Stamped) → JunctionIsFrom ms junction → IsFrom ms value.now → IsPassed ms result }
{
    if is_symbol(value, end) {
        return give_symbol(alloc, end);
    }
    if is_symbol(value, skip) {
        return junction_from(alloc, junction);
    }
    let Junction {
        connective,
        left,
        rest,
    } = junction;
    let left = one_more(left, value)?;
    let next = Junction {
        connective,
        left,
        rest,
    };
    junction_from(alloc, next)
}

/// `CompoundExpression` from one of its elements on.
pub(crate) fn compound_from(first: Expr, mut rest: VecDeque<Expr>) -> Result<Step, ExprFault>
    ensures answer { IsAnswer (compound_row (plain first ∷ trees rest.items)) result }
    ensures passed { (ms : List Stamped) → IsFrom ms first → AllFrom ms rest.items → IsPassed ms result }
{
    match rest.pop_front() {
        Some(second) => evaluate(first, Valued::Compound(second, rest)),
        None => give(first),
    }
}
