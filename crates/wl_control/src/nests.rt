//! `Nest`, `NestList` and `FixedPoint`: a function that is applied again and again.
ghost use Rattle.std.specs.Prelude.{List};
ghost use Rattle.wl_control.specs.Families.{nest_from, nest_list_from, fixed_point_from};
ghost use Rattle.wl_control.specs.Places.{IsAnswer, IsPassed, AllFrom, trees, value_asks};
ghost use Rattle.wl_control.specs.declared.place.Valued.TheVariants as valued;
ghost use Rattle.wl_expr.specs.Passed.{IsFrom};
ghost use Rattle.wl_expr.specs.Stamped.{Stamped, plain};

use crate::families::begin_call;
use crate::found::Found;
use crate::place::{Call, Nest, Step, Valued};
use crate::step::{give, give_list, one_more, stay};
use std::alloc::Global;
use wl_expr::{Expr, ExprFault};

/// `Nest` from one of its passes on, with the value so far.
pub(crate) fn nest_from(alloc: Global, nest: Nest, value: Expr) -> Result<Step, ExprFault>
    ensures answer { IsAnswer (nest_from (plain nest.function) (plain value) nest.passes) result }
    ensures passed { (ms : List Stamped) → IsFrom ms nest.function → IsFrom ms value → IsPassed ms result }
{
    let Nest { function, passes } = nest;
    if passes == 0 {
        return give(value);
    }
    let call = Call {
        function: function.copy()?,
        args: one_more(Vec::new(alloc), &value)?,
    };
    let next = Nest {
        function,
        passes: passes - 1,
    };
    begin_call(call, Valued::Nest(next))
}

/// `NestList` from one of its passes on, with the value so far.
pub(crate) fn nest_list_from(
    alloc: Global,
    nest: Nest,
    found: Found,
    value: &Expr,
) -> Result<Step, ExprFault>
    ensures answer { IsAnswer (nest_list_from (plain nest.function) (trees found) (plain value.now) nest.passes) result }
    ensures passed { (ms : List Stamped) → IsFrom ms nest.function → AllFrom ms found → IsFrom ms value.now → IsPassed ms result }
{
    let Nest { function, passes } = nest;
    if passes == 0 {
        return give_list(alloc, found.values());
    }
    let call = Call {
        function: function.copy()?,
        args: one_more(Vec::new(alloc), value)?,
    };
    let next = Nest {
        function,
        passes: passes - 1,
    };
    begin_call(call, Valued::NestList(next, found))
}

/// `NestList` once a call has a value.
pub(crate) fn nest_list_on(
    alloc: Global,
    nest: Nest,
    found: Found,
    value: &Expr,
) -> Result<Step, ExprFault>
    ensures answer { IsAnswer (value_asks (valued.NestList nest found) (plain value.now)) result }
    ensures passed { (ms : List Stamped) → IsFrom ms nest.function → AllFrom ms found → IsFrom ms value.now → IsPassed ms result }
{
    let more = found.with(value)?;
    nest_list_from(alloc, nest, more, value)
}

/// `FixedPoint` from one of its passes on, with the value so far.
pub(crate) fn fixed_point_from(alloc: Global, nest: Nest, value: Expr) -> Result<Step, ExprFault>
    ensures answer { IsAnswer (fixed_point_from nest.passes (plain nest.function) (plain value)) result }
    ensures passed { (ms : List Stamped) → IsFrom ms nest.function → IsFrom ms value → IsPassed ms result }
{
    let Nest { function, passes } = nest;
    if passes == 0 {
        return stay();
    }
    let call = Call {
        function: function.copy()?,
        args: one_more(Vec::new(alloc), &value)?,
    };
    let next = Nest {
        function,
        passes: passes - 1,
    };
    begin_call(call, Valued::FixedPoint(next, value))
}

/// `FixedPoint` once a call has a value.
pub(crate) fn fixed_point_on(
    alloc: Global,
    nest: Nest,
    before: Expr,
    value: &Expr,
) -> Result<Step, ExprFault>
    ensures answer { IsAnswer (value_asks (valued.FixedPoint nest before) (plain value.now)) result }
    ensures passed { (ms : List Stamped) → IsFrom ms nest.function → IsFrom ms before → IsFrom ms value.now → IsPassed ms result }
{
    if value.same(&before) {
        return give(before);
    }
    fixed_point_from(alloc, nest, value.copy()?)
}
