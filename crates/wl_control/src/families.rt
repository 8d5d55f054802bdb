//! `Select`, `Scan`, `Fold` and `FoldList`: a function over elements in turn.
ghost use Rattle.std.specs.Prelude.{List};
ghost use Rattle.wl_control.specs.Asks.{pass};
ghost use Rattle.wl_control.specs.Families.{select_from, scan_from, fold_from, fold_list_from};
ghost use Rattle.wl_control.specs.Places.{IsAnswer, IsPassed, AllFrom, CallIsFrom, FoldIsFrom, SelectIsFrom, ValuedIsFrom, call_asks, selected_asks, trees, value_asks};
ghost use Rattle.wl_control.specs.declared.place.Valued.TheVariants as valued;
ghost use Rattle.wl_expr.specs.Passed.{IsFrom};
ghost use Rattle.wl_expr.specs.Stamped.{Stamped, plain};

use crate::found::Found;
use crate::place::{Ask, Call, Fold, Left, Place, Select, Step, Valued};
use crate::step::{evaluate, give, give_list, give_null, is_symbol, node, one_more};
use std::alloc::Global;
use wl_expr::{Expr, ExprFault};

/// Begins a pass that evaluates a call.
pub(crate) fn begin_call(call: Call, then: Valued) -> Result<Step, ExprFault>
    ensures answer { IsAnswer (pass (λ _. call_asks call then)) result }
    ensures passed { (ms : List Stamped) → CallIsFrom ms call → ValuedIsFrom ms then → IsPassed ms result }
{
    Ok(Step {
        ask: Ask::Pass,
        place: Place::Leave(Left::Call(call, then)),
    })
}

/// Asks for the value of a call.
pub(crate) fn call_from(alloc: Global, call: Call, then: Valued) -> Result<Step, ExprFault>
    ensures answer { IsAnswer (call_asks call then) result }
    ensures passed { (ms : List Stamped) → CallIsFrom ms call → ValuedIsFrom ms then → IsPassed ms result }
{
    let made = node(alloc, &call.function, call.args.as_slice())?;
    evaluate(made, then)
}

/// `Select` from one of its elements on.
pub(crate) fn select_from(alloc: Global, select: Select) -> Result<Step, ExprFault>
    ensures answer { IsAnswer (select_from (plain select.head) (plain select.test) (trees select.selected.items) (trees select.rest.items)) result }
    ensures passed { (ms : List Stamped) → SelectIsFrom ms select → IsPassed ms result }
{
    let Select {
        head,
        test,
        selected,
        mut rest,
    } = select;
    let Some(element) = rest.pop_front() else {
        return give(node(alloc, &head, selected.as_slice())?);
    };
    let call = Call {
        function: test.copy()?,
        args: one_more(Vec::new(alloc), &element)?,
    };
    let next = Select {
        head,
        test,
        selected,
        rest,
    };
    begin_call(call, Valued::Select(next, element))
}

/// `Select` once the test of an element has a value.
pub(crate) fn select_on(
    alloc: Global,
    select: Select,
    element: &Expr,
    value: &Expr,
) -> Result<Step, ExprFault>
    ensures answer { IsAnswer (selected_asks select (plain element.now) (plain value.now)) result }
    ensures passed { (ms : List Stamped) → SelectIsFrom ms select → IsFrom ms element.now → IsPassed ms result }
{
    if !is_symbol(value, "True") {
        return select_from(alloc, select);
    }
    let Select {
        head,
        test,
        selected,
        rest,
    } = select;
    let selected = one_more(selected, element)?;
    let next = Select {
        head,
        test,
        selected,
        rest,
    };
    select_from(alloc, next)
}

/// `Scan` from one of its elements on.
pub(crate) fn scan_from(alloc: Global, fold: Fold) -> Result<Step, ExprFault>
    ensures answer { IsAnswer (scan_from (plain fold.function) (trees fold.rest.items)) result }
    ensures passed { (ms : List Stamped) → FoldIsFrom ms fold → IsPassed ms result }
{
    let Fold { function, mut rest } = fold;
    let Some(element) = rest.pop_front() else {
        return give_null(alloc);
    };
    let call = Call {
        function: function.copy()?,
        args: one_more(Vec::new(alloc), &element)?,
    };
    begin_call(call, Valued::Scan(Fold { function, rest }))
}

/// `Fold` from one of its elements on, with the value so far.
pub(crate) fn fold_from(alloc: Global, fold: Fold, value: Expr) -> Result<Step, ExprFault>
    ensures answer { IsAnswer (fold_from (plain fold.function) (plain value) (trees fold.rest.items)) result }
    ensures passed { (ms : List Stamped) → FoldIsFrom ms fold → IsFrom ms value → IsPassed ms result }
{
    let Fold { function, mut rest } = fold;
    let Some(element) = rest.pop_front() else {
        return give(value);
    };
    let values = one_more(Vec::new(alloc), &value)?;
    let call = Call {
        function: function.copy()?,
        args: one_more(values, &element)?,
    };
    begin_call(call, Valued::Fold(Fold { function, rest }))
}

/// `FoldList` from one of its elements on, with the value so far.
pub(crate) fn fold_list_from(
    alloc: Global,
    fold: Fold,
    found: Found,
    value: &Expr,
) -> Result<Step, ExprFault>
    ensures answer { IsAnswer (fold_list_from (plain fold.function) (trees found) (plain value.now) (trees fold.rest.items)) result }
    ensures passed { (ms : List Stamped) → FoldIsFrom ms fold → AllFrom ms found → IsFrom ms value.now → IsPassed ms result }
{
    let Fold { function, mut rest } = fold;
    let Some(element) = rest.pop_front() else {
        return give_list(alloc, found.values());
    };
    let values = one_more(Vec::new(alloc), value)?;
    let call = Call {
        function: function.copy()?,
        args: one_more(values, &element)?,
    };
    begin_call(call, Valued::FoldList(Fold { function, rest }, found))
}

/// `FoldList` once a call has a value.
pub(crate) fn fold_list_on(
    alloc: Global,
    fold: Fold,
    found: Found,
    value: &Expr,
) -> Result<Step, ExprFault>
    ensures answer { IsAnswer (value_asks (valued.FoldList fold found) (plain value.now)) result }
    ensures passed { (ms : List Stamped) → FoldIsFrom ms fold → AllFrom ms found → IsFrom ms value.now → IsPassed ms result }
{
    let more = found.with(value)?;
    fold_list_from(alloc, fold, more, value)
}
