//! The cursor: where a row stands between its questions.
ghost use Rattle.std.specs.Prelude.{◌≡◌, ◌↔◌, IsTrue, IfOk, IfSome, OnErr, List, Some, option_map};
ghost use Rattle.wl_control.specs.Cursors.{stand, HoldsFrom, IsHeldFrom};
ghost use Rattle.wl_control.specs.Places.{plain_ask, told, trees, AllFrom, AskIsFrom, LastIsFrom, stand_at, PlaceIsFrom, IsAnswer, IsPassed, row_asks, RowIsFrom, left_asks, LeftIsFrom, value_asks, ValuedIsFrom};
ghost use Rattle.wl_control.specs.Stand.{Catches, start, starts, over, asked, behind, after, IsAskedBy, IsAwaited, IsTooLarge};
ghost use Rattle.wl_control.specs.Table.{row_of};
ghost use Rattle.wl_expr.specs.Passed.{IsFrom};
ghost use Rattle.wl_expr.specs.Stamped.{Stamped, plain};

use crate::choices::{switch_from, switch_matched, switch_on, which_from, which_on};
use crate::families::{
    call_from, fold_from, fold_list_from, fold_list_on, scan_from, select_from, select_on,
};
use crate::iterators::{bound_on, bounds_from, do_on, pass_from, table_on, value_from};
use crate::junction::{compound_from, junction_from, junction_on};
use crate::kind::kind_of;
use crate::loops::{condition_from, loop_from, loop_on};
use crate::nests::{fixed_point_from, fixed_point_on, nest_from, nest_list_from, nest_list_on};
use crate::place::{Ask, Caught, Last, Left, Place, Row, Step, Valued};
use crate::rows::row;
use crate::step::{evaluate, give, stay};
use std::alloc::Global;
use std::mem;
use wl_expr::{Expr, ExprFault};
use wl_ports::Memory;

/// A row of loops and branches, and how far it has come.
#[derive(Drop)]
pub struct Cursor {
    alloc: Global,
    place: Place,
}

impl Cursor {
    /// The row of this name over these elements, before its first question; None for a name that has no row.
    pub fn start(alloc: Global, name: &str, args: &[Expr]) -> Result<Option<Cursor>, Memory>
        ensures row { IfOk result (λ c. option_map stand c ≡ option_map (λ row. starts (row (trees args.now))) (row_of name.now)) }
        ensures awaits { IfOk result (λ c. IfSome c (λ c. IsAwaited (stand c) start)) }
        ensures passed { IfOk result (λ c. (ms : List Stamped) → AllFrom ms args.now → HoldsFrom ms c) }
    {
        let Some(kind) = kind_of(name) else {
            return Ok(None);
        };
        let place = Place::Start(row(alloc, kind, args)?);
        Ok(Some(Cursor { alloc, place }))
    }

    /// Whether Break and Continue answer the evaluation that it asked for.
    pub fn catches(&self) -> bool
        ensures { IsTrue result ↔ Catches (stand self.now) }
    {
        match self.place {
            Place::End(_) => true,
            _ => false,
        }
    }

    /// What the row asks once it has this answer. Behind a refusal, and behind the end of the row, it asks nothing more.
    pub fn next(&mut self, last: Last<'_>) -> Result<Ask, ExprFault>
        requires { IsAwaited (stand self.old) (told last) }
        ensures asks { IfOk result (λ q. asked (after (stand self.old) (told last.entry)) ≡ Some (plain_ask q)) }
        ensures behind { IfOk result (λ _. stand self.new ≡ behind (after (stand self.old) (told last.entry))) }
        ensures fits { IfOk result (λ _. ¬ IsTooLarge (after (stand self.old) (told last.entry))) }
        ensures large { result ≡ Err ExprFault.Large → IsTooLarge (after (stand self.old) (told last.entry)) }
        ensures awaits { IfOk result (λ q. IsAskedBy (plain_ask q) (stand self.new)) }
        ensures refused { OnErr result (stand self.new ≡ over) }
        ensures passed { (ms : List Stamped) → IsHeldFrom ms self.old → LastIsFrom ms last.entry
            → IfOk result (λ q. AskIsFrom ms q × IsHeldFrom ms self.new) }
    {
        let place = mem::replace(&mut self.place, Place::Over);
        let step = answered(self.alloc, place, last)?;
        self.place = step.place;
        Ok(step.ask)
    }
}

/// What comes once this answer has come at this place.
fn answered(alloc: Global, place: Place, last: Last<'_>) -> Result<Step, ExprFault>
    requires { IsAwaited (stand_at place) (told last) }
    ensures answer { IsAnswer (after (stand_at place) (told last.entry)) result }
    ensures passed { (ms : List Stamped) → PlaceIsFrom ms place → LastIsFrom ms last.entry → IsPassed ms result }
{
    match place {
        Place::Start(row) => match last {
            Last::Start => row_from(alloc, row),
            _ => stay(),
        },
        Place::Value(valued) => match last {
            Last::Value(value) => value_on(alloc, valued, value),
            _ => stay(),
        },
        Place::End(ended) => match last {
            Last::Value(value) => loop_on(alloc, ended, Caught::Value(value)),
            Last::Broke => loop_on(alloc, ended, Caught::Broke),
            Last::Continued => loop_on(alloc, ended, Caught::Continued),
            _ => stay(),
        },
        Place::Leave(left) => match last {
            Last::Went => left_from(alloc, left),
            _ => stay(),
        },
        Place::Match(switch) => match last {
            Last::Matched(matched) => switch_matched(switch, matched),
            _ => stay(),
        },
        Place::Over => stay(),
    }
}

/// What comes once a pass has begun.
fn left_from(alloc: Global, left: Left) -> Result<Step, ExprFault>
    ensures answer { IsAnswer (left_asks left) result }
    ensures passed { (ms : List Stamped) → LeftIsFrom ms left → IsPassed ms result }
{
    match left {
        Left::Condition(state) => condition_from(state),
        Left::Call(call, then) => call_from(alloc, call, then),
        Left::Iterate(passes, found, value) => value_from(alloc, passes, found, value),
        Left::Set(passes, found, value) => pass_from(alloc, passes, found, value),
    }
}

/// What a row asks first.
fn row_from(alloc: Global, row: Row) -> Result<Step, ExprFault>
    ensures answer { IsAnswer (row_asks row) result }
    ensures passed { (ms : List Stamped) → RowIsFrom ms row → IsPassed ms result }
{
    match row {
        Row::Stays => stay(),
        Row::Gives(e) => give(e),
        Row::Which(rest) => which_from(alloc, rest),
        Row::Switch(subject, rest) => switch_from(subject, rest),
        Row::Junction(junction) => junction_from(alloc, junction),
        Row::Compound(first, rest) => compound_from(first, rest),
        Row::While(state) => loop_from(state),
        Row::For(start, state) => evaluate(start, Valued::For(state)),
        Row::Iterate(bounds) => bounds_from(alloc, bounds),
        Row::Select(select) => select_from(alloc, select),
        Row::Scan(fold) => scan_from(alloc, fold),
        Row::Fold(fold, value) => fold_from(alloc, fold, value),
        Row::FoldList(fold, found, value) => fold_list_from(alloc, fold, found, &value),
        Row::Nest(nest, value) => nest_from(alloc, nest, value),
        Row::NestList(nest, found, value) => nest_list_from(alloc, nest, found, &value),
        Row::FixedPoint(nest, value) => fixed_point_from(alloc, nest, value),
    }
}

/// What comes once a value has come.
fn value_on(alloc: Global, valued: Valued, value: &Expr) -> Result<Step, ExprFault>
    ensures answer { IsAnswer (value_asks valued (plain value.now)) result }
    ensures passed { (ms : List Stamped) → ValuedIsFrom ms valued → IsFrom ms value.now → IsPassed ms result }
{
    match valued {
        Valued::Which(chosen, rest) => which_on(alloc, chosen, rest, value),
        Valued::Switch(switch) => switch_on(switch, value),
        Valued::Junction(junction) => junction_on(alloc, junction, value),
        Valued::Compound(first, rest) => compound_from(first, rest),
        Valued::For(state) => loop_from(state),
        Valued::Bound(bounds) => bound_on(alloc, bounds, value),
        Valued::Table(passes, found, number) => table_on(alloc, passes, found, number, value),
        Valued::Select(select, element) => select_on(alloc, select, &element, value),
        Valued::Scan(fold) => scan_from(alloc, fold),
        Valued::Fold(fold) => fold_from(alloc, fold, value.copy()?),
        Valued::FoldList(fold, found) => fold_list_on(alloc, fold, found, value),
        Valued::Nest(nest) => nest_from(alloc, nest, value.copy()?),
        Valued::NestList(nest, found) => nest_list_on(alloc, nest, found, value),
        Valued::FixedPoint(nest, before) => fixed_point_on(alloc, nest, before, value),
    }
}
