//! The rows before their first question, by their elements.
ghost use Rattle.std.specs.Prelude.{◌≡◌, IfOk, IfSome, List, option_map};
ghost use Rattle.wl_control.specs.Asks.{by_truth};
ghost use Rattle.wl_control.specs.Branches.{if_row, which_row, switch_row, compound_row};
ghost use Rattle.wl_control.specs.Families.{elements_of, over, select_from, select_row, scan_row, fold_row, fold_list_row, nest_row, nest_list_row, fixed_point_row};
ghost use Rattle.wl_control.specs.Kinds.{row_by};
ghost use Rattle.wl_control.specs.Iterators.{do_row, table_row};
ghost use Rattle.wl_control.specs.Loops.{while_row, for_row};
ghost use Rattle.wl_control.specs.Places.{AllFrom, RowIsFrom, junction_by, row_asks, trees};
ghost use Rattle.wl_expr.specs.Passed.{IsFrom};
ghost use Rattle.wl_expr.specs.Stamped.{Stamped, plain};
ghost use Rattle.wl_expr.specs.Words.{count_of, head_of};
ghost use Rattle.std.specs.Prelude.{[]};

use crate::found::Found;
use crate::iterations::iterated_row;
use crate::kind::Kind;
use crate::loops::PASSES;
use crate::place::{Connective, Fold, Junction, Loop, Nest, Row, Select};
use crate::step::{is_symbol, symbol};
use std::alloc::Global;
use std::collections::VecDeque;
use wl_expr::{Expr, Look};
use wl_ports::Memory;

/// The row of this kind.
pub(crate) fn row(alloc: Global, kind: Kind, args: &[Expr]) -> Result<Row, Memory>
    ensures row { IfOk result (λ r. row_asks r ≡ row_by kind (trees args.now)) }
    ensures passed { IfOk result (λ r. (ms : List Stamped) → AllFrom ms args.now → RowIsFrom ms r) }
{
    match kind {
        Kind::If => if_row(alloc, args),
        Kind::Which => which_row(alloc, args),
        Kind::Switch => switch_row(alloc, args),
        Kind::And => junction_row(alloc, Connective::And, args),
        Kind::Or => junction_row(alloc, Connective::Or, args),
        Kind::CompoundExpression => compound_row(alloc, args),
        Kind::While => while_row(alloc, args),
        Kind::For => for_row(alloc, args),
        Kind::Do => do_row(alloc, args),
        Kind::Table => table_row(alloc, args),
        Kind::Select => select_row(alloc, args),
        Kind::Scan => scan_row(alloc, args),
        Kind::Fold => fold_row(alloc, args),
        Kind::FoldList => fold_list_row(alloc, args),
        Kind::Nest => nest_row(alloc, args),
        Kind::NestList => nest_list_row(alloc, args),
        Kind::FixedPoint => fixed_point_row(alloc, args),
    }
}

/// The expressions, which it shares, first in first out.
pub(crate) fn queue(alloc: Global, args: &[Expr]) -> Result<VecDeque<Expr>, Memory>
    ensures { IfOk result (λ q. q.items ≡ args.now) }
{
    let mut queue = VecDeque::new(alloc);
    for arg in args {
        queue.push_back(arg.copy()?)?;
    }
    Ok(queue)
}

/// One of three rows, by the truth of a value.
fn by_truth(value: &Expr, at_true: Row, at_false: Row, other: Row) -> Row
    ensures row { row_asks result ≡ by_truth (plain value.now) (row_asks at_true) (row_asks at_false) (row_asks other) }
    ensures passed { (ms : List Stamped) → RowIsFrom ms at_true → RowIsFrom ms at_false → RowIsFrom ms other → RowIsFrom ms result }
{
    if is_symbol(value, "True") {
        return at_true;
    }
    if is_symbol(value, "False") {
        return at_false;
    }
    other
}

fn if_row(alloc: Global, args: &[Expr]) -> Result<Row, Memory>
    ensures row { IfOk result (λ r. row_asks r ≡ if_row (trees args.now)) }
    ensures passed { IfOk result (λ r. (ms : List Stamped) → AllFrom ms args.now → RowIsFrom ms r) }
{
    let mut args = queue(alloc, args)?;
    let Some(condition) = args.pop_front() else {
        return Ok(Row::Stays);
    };
    let Some(first) = args.pop_front() else {
        return Ok(Row::Stays);
    };
    let Some(second) = args.pop_front() else {
        let null = symbol(alloc, "Null")?;
        return Ok(by_truth(&condition, Row::Gives(first), Row::Gives(null), Row::Stays));
    };
    let Some(third) = args.pop_front() else {
        return Ok(by_truth(
            &condition,
            Row::Gives(first),
            Row::Gives(second),
            Row::Stays,
        ));
    };
    match args.pop_front() {
        None => Ok(by_truth(
            &condition,
            Row::Gives(first),
            Row::Gives(second),
            Row::Gives(third),
        )),
        Some(_) => Ok(Row::Stays),
    }
}

fn which_row(alloc: Global, args: &[Expr]) -> Result<Row, Memory>
    ensures row { IfOk result (λ r. row_asks r ≡ which_row (trees args.now)) }
    ensures passed { IfOk result (λ r. (ms : List Stamped) → AllFrom ms args.now → RowIsFrom ms r) }
{
    if args.len() == 0 {
        return Ok(Row::Stays);
    }
    if args.len() % 2 == 1 {
        return Ok(Row::Stays);
    }
    Ok(Row::Which(queue(alloc, args)?))
}

fn switch_row(alloc: Global, args: &[Expr]) -> Result<Row, Memory>
    ensures row { IfOk result (λ r. row_asks r ≡ switch_row (trees args.now)) }
    ensures passed { IfOk result (λ r. (ms : List Stamped) → AllFrom ms args.now → RowIsFrom ms r) }
{
    if args.len() < 3 {
        return Ok(Row::Stays);
    }
    if args.len() % 2 == 0 {
        return Ok(Row::Stays);
    }
    let mut rest = queue(alloc, args)?;
    match rest.pop_front() {
        Some(subject) => Ok(Row::Switch(subject, rest)),
        None => Ok(Row::Stays),
    }
}

fn junction_row(alloc: Global, connective: Connective, args: &[Expr]) -> Result<Row, Memory>
    ensures row { IfOk result (λ r. row_asks r ≡ junction_by connective [] (trees args.now)) }
    ensures passed { IfOk result (λ r. (ms : List Stamped) → AllFrom ms args.now → RowIsFrom ms r) }
{
    let rest = queue(alloc, args)?;
    Ok(Row::Junction(Junction {
        connective,
        left: Vec::new(alloc),
        rest,
    }))
}

fn compound_row(alloc: Global, args: &[Expr]) -> Result<Row, Memory>
    ensures row { IfOk result (λ r. row_asks r ≡ compound_row (trees args.now)) }
    ensures passed { IfOk result (λ r. (ms : List Stamped) → AllFrom ms args.now → RowIsFrom ms r) }
{
    let mut rest = queue(alloc, args)?;
    match rest.pop_front() {
        Some(first) => Ok(Row::Compound(first, rest)),
        None => Ok(Row::Stays),
    }
}

fn while_row(alloc: Global, args: &[Expr]) -> Result<Row, Memory>
    ensures row { IfOk result (λ r. row_asks r ≡ while_row (trees args.now)) }
    ensures passed { IfOk result (λ r. (ms : List Stamped) → AllFrom ms args.now → RowIsFrom ms r) }
{
    let mut args = queue(alloc, args)?;
    let Some(condition) = args.pop_front() else {
        return Ok(Row::Stays);
    };
    let body = args.pop_front();
    match args.pop_front() {
        Some(_) => Ok(Row::Stays),
        None => Ok(Row::While(Loop {
            condition,
            body,
            step: None,
            passes: PASSES,
        })),
    }
}

fn for_row(alloc: Global, args: &[Expr]) -> Result<Row, Memory>
    ensures row { IfOk result (λ r. row_asks r ≡ for_row (trees args.now)) }
    ensures passed { IfOk result (λ r. (ms : List Stamped) → AllFrom ms args.now → RowIsFrom ms r) }
{
    let mut args = queue(alloc, args)?;
    let Some(start) = args.pop_front() else {
        return Ok(Row::Stays);
    };
    let Some(condition) = args.pop_front() else {
        return Ok(Row::Stays);
    };
    let Some(step) = args.pop_front() else {
        return Ok(Row::Stays);
    };
    let body = args.pop_front();
    match args.pop_front() {
        Some(_) => Ok(Row::Stays),
        None => {
            let state = Loop {
                condition,
                body,
                step: Some(step),
                passes: PASSES,
            };
            Ok(Row::For(start, state))
        }
    }
}

/// The elements of a node, which it shares.
fn elements(alloc: Global, e: &Expr) -> Result<Option<VecDeque<Expr>>, Memory>
    ensures elements { IfOk result (λ q. option_map (λ q. trees q.items) q ≡ elements_of (plain e.now)) }
    ensures passed { IfOk result (λ q. IfSome q (λ q. (ms : List Stamped) → IsFrom ms e.now → AllFrom ms q.items)) }
{
    match e.view() {
        Look::Node(_, args) => Ok(Some(queue(alloc, args)?)),
        _ => Ok(None),
    }
}

fn scan_row(alloc: Global, args: &[Expr]) -> Result<Row, Memory>
    ensures row { IfOk result (λ r. row_asks r ≡ scan_row (trees args.now)) }
    ensures passed { IfOk result (λ r. (ms : List Stamped) → AllFrom ms args.now → RowIsFrom ms r) }
{
    let mut args = queue(alloc, args)?;
    let Some(function) = args.pop_front() else {
        return Ok(Row::Stays);
    };
    let Some(list) = args.pop_front() else {
        return Ok(Row::Stays);
    };
    match args.pop_front() {
        Some(_) => Ok(Row::Stays),
        None => match elements(alloc, &list)? {
            Some(rest) => Ok(Row::Scan(Fold { function, rest })),
            None => Ok(Row::Stays),
        },
    }
}

fn fold_row(alloc: Global, args: &[Expr]) -> Result<Row, Memory>
    ensures row { IfOk result (λ r. row_asks r ≡ fold_row (trees args.now)) }
    ensures passed { IfOk result (λ r. (ms : List Stamped) → AllFrom ms args.now → RowIsFrom ms r) }
{
    let mut args = queue(alloc, args)?;
    let Some(function) = args.pop_front() else {
        return Ok(Row::Stays);
    };
    let Some(first) = args.pop_front() else {
        return Ok(Row::Stays);
    };
    let Some(list) = args.pop_front() else {
        return Ok(Row::Stays);
    };
    match args.pop_front() {
        Some(_) => Ok(Row::Stays),
        None => match elements(alloc, &list)? {
            Some(rest) => Ok(Row::Fold(Fold { function, rest }, first)),
            None => Ok(Row::Stays),
        },
    }
}

fn select_row(alloc: Global, args: &[Expr]) -> Result<Row, Memory>
    ensures row { IfOk result (λ r. row_asks r ≡ select_row (trees args.now)) }
    ensures passed { IfOk result (λ r. (ms : List Stamped) → AllFrom ms args.now → RowIsFrom ms r) }
{
    let mut args = queue(alloc, args)?;
    let Some(list) = args.pop_front() else {
        return Ok(Row::Stays);
    };
    let Some(test) = args.pop_front() else {
        return Ok(Row::Stays);
    };
    match args.pop_front() {
        Some(_) => Ok(Row::Stays),
        None => selection(alloc, &list, test),
    }
}

/// The row that selects elements of this node.
fn selection(alloc: Global, list: &Expr, test: Expr) -> Result<Row, Memory>
    ensures row { IfOk result (λ r. row_asks r ≡ over (elements_of (plain list.now)) (select_from (head_of (plain list.now)) (plain test) [])) }
    ensures passed { IfOk result (λ r. (ms : List Stamped) → IsFrom ms list.now → IsFrom ms test → RowIsFrom ms r) }
{
    match list.view() {
        Look::Node(head, args) => Ok(Row::Select(Select {
            head: head.copy()?,
            test,
            selected: Vec::new(alloc),
            rest: queue(alloc, args)?,
        })),
        _ => Ok(Row::Stays),
    }
}

fn fold_list_row(alloc: Global, args: &[Expr]) -> Result<Row, Memory>
    ensures row { IfOk result (λ r. row_asks r ≡ fold_list_row (trees args.now)) }
    ensures passed { IfOk result (λ r. (ms : List Stamped) → AllFrom ms args.now → RowIsFrom ms r) }
{
    let mut args = queue(alloc, args)?;
    let Some(function) = args.pop_front() else {
        return Ok(Row::Stays);
    };
    let Some(first) = args.pop_front() else {
        return Ok(Row::Stays);
    };
    let Some(list) = args.pop_front() else {
        return Ok(Row::Stays);
    };
    match args.pop_front() {
        Some(_) => Ok(Row::Stays),
        None => match elements(alloc, &list)? {
            Some(rest) => {
                let found = Found::one(alloc, &first)?;
                Ok(Row::FoldList(Fold { function, rest }, found, first))
            }
            None => Ok(Row::Stays),
        },
    }
}

/// The integer from 0 up that an expression is.
fn count_of(e: &Expr) -> Option<u128>
    ensures { result ≡ count_of (plain e.now) }
{
    match e.view() {
        Look::Num(n) => {
            if n.den() == 1 && n.num() >= 0 {
                Some(n.num() as u128)
            } else {
                None
            }
        }
        _ => None,
    }
}

fn nest_row(alloc: Global, args: &[Expr]) -> Result<Row, Memory>
    ensures row { IfOk result (λ r. row_asks r ≡ nest_row (trees args.now)) }
    ensures passed { IfOk result (λ r. (ms : List Stamped) → AllFrom ms args.now → RowIsFrom ms r) }
{
    let mut args = queue(alloc, args)?;
    let Some(function) = args.pop_front() else {
        return Ok(Row::Stays);
    };
    let Some(first) = args.pop_front() else {
        return Ok(Row::Stays);
    };
    let Some(count) = args.pop_front() else {
        return Ok(Row::Stays);
    };
    match args.pop_front() {
        Some(_) => Ok(Row::Stays),
        None => match count_of(&count) {
            Some(passes) => Ok(Row::Nest(Nest { function, passes }, first)),
            None => Ok(Row::Stays),
        },
    }
}

fn nest_list_row(alloc: Global, args: &[Expr]) -> Result<Row, Memory>
    ensures row { IfOk result (λ r. row_asks r ≡ nest_list_row (trees args.now)) }
    ensures passed { IfOk result (λ r. (ms : List Stamped) → AllFrom ms args.now → RowIsFrom ms r) }
{
    let mut args = queue(alloc, args)?;
    let Some(function) = args.pop_front() else {
        return Ok(Row::Stays);
    };
    let Some(first) = args.pop_front() else {
        return Ok(Row::Stays);
    };
    let Some(count) = args.pop_front() else {
        return Ok(Row::Stays);
    };
    match args.pop_front() {
        Some(_) => Ok(Row::Stays),
        None => match count_of(&count) {
            Some(passes) => {
                let found = Found::one(alloc, &first)?;
                Ok(Row::NestList(Nest { function, passes }, found, first))
            }
            None => Ok(Row::Stays),
        },
    }
}

fn fixed_point_row(alloc: Global, args: &[Expr]) -> Result<Row, Memory>
    ensures row { IfOk result (λ r. row_asks r ≡ fixed_point_row (trees args.now)) }
    ensures passed { IfOk result (λ r. (ms : List Stamped) → AllFrom ms args.now → RowIsFrom ms r) }
{
    let mut args = queue(alloc, args)?;
    let Some(function) = args.pop_front() else {
        return Ok(Row::Stays);
    };
    let Some(first) = args.pop_front() else {
        return Ok(Row::Stays);
    };
    match args.pop_front() {
        Some(_) => Ok(Row::Stays),
        None => {
            let nest = Nest {
                function,
                passes: PASSES,
            };
            Ok(Row::FixedPoint(nest, first))
        }
    }
}

fn do_row(alloc: Global, args: &[Expr]) -> Result<Row, Memory>
    ensures row { IfOk result (λ r. row_asks r ≡ do_row (trees args.now)) }
    ensures passed { IfOk result (λ r. (ms : List Stamped) → AllFrom ms args.now → RowIsFrom ms r) }
{
    iterated_row(alloc, args, None)
}

fn table_row(alloc: Global, args: &[Expr]) -> Result<Row, Memory>
    ensures row { IfOk result (λ r. row_asks r ≡ table_row (trees args.now)) }
    ensures passed { IfOk result (λ r. (ms : List Stamped) → AllFrom ms args.now → RowIsFrom ms r) }
{
    iterated_row(alloc, args, Some(Found::new(alloc)))
}
