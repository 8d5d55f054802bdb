//! Nodes of parts that are new and parts that stay. Where all stay, nothing is made.
ghost use Rattle.std.specs.Prelude.{◌≡◌, ◌++◌, ◌∷◌, [], drop, IfOk, IfSome, length, List, OnOk, unwrap_or};
ghost use Rattle.wl_expr.specs.Passed.{IsFrom};
ghost use Rattle.wl_expr.specs.Stamped.{Stamped, plain};
ghost use Rattle.wl_expr.specs.Words.{applied};
ghost use Rattle.wl_shape.specs.Answers.{AllFrom, trees};
ghost use Rattle.wl_shape.specs.Renewed.{elements_or, IsRenewed};

use crate::element::node;
use std::alloc::Global;
use wl_expr::{Expr, ExprFault};
use wl_ports::Memory;

/// Adds copies of the elements behind those whose places are taken.
pub(crate) fn catch_up(all: &mut Vec<Expr>, args: &[Expr]) -> Result<(), Memory>
    ensures { OnOk result (all.new.items ≡ all.old.items ++ drop (length all.old.items) args.now) }
{
    for k in all.len()..args.len() {
        all.push(args[k].copy()?)?;
    }
    Ok(())
}

/// The new elements with those that stay behind them; None where no element is new.
pub(crate) fn renewed(all: Vec<Expr>, args: &[Expr]) -> Result<Option<Vec<Expr>>, Memory>
    ensures { IfOk result (λ o. elements_or o args.now ≡ all.items ++ drop (length all.items) args.now) }
{
    if all.len() == 0 {
        return Ok(None);
    }
    let mut all = all;
    catch_up(&mut all, args)?;
    Ok(Some(all))
}

/// The two elements, of which these are new; None where none is.
pub(crate) fn renewed_pair(
    alloc: Global,
    args: &[Expr],
    first: Option<Expr>,
    second: Option<Expr>,
) -> Result<Option<Vec<Expr>>, Memory>
    requires { length args.now ≡ 2 }
    ensures value { (a b : Stamped) → args.now ≡ a ∷ b ∷ [] → IfOk result (λ o. elements_or o args.now ≡ unwrap_or first a ∷ unwrap_or second b ∷ []) }
{
    let mut all = Vec::new(alloc);
    if let Some(first) = first {
        all.push(first)?;
    }
    if let Some(second) = second {
        catch_up(&mut all, &args[..1])?;
        all.push(second)?;
    }
    renewed(all, args)
}

/// The node of what is new and of what stays; None where all stays.
pub(crate) fn rebuilt(
    alloc: Global,
    head: &Expr,
    args: &[Expr],
    new_head: Option<Expr>,
    new_args: Option<Vec<Expr>>,
) -> Result<Option<Expr>, ExprFault>
    ensures made { IsRenewed (applied (plain head.now) (trees args.now))
        (applied (plain (unwrap_or new_head head.now)) (trees (elements_or new_args args.now))) result }
    ensures passed { (ms : List Stamped) → IsFrom ms (unwrap_or new_head head.now) → AllFrom ms (elements_or new_args args.now)
        → IfOk result (λ o. IfSome o (IsFrom ms)) }
{
    match new_args {
        Some(args) => match new_head {
            Some(head) => Ok(Some(node(alloc, &head, args.as_slice())?)),
            None => Ok(Some(node(alloc, head, args.as_slice())?)),
        },
        None => match new_head {
            Some(head) => Ok(Some(node(alloc, &head, args)?)),
            None => Ok(None),
        },
    }
}
