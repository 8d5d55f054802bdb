//! Matches: MatchQ, MemberQ, Count, Cases, DeleteCases and FreeQ.
ghost use Rattle.std.specs.Prelude.{◌≡◌, IfOk, [], List};
ghost use Rattle.std.specs.List.{All};
ghost use Rattle.wl_expr.specs.Passed.{IsFrom};
ghost use Rattle.wl_expr.specs.Stamped.{Stamped, num, plain};
ghost use Rattle.wl_expr.specs.Words.{elements, natural};
ghost use Rattle.wl_state.specs.Played.{trees};
ghost use Rattle.wl_state.specs.Replacing.{agrees, truth_symbol};

use crate::operands::symbol;
use std::alloc::Global;
use wl_exact::Num;
use wl_expr::{Expr, Look};
use wl_ports::Memory;

/// The symbol True or False.
pub fn truth(alloc: Global, holds: bool) -> Result<Expr, Memory>
    ensures { IfOk result (λ e. e ≡ truth_symbol holds) }
{
    if holds {
        return symbol(alloc, "True");
    }
    symbol(alloc, "False")
}

/// A count as an expression.
pub fn natural(alloc: Global, count: usize) -> Result<Expr, Memory>
    ensures { IfOk result (λ e. plain e ≡ natural count) }
{
    let Some(number) = Num::int(i128::from(count as u64)) else {
        unreachable!()
    };
    Expr::num(alloc, number)
}

/// Whether an element that matches, or doesn't, is one that is wanted.
pub fn agrees(wanted: bool, matches: bool) -> bool
    ensures { result ≡ agrees wanted matches }
{
    if wanted { matches } else { !matches }
}

/// The elements of a node; an atom has none.
pub fn elements(e: &Expr) -> &[Expr]
    ensures value { trees result.now ≡ elements (plain e.now) }
    ensures passed { (ms : List Stamped) → IsFrom ms e.now → All (IsFrom ms) result.now }
{
    match e.view() {
        Look::Node(_, args) => args,
        _ => &[],
    }
}
