//! What is seen of an element, and how a node is made.
ghost use Rattle.std.specs.Prelude.{◌≡◌, ◌<◌, IfOk, IfSome, List, None, option_map};
ghost use Rattle.wl_expr.specs.Passed.{IsFrom};
ghost use Rattle.wl_expr.specs.Stamped.{Stamped, plain, plains, from_list, symbol as stamped_symbol};
ghost use Rattle.wl_expr.specs.Tree.{depth, depths};
ghost use Rattle.wl_expr.specs.Words.{applied, is_form, is_the};
ghost use Rattle.wl_ports.specs.Name.{IsName};
ghost use Rattle.wl_shape.specs.Answers.{AllFrom, IsMade, trees};
ghost use Rattle.wl_shape.specs.Elements.{has_head, inner, list_elements};

use std::alloc::Global;
use wl_expr::{Expr, ExprFault, Look};
use wl_ports::Memory;

/// Whether the expression is the symbol of this name.
pub(crate) fn is_symbol(e: &Expr, name: &str) -> bool
    ensures { result ≡ is_the name.now (plain e.now) }
{
    match e.view() {
        Look::Symbol(s) => name == s,
        _ => false,
    }
}

/// Whether the expression is a node whose head is the symbol of this name.
pub(crate) fn is_form(e: &Expr, name: &str) -> bool
    ensures { result ≡ is_form name.now (plain e.now) }
{
    match e.view() {
        Look::Node(head, _) => is_symbol(head, name),
        _ => false,
    }
}

/// Whether the expression is a node with this head.
pub(crate) fn has_head(head: &Expr, e: &Expr) -> bool
    ensures { result ≡ has_head (plain head.now) (plain e.now) }
{
    match e.view() {
        Look::Node(other, _) => head == other,
        _ => false,
    }
}

/// The elements of a node with this head.
#[tactic(auto, using(wl_expr::proofs::Parts::to_list_plains, wl_expr::proofs::Passing::args_from))]
pub(crate) fn inner<'a>(head: &Expr, e: &'a Expr) -> Option<&'a [Expr]>
    ensures value { option_map (λ ts. trees ts.now) result ≡ inner (plain head.now) (plain e.now) }
    ensures passed { (ms : List Stamped) → IsFrom ms e.now → IfSome result (λ ts. AllFrom ms ts.now) }
    ensures falls { IfSome result (λ ts. depths (plains (from_list ts.now)) < depth (plain e.now)) }
{
    match e.view() {
        Look::Node(other, elements) if head == other => Some(elements),
        _ => None,
    }
}

/// The elements of a list.
#[tactic(auto, using(wl_expr::proofs::Parts::to_list_plains))]
pub(crate) fn list_elements(e: &Expr) -> Option<&[Expr]>
    ensures value { option_map (λ ts. trees ts.now) result ≡ list_elements (plain e.now) }
    ensures passed { (ms : List Stamped) → IsFrom ms e.now → IfSome result (λ ts. AllFrom ms ts.now) }
{
    match e.view() {
        Look::Node(head, elements) if is_symbol(head, "List") => Some(elements),
        _ => None,
    }
}

/// The symbol of a short name.
pub(crate) fn symbol(alloc: Global, name: &str) -> Result<Expr, Memory>
    requires { IsName name.now }
    ensures { IfOk result (λ e. e ≡ stamped_symbol None name.now) }
{
    match Expr::symbol(alloc, name) {
        Ok(symbol) => Ok(symbol),
        Err(_) => Err(Memory),
    }
}

/// The node of this head and these elements.
pub(crate) fn node(alloc: Global, head: &Expr, elements: &[Expr]) -> Result<Expr, ExprFault>
    ensures made { IsMade (applied (plain head.now) (trees elements.now)) result }
    ensures passed { (ms : List Stamped) → IsFrom ms head.now → AllFrom ms elements.now → IfOk result (IsFrom ms) }
{
    Expr::node(alloc, head, elements)
}
