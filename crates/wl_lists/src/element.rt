//! What a row sees of an element.
ghost use Rattle.std.specs.Prelude.{◌≡◌, IfSome, List, option_map};
ghost use Rattle.wl_expr.specs.Passed.{IsFrom};
ghost use Rattle.wl_expr.specs.Stamped.{Stamped, plain};
ghost use Rattle.wl_expr.specs.Words.{int_of, is_the};
ghost use Rattle.wl_lists.specs.Answers.{AllFrom, number_of, trees};
ghost use Rattle.wl_lists.specs.Nodes.{is_level_one, list_elements, node_of};

use wl_exact::Num;
use wl_expr::{Expr, Look};

/// The number that the expression is.
pub(crate) fn number(e: &Expr) -> Option<Num>
    ensures { result ≡ number_of (plain e.now) }
{
    match e.view() {
        Look::Num(n) => Some(n),
        _ => None,
    }
}

/// The integer that the expression is.
pub(crate) fn integer(e: &Expr) -> Option<i128>
    ensures { result ≡ int_of (plain e.now) }
{
    let n = number(e)?;
    if n.den() == 1 { Some(n.num()) } else { None }
}

/// Whether the expression is the symbol of this name.
pub(crate) fn is_symbol(e: &Expr, name: &str) -> bool
    ensures { result ≡ is_the name.now (plain e.now) }
{
    match e.view() {
        Look::Symbol(s) => name == s,
        _ => false,
    }
}

/// The head and the elements of a node.
#[tactic(auto, using(wl_expr::proofs::Parts::to_list_plains))]
pub(crate) fn parts(e: &Expr) -> Option<(&Expr, &[Expr])>
    ensures value { option_map (λ p. (plain p.0.now, trees p.1.now)) result ≡ node_of (plain e.now) }
    ensures passed { (ms : List Stamped) → IsFrom ms e.now
        → IfSome result (λ p. IsFrom ms p.0.now × AllFrom ms p.1.now) }
{
    match e.view() {
        Look::Node(head, elements) => Some((head, elements)),
        _ => None,
    }
}

/// The elements of a list.
#[tactic(auto, using(wl_expr::proofs::Parts::to_list_plains))]
pub(crate) fn list_elements(e: &Expr) -> Option<&[Expr]>
    ensures value { option_map (λ ts. trees ts.now) result ≡ list_elements (plain e.now) }
    ensures passed { (ms : List Stamped) → IsFrom ms e.now → IfSome result (λ ts. AllFrom ms ts.now) }
{
    match e.view() {
        Look::Node(head, elements) if is_symbol(head, "List") => Some(elements),
        _ => None,
    }
}

/// Whether the expression is `{1}`.
pub(crate) fn is_level_one(e: &Expr) -> bool
    ensures { result ≡ is_level_one (plain e.now) }
{
    match list_elements(e) {
        Some([only]) => integer(only) == Some(1),
        _ => false,
    }
}
