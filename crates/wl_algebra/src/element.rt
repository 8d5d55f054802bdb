//! What a row sees of an element.
ghost use Rattle.std.specs.Prelude.{◌≡◌, IfSome, option_map};
ghost use Rattle.wl_algebra.specs.Answers.{number_of};
ghost use Rattle.wl_expr.specs.Same.{same};
ghost use Rattle.wl_expr.specs.Stamped.{plain};
ghost use Rattle.wl_expr.specs.Words.{int_of, is_int, is_list, is_node, is_number, is_text, is_the};

use wl_exact::Num;
use wl_expr::{Expr, Look};

/// The number that the expression is.
pub(crate) fn number(e: &Expr) -> Option<Num>
    ensures { result ≡ number_of (plain e.now) }
{
    match e.view() {
        Look::Num(n) => Some(n),
        _ => None,
    }
}

/// The integer that the expression is.
pub(crate) fn integer(e: &Expr) -> Option<Num>
    ensures value { option_map (λ n. n.num) result ≡ int_of (plain e.now) }
    ensures whole { IfSome result (λ n. n.den ≡ 1) }
{
    let n = number(e)?;
    if n.den() == 1 { Some(n) } else { None }
}

pub(crate) fn is_number(e: &Expr) -> bool
    ensures { result ≡ is_number (plain e.now) }
{
    match e.view() {
        Look::Num(_) => true,
        _ => false,
    }
}

pub(crate) fn is_integer(e: &Expr) -> bool
    ensures { result ≡ is_int (plain e.now) }
{
    match e.view() {
        Look::Num(n) => n.den() == 1,
        _ => false,
    }
}

pub(crate) fn is_text(e: &Expr) -> bool
    ensures { result ≡ is_text (plain e.now) }
{
    match e.view() {
        Look::Text(_) => true,
        _ => false,
    }
}

pub(crate) fn is_node(e: &Expr) -> bool
    ensures { result ≡ is_node (plain e.now) }
{
    match e.view() {
        Look::Node(_, _) => true,
        _ => false,
    }
}

pub(crate) fn is_list(e: &Expr) -> bool
    ensures { result ≡ is_list (plain e.now) }
{
    match e.view() {
        Look::Node(head, _) => is_symbol(head, "List"),
        _ => false,
    }
}

/// Whether the expression is the symbol of this name.
pub(crate) fn is_symbol(e: &Expr, name: &str) -> bool
    ensures { result ≡ is_the name.now (plain e.now) }
{
    match e.view() {
        Look::Symbol(s) => name == s,
        _ => false,
    }
}

/// Whether the two are one tree, stamps apart.
pub(crate) fn are_same(a: &Expr, b: &Expr) -> bool
    ensures { result ≡ same (plain a.now) (plain b.now) }
{
    a == b
}
