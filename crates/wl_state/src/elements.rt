//! The elements of a node, evaluated.
ghost use Rattle.std.specs.Prelude.{◌≡◌, List, length};
ghost use Rattle.wl_expr.specs.Stamped.{plain};
ghost use Rattle.wl_expr.specs.Tree.{Tree};
ghost use Rattle.wl_expr.specs.Words.{is_form, is_the};
ghost use Rattle.wl_semantics.specs.Elements.{evaluated, stays_held};

use wl_expr::{Expr, Look};
use wl_rules::{Attribute, Attributes};

/// Whether the expression is the symbol of this name.
pub fn is_symbol(e: &Expr, name: &str) -> bool
    ensures { result ≡ is_the name.now (plain e.now) }
{
    match e.view() {
        Look::Symbol(s) => name == s,
        _ => false,
    }
}

/// Whether the expression is a node whose head is the symbol of this name.
pub fn is_form(e: &Expr, name: &str) -> bool
    ensures { result ≡ is_form name.now (plain e.now) }
{
    match e.view() {
        Look::Node(head, _) => is_symbol(head, name),
        _ => false,
    }
}

/// Whether the element of this place, from 0, isn't evaluated.
pub fn stays_held(attributes: Attributes, place: usize, e: &Expr) -> bool
    ensures { (vs : List Tree) → length vs ≡ place → result ≡ stays_held attributes vs (plain e.now) }
{
    let alone = if place == 0 {
        Attribute::HoldFirst
    } else {
        Attribute::HoldRest
    };
    (attributes.has(alone) || attributes.has(Attribute::HoldAll)) && !is_form(e, "Evaluate")
}
