//! Whether the expressions of a run have a head.
ghost use Rattle.std.specs.Prelude.{◌≡◌, Some};
ghost use Rattle.std.specs.Option.{option_map};
ghost use Rattle.wl_expr.specs.Same as trees;
ghost use Rattle.wl_expr.specs.Stamped.{plain};
ghost use Rattle.wl_expr.specs.Tree.{num, symbol};
ghost use Rattle.wl_expr.specs.Words.{head_of};
ghost use Rattle.wl_expr.specs.Words as word;
ghost use Rattle.wl_match.specs.Runs.{is_headed, trees_in, trees_of};
ghost use Rattle.wl_match.specs.Trials as trials;

use crate::lent::{Items, Lent, same};
use wl_exact::Num;
use wl_expr::{Expr, Look};

/// Whether the expression is the symbol of this name.
pub(crate) fn is_the(t: &Expr, name: &str) -> bool
    ensures { result ≡ word.is_the name.now (plain t.now) }
{
    match t.view() {
        Look::Symbol(s) => s == name,
        _ => false,
    }
}

fn number_head(n: &Num) -> &'static str
    ensures { head_of (num n.now) ≡ symbol result.now }
{
    if n.den() == 1 { "Integer" } else { "Rational" }
}

/// Whether the expression has this head.
fn has_head(t: &Expr, head: &Expr) -> bool
    ensures { result ≡ trees.same (plain head.now) (head_of (plain t.now)) }
{
    match t.view() {
        Look::Num(n) => is_the(head, number_head(&n)),
        Look::Text(_) => is_the(head, "String"),
        Look::Symbol(_) => is_the(head, "Symbol"),
        Look::Node(own, _) => same(head, own),
    }
}

fn is_headed(t: Option<&Expr>, head: &Expr) -> bool
    ensures { result ≡ is_headed (plain head.now) (option_map (λ r. plain r.now) t.entry) }
{
    match t {
        Some(t) => has_head(t, head),
        None => false,
    }
}

fn items_have(items: &Items<'_, '_>, head: &Expr) -> bool
    ensures { result ≡ trials.all_have (Some (plain head.now)) (trees_in items.now) }
{
    for k in 0..items.len() {
        if !is_headed(items.at(k), head) {
            return false;
        }
    }
    true
}

/// Whether each expression of the run has this head.
pub(crate) fn have(run: &Lent<'_, '_>, head: &Expr) -> bool
    ensures { result ≡ trials.all_have (Some (plain head.now)) (trees_of run.now) }
{
    match run {
        Lent::These(items) => items_have(items, head),
        Lent::Wrapped(own, _) => same(head, *own),
    }
}

/// Whether each expression of the run has the head that is asked for, if one is.
pub(crate) fn all_have(run: &Lent<'_, '_>, head: &Option<Expr>) -> bool
    ensures { result ≡ trials.all_have (option_map plain head.now) (trees_of run.now) }
{
    match head {
        None => true,
        Some(head) => have(run, head),
    }
}
