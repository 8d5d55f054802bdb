//! Which rule applies to a form.
ghost use Rattle.std.specs.Prelude.{◌≡◌, IfOk, filter_map, option_map};
ghost use Rattle.wl_expr.specs.Stamped.{plain};
ghost use Rattle.wl_expr.specs.Words.{elements, leftmost, name_of};
ghost use Rattle.wl_state.specs.Parts.{head_place, up_symbol};
ghost use Rattle.wl_state.specs.Played.{trees};
ghost use Rattle.wl_semantics.specs.Turn as turn;

use indexmap::IndexSet;
use std::alloc::Global;
use wl_expr::{Expr, Look};
use wl_ports::Memory;
use wl_rules::RuleKind;

/// The symbol whose up rules an element asks for: itself, or its head.
fn up_symbol(e: &Expr) -> Option<&Expr>
    ensures { option_map (λ s. plain s.now) result ≡ up_symbol (plain e.now) }
{
    match e.view() {
        Look::Symbol(_) => Some(e),
        Look::Node(head, _) => match head.view() {
            Look::Symbol(_) => Some(head),
            _ => None,
        },
        _ => None,
    }
}

/// The symbols whose up rules are tried on a form, each once.
pub fn up_symbols(alloc: Global, form: &Expr) -> Result<Vec<Expr>, Memory>
    ensures { IfOk result (λ v. filter_map name_of (trees v.items) ≡ turn.up_names (elements (plain form.now))) }
{
    let mut symbols = Vec::new(alloc);
    let Look::Node(_, args) = form.view() else {
        return Ok(symbols);
    };
    let mut met = IndexSet::new(alloc);
    for arg in args {
        let Some(symbol) = up_symbol(arg) else {
            continue;
        };
        let is_new = met.insert(symbol.copy()?)?;
        if !is_new {
            continue;
        }
        symbols.push(symbol.copy()?)?;
    }
    Ok(symbols)
}

/// The head of the head and so on, up to one that is no node.
pub(crate) fn leftmost(e: &Expr) -> &Expr
    ensures { plain result.now ≡ leftmost (plain e.now) }
{
    let mut part = e;
    loop {
        let Look::Node(head, _) = part.view() else {
            return part;
        };
        part = head;
    }
}

/// The kind of the rules that the head of a form brings, and the name that has them.
pub fn head_place(form: &Expr) -> Option<(RuleKind, &str)>
    ensures { option_map (λ p. (p.0, p.1.now)) result ≡ head_place (plain form.now) }
{
    let Look::Node(head, _) = form.view() else {
        return None;
    };
    if let Look::Symbol(name) = head.view() {
        return Some((RuleKind::Down, name));
    }
    match leftmost(head).view() {
        Look::Symbol(name) => Some((RuleKind::Sub, name)),
        _ => None,
    }
}
