//! Guarded bodies: Module, With and Block whose body is a condition.
ghost use Rattle.std.specs.Prelude.{◌≡◌, ◌<◌, is_some, option_map};
ghost use Rattle.std.specs.List.{All};
ghost use Rattle.wl_expr.specs.Stamped.{plain};
ghost use Rattle.wl_expr.specs.Tree.{Tree};
ghost use Rattle.wl_expr.specs.Words.{elements, name_of};
ghost use Rattle.wl_rules.specs.Stored.{Stored};
ghost use Rattle.wl_shape.specs.Scopes.{local_of, locals, names};
ghost use Rattle.wl_state.specs.Honest.{HonestIn};
ghost use Rattle.wl_semantics.specs.Match as matching;
ghost use Rattle.wl_state.specs.Played.{trees};
ghost use Rattle.wl_state.specs.Searching.{needs_values, scope_body};

use crate::elements::is_symbol;
use crate::operands::two;
use wl_expr::{Expr, Look};

/// Whether the expression is a symbol.
fn is_name(e: &Expr) -> bool
    ensures { result ≡ is_some (name_of (plain e.now)) }
{
    match e.view() {
        Look::Symbol(_) => true,
        _ => false,
    }
}

/// Whether the expression is `x = v`, or where a value isn't needed `x`.
fn is_local(e: &Expr, needs_value: bool) -> bool
    ensures { result ≡ is_some (local_of (needs_values needs_value) (plain e.now)) }
{
    let Look::Node(head, args) = e.view() else {
        return is_name(e) && !needs_value;
    };
    if args.len() != 2 {
        return false;
    }
    is_symbol(head, "Set") && is_name(&args[0])
}

/// Whether the expression is a list of local names.
fn are_locals(e: &Expr, need_values: bool) -> bool
    ensures { result ≡ is_some (locals (needs_values need_values) (plain e.now)) }
{
    let Look::Node(head, args) = e.view() else {
        return false;
    };
    if !is_symbol(head, "List") {
        return false;
    }
    for i in 0..args.len() {
        let is_one = is_local(&args[i], need_values);
        if !is_one {
            return false;
        }
    }
    true
}

/// Whether a node of this name and first element, with a second element, is a scope of local names.
fn is_scope(name: &str, first: &Expr) -> bool
    ensures { (b : Tree) → result ≡ matching.is_scope (matching.scope_named name.now (plain first.now) b) }
{
    match name {
        "Module" => are_locals(first, false),
        "With" => are_locals(first, true),
        "Block" => are_locals(first, false),
        _ => false,
    }
}

/// The body of `Module[v, b]`, `With[v, b]` or `Block[v, b]`, where v is a list of local names.
fn scope_body(e: &Expr) -> Option<&Expr>
    ensures { option_map (λ r. plain r.now) result ≡ scope_body (plain e.now) }
{
    let Look::Node(head, args) = e.view() else {
        return None;
    };
    let Look::Symbol(name) = head.view() else {
        return None;
    };
    if args.len() != 2 {
        return None;
    }
    let is_scope = is_scope(name, &args[0]);
    if !is_scope {
        return None;
    }
    Some(&args[1])
}

/// Whether the expression is a condition of two elements.
pub fn is_condition(e: &Expr) -> bool
    ensures { result ≡ matching.is_condition (plain e.now) }
{
    let Look::Node(head, args) = e.view() else {
        return false;
    };
    if args.len() != 2 {
        return false;
    }
    is_symbol(head, "Condition")
}

/// Whether the expression is such a scope, whose body is a condition or guarded itself.
pub fn is_guarded(e: &Expr) -> bool
    ensures { result ≡ matching.is_guarded (plain e.now) }
{
    let mut part = e;
    'scopes: loop {
        match scope_body(part) {
            None => return false,
            Some(body) => {
                if is_condition(body) {
                    return true;
                }
                part = body;
            }
        }
    }
}

/// The elements of a node, and none of another expression.
pub fn elements(e: &Expr) -> &[Expr]
    ensures elements { trees result.now ≡ elements (plain e.now) }
    ensures honest { (a : Stored) → HonestIn a e.now → All (HonestIn a) result.now }
{
    match e.view() {
        Look::Node(_, args) => args,
        _ => &[],
    }
}
