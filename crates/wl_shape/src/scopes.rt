//! The formal parameters of `Function`, `Module` and `With`.
ghost use Rattle.std.specs.Prelude.{◌≡◌, IfOk, map, option_map};
ghost use Rattle.std.specs.List.{list_all};
ghost use Rattle.wl_expr.specs.Stamped.{plain, plains, from_list};
ghost use Rattle.wl_shape.specs.Answers.{trees};
ghost use Rattle.wl_shape.specs.Elements.{is_name};
ghost use Rattle.wl_shape.specs.Locals.{local_name, needs_of, symbols_in, two_of};
ghost use Rattle.wl_shape.specs.Scopes.{function_names, locals, names_in, parameters};
ghost use Rattle.wl_shape.specs.Walks.{has_scope, have_scopes, may_be_scope};

use crate::element::{is_symbol, list_elements};
use std::alloc::Global;
use std::slice;
use wl_expr::{Expr, Look, copy_all};
use wl_ports::Memory;

/// Whether the local names of a scope need values.
#[derive(Clone, Copy)]
enum Needs {
    Values,
    Names,
}

/// Whether the expression is a symbol.
fn is_name(e: &Expr) -> bool
    ensures { result ≡ is_name (plain e.now) }
{
    match e.view() {
        Look::Symbol(_) => true,
        _ => false,
    }
}

fn are_names(elements: &[Expr]) -> bool
    ensures { result ≡ list_all is_name (trees elements.now) }
{
    for e in elements {
        if !is_name(e) {
            return false;
        }
    }
    true
}

/// The two elements, where there are two.
#[tactic(auto, using(crate::proofs::Parameters::these_two, crate::proofs::Parameters::not_two))]
pub(crate) fn two(args: &[Expr]) -> Option<(&Expr, &Expr)>
    ensures { option_map (λ p. (plain p.0.now, plain p.1.now)) result ≡ two_of (plains (from_list args.now)) }
{
    if args.len() != 2 {
        return None;
    }
    Some((&args[0], &args[1]))
}

/// The names of `x` or `{x, y}`.
fn function_names(alloc: Global, first: &Expr) -> Result<Option<Vec<Expr>>, Memory>
    ensures { IfOk result (λ o. option_map (λ v. trees v.items) o
        ≡ symbols_in (function_names (plain first.now))) }
{
    if is_name(first) {
        return Ok(Some(copy_all(alloc, slice::from_ref(first))?));
    }
    match list_elements(first) {
        Some(elements) if are_names(elements) => Ok(Some(copy_all(alloc, elements)?)),
        _ => Ok(None),
    }
}

/// The name of `x` or `x = v`.
fn local_name(needs: Needs, e: &Expr) -> Option<&Expr>
    ensures { option_map (λ r. plain r.now) result ≡ local_name (needs_of needs) (plain e.now) }
{
    match e.view() {
        Look::Symbol(_) => match needs {
            Needs::Names => Some(e),
            Needs::Values => None,
        },
        Look::Node(head, args) => match two(args) {
            Some((name, _)) if is_symbol(head, "Set") && is_name(name) => Some(name),
            _ => None,
        },
        _ => None,
    }
}

/// The names of the list of Module or With.
fn local_names(alloc: Global, needs: Needs, first: &Expr) -> Result<Option<Vec<Expr>>, Memory>
    ensures { IfOk result (λ o. option_map (λ v. trees v.items) o
        ≡ symbols_in (names_in (locals (needs_of needs) (plain first.now)))) }
{
    let Some(elements) = list_elements(first) else {
        return Ok(None);
    };
    let mut names = Vec::with_capacity(alloc, elements.len())?;
    for e in elements {
        match local_name(needs, e) {
            Some(name) => names.push(name.copy()?)?,
            None => return Ok(None),
        }
    }
    Ok(Some(names))
}

/// The formal parameters of the node of this head and these elements, where it is a scope.
#[tactic(auto, using(crate::proofs::Parameters::of_two, crate::proofs::Parameters::not_of_two))]
pub(crate) fn parameters(
    alloc: Global,
    head: &Expr,
    args: &[Expr],
) -> Result<Option<Vec<Expr>>, Memory>
    ensures { IfOk result (λ o. option_map (λ v. trees v.items) o
        ≡ symbols_in (parameters (plain head.now) (plains (from_list args.now)))) }
{
    let Look::Symbol(name) = head.view() else {
        return Ok(None);
    };
    let Some((first, _)) = two(args) else {
        return Ok(None);
    };
    match name {
        "Function" => function_names(alloc, first),
        "Module" => local_names(alloc, Needs::Names, first),
        "With" => local_names(alloc, Needs::Values, first),
        _ => Ok(None),
    }
}

/// Whether the node of this head and these elements may be a scope.
fn may_be_scope(head: &Expr, args: &[Expr]) -> bool
    ensures { result ≡ may_be_scope (plain head.now) (plains (from_list args.now)) }
{
    two(args).is_some()
        && (is_symbol(head, "Function") || is_symbol(head, "Module") || is_symbol(head, "With"))
}

/// Whether a node that may be a scope stands in the expression.
#[cycle(scopes)]
pub(crate) fn has_scope(e: &Expr) -> bool
    ensures { result ≡ has_scope (plain e.now) }
{
    match e.view() {
        Look::Node(head, args) => {
            may_be_scope(head, args) || has_scope(head) || have_scopes(args)
        }
        _ => false,
    }
}

#[cycle(scopes)]
#[tactic(auto, using(wl_expr::proofs::Parts::depth_arg))]
fn have_scopes(args: &[Expr]) -> bool
    ensures { result ≡ have_scopes (plains (from_list args.now)) }
{
    for arg in args {
        if has_scope(arg) {
            return true;
        }
    }
    false
}
