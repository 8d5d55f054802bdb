//! Names in an expression are replaced by what stands for them. Scopes shadow, and parameters that would capture are renamed.
ghost use Rattle.std.specs.Prelude.{◌≡◌, ◌||◌, [], IfOk, IfSome, List, None, length, option_map, true, unwrap_or};
ghost use Rattle.std.specs.List.{list_any};
ghost use Rattle.wl_expr.specs.Passed.{IsFrom};
ghost use Rattle.wl_expr.specs.Stamped.{Stamped, plain, plains, from_list};
ghost use Rattle.wl_expr.specs.Tree as tree;
ghost use Rattle.wl_shape.specs.Answers.{AllFrom, trees};
ghost use Rattle.wl_shape.specs.Fill.{fill, fill_all, fill_first, fill_formal, fill_formals, fill_scope, inside, parameter};
ghost use Rattle.wl_shape.specs.Held.{IsReady, ValuesFrom, values_in};
ghost use Rattle.wl_shape.specs.Names.{has_tree, names_in};
ghost use Rattle.wl_shape.specs.Renewed.{AreRenewed, IsRenewed, elements_or};
ghost use Rattle.wl_shape.specs.Walks.{AreParameters, fill_elements, has_scope, have_scopes, inside_with, may_be_scope};

use crate::renaming::entered;
use crate::renewal::{catch_up, rebuilt, renewed, renewed_pair};
use crate::scopes::parameters;
use crate::values::Values;
use std::alloc::Global;
use wl_expr::{Expr, ExprFault, Look};
use wl_ports::Memory;

/// What stands for a symbol; None where nothing does.
fn standing(values: &Values, e: &Expr) -> Result<Option<Expr>, Memory>
    ensures tree { IfOk result (λ o. unwrap_or (option_map plain o) (plain e.now) ≡ parameter (values_in values.now) (plain e.now)) }
    ensures passed { (ms : List Stamped) → ValuesFrom ms values.now → IfOk result (λ o. IfSome o (IsFrom ms)) }
{
    let Look::Symbol(_) = e.view() else {
        return Ok(None);
    };
    match values.get(e) {
        Some(value) => Ok(Some(value.tree.copy()?)),
        None => Ok(None),
    }
}

/// Whether one of the names has a value or stands in one.
fn any_near(values: &Values, names: &[Expr]) -> bool
    ensures { result ≡ list_any (λ e. has_tree values.now.near.keys (plain e)) names.now }
{
    for name in names {
        if values.is_near(name) {
            return true;
        }
    }
    false
}

/// The expression with its names replaced; None where none is.
#[cycle(fill)]
pub(crate) fn filled(alloc: Global, values: &Values, e: &Expr) -> Result<Option<Expr>, ExprFault>
    requires { has_scope (plain e.now) ≡ true → IsReady values.now }
    ensures made { IsRenewed (plain e.now) (fill (values_in values.now) (plain e.now)) result }
    ensures passed { (ms : List Stamped) → IsFrom ms e.now → ValuesFrom ms values.now → IfOk result (λ o. IfSome o (IsFrom ms)) }
    ensures kept { values.now.map.entries ≡ [] → IfOk result (λ o. o ≡ None) }
{
    if values.is_empty() {
        return Ok(None);
    }
    match e.view() {
        Look::Symbol(_) => Ok(standing(values, e)?),
        Look::Node(head, args) => {
            let new_head = filled(alloc, values, head)?;
            let new_args = filled_args(alloc, values, head, args)?;
            rebuilt(alloc, head, args, new_head, new_args)
        }
        _ => Ok(None),
    }
}

/// The same of the elements of a node with this head; None where none is new.
#[cycle(fill)]
fn filled_args(
    alloc: Global,
    values: &Values,
    head: &Expr,
    args: &[Expr],
) -> Result<Option<Vec<Expr>>, ExprFault>
    requires { (may_be_scope (plain head.now) (plains (from_list args.now)) || have_scopes (plains (from_list args.now))) ≡ true
        → IsReady values.now }
    ensures made { AreRenewed args.now (fill_elements (values_in values.now) (plain head.now) (plains (from_list args.now))) result }
    ensures passed { (ms : List Stamped) → AllFrom ms args.now → ValuesFrom ms values.now
        → IfOk result (λ o. AllFrom ms (elements_or o args.now)) }
{
    match parameters(alloc, head, args)? {
        Some(names) => filled_scope(alloc, values, names.as_slice(), args),
        None => filled_all(alloc, values, args),
    }
}

#[cycle(fill)]
#[tactic(auto, using(wl_expr::proofs::Parts::depth_arg))]
fn filled_all(alloc: Global, values: &Values, args: &[Expr]) -> Result<Option<Vec<Expr>>, ExprFault>
    requires { have_scopes (plains (from_list args.now)) ≡ true → IsReady values.now }
    ensures made { AreRenewed args.now (fill_all (values_in values.now) (plains (from_list args.now))) result }
    ensures passed { (ms : List Stamped) → AllFrom ms args.now → ValuesFrom ms values.now
        → IfOk result (λ o. AllFrom ms (elements_or o args.now)) }
{
    let mut all = Vec::new(alloc);
    for k in 0..args.len() {
        if let Some(e) = filled(alloc, values, &args[k])? {
            catch_up(&mut all, &args[..k])?;
            all.push(e)?;
        }
    }
    Ok(renewed(all, args)?)
}

/// The same of the two elements of a scope with these parameters.
#[cycle(fill)]
fn filled_scope(
    alloc: Global,
    values: &Values,
    names: &[Expr],
    args: &[Expr],
) -> Result<Option<Vec<Expr>>, ExprFault>
    requires two { length args.now ≡ 2 }
    requires parameters { AreParameters (names_in (trees names.now)) (plains (from_list args.now)) }
    requires ready { IsReady values.now }
    ensures made { AreRenewed args.now (fill_scope (values_in values.now)
        (inside (names_in (trees names.now)) (values_in values.now) (plains (from_list args.now))) (plains (from_list args.now))) result }
    ensures passed { (ms : List Stamped) → AllFrom ms args.now → ValuesFrom ms values.now
        → IfOk result (λ o. AllFrom ms (elements_or o args.now)) }
{
    if !any_near(values, names) {
        let none = Values::new(alloc);
        return filled_pair(alloc, values, &none, values, args);
    }
    let scope = entered(alloc, values, names, &args[1])?;
    filled_pair(alloc, values, &scope.renamed, &scope.inner, args)
}

/// The same of the two elements of a scope, inside of which this stands for names.
#[cycle(fill)]
#[tactic(auto, using(wl_expr::proofs::Parts::depth_arg))]
fn filled_pair(
    alloc: Global,
    values: &Values,
    renamed: &Values,
    inner: &Values,
    args: &[Expr],
) -> Result<Option<Vec<Expr>>, ExprFault>
    requires two { length args.now ≡ 2 }
    requires ready { IsReady values.now }
    requires inside { IsReady inner.now }
    ensures made { AreRenewed args.now (fill_scope (values_in values.now) (inside_with renamed.now inner.now) (plains (from_list args.now))) result }
    ensures passed { (ms : List Stamped) → AllFrom ms args.now → ValuesFrom ms values.now → ValuesFrom ms renamed.now → ValuesFrom ms inner.now
        → IfOk result (λ o. AllFrom ms (elements_or o args.now)) }
{
    let new_first = filled_first(alloc, values, renamed, &args[0])?;
    let new_body = filled(alloc, inner, &args[1])?;
    Ok(renewed_pair(alloc, args, new_first, new_body)?)
}

/// The parameters of a scope with their new names; the initial values among them are outside.
#[cycle(fill)]
fn filled_first(
    alloc: Global,
    values: &Values,
    renamed: &Values,
    first: &Expr,
) -> Result<Option<Expr>, ExprFault>
    requires { IsReady values.now }
    ensures made { IsRenewed (plain first.now) (fill_first (values_in values.now) (values_in renamed.now) (plain first.now)) result }
    ensures passed { (ms : List Stamped) → IsFrom ms first.now → ValuesFrom ms values.now → ValuesFrom ms renamed.now
        → IfOk result (λ o. IfSome o (IsFrom ms)) }
{
    match first.view() {
        Look::Symbol(_) => Ok(standing(renamed, first)?),
        Look::Node(head, formals) => {
            let new_head = filled(alloc, values, head)?;
            let new_formals = filled_formals(alloc, values, renamed, formals)?;
            rebuilt(alloc, head, formals, new_head, new_formals)
        }
        _ => Ok(None),
    }
}

#[cycle(fill)]
#[tactic(auto, using(wl_expr::proofs::Parts::depth_arg))]
fn filled_formals(
    alloc: Global,
    values: &Values,
    renamed: &Values,
    formals: &[Expr],
) -> Result<Option<Vec<Expr>>, ExprFault>
    requires { IsReady values.now }
    ensures made { AreRenewed formals.now (fill_formals (values_in values.now) (values_in renamed.now) (plains (from_list formals.now))) result }
    ensures passed { (ms : List Stamped) → AllFrom ms formals.now → ValuesFrom ms values.now → ValuesFrom ms renamed.now
        → IfOk result (λ o. AllFrom ms (elements_or o formals.now)) }
{
    let mut all = Vec::new(alloc);
    for k in 0..formals.len() {
        if let Some(e) = filled_formal(alloc, values, renamed, &formals[k])? {
            catch_up(&mut all, &formals[..k])?;
            all.push(e)?;
        }
    }
    Ok(renewed(all, formals)?)
}

/// `x` or `x = v`.
#[cycle(fill)]
fn filled_formal(
    alloc: Global,
    values: &Values,
    renamed: &Values,
    formal: &Expr,
) -> Result<Option<Expr>, ExprFault>
    requires { IsReady values.now }
    ensures made { IsRenewed (plain formal.now) (fill_formal (values_in values.now) (values_in renamed.now) (plain formal.now)) result }
    ensures passed { (ms : List Stamped) → IsFrom ms formal.now → ValuesFrom ms values.now → ValuesFrom ms renamed.now
        → IfOk result (λ o. IfSome o (IsFrom ms)) }
{
    match formal.view() {
        Look::Symbol(_) => Ok(standing(renamed, formal)?),
        Look::Node(head, parts) => filled_setting(alloc, values, renamed, head, parts),
        _ => Ok(None),
    }
}

/// The node of `x = v` by its parts.
#[cycle(fill)]
fn filled_setting(
    alloc: Global,
    values: &Values,
    renamed: &Values,
    head: &Expr,
    parts: &[Expr],
) -> Result<Option<Expr>, ExprFault>
    requires { IsReady values.now }
    ensures made { let node = tree.node (plain head.now) (plains (from_list parts.now)) in
        IsRenewed node (fill_formal (values_in values.now) (values_in renamed.now) node) result }
    ensures passed { (ms : List Stamped) → IsFrom ms head.now → AllFrom ms parts.now → ValuesFrom ms values.now → ValuesFrom ms renamed.now
        → IfOk result (λ o. IfSome o (IsFrom ms)) }
{
    if parts.len() != 2 {
        return Ok(None);
    }
    let new_head = filled(alloc, values, head)?;
    let new_name = standing(renamed, &parts[0])?;
    let new_value = filled(alloc, values, &parts[1])?;
    let new_parts = renewed_pair(alloc, parts, new_name, new_value)?;
    rebuilt(alloc, head, parts, new_head, new_parts)
}
