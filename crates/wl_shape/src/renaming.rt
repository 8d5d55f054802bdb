//! What stands for names inside a scope: parameters that arriving names would be captured by get new names.
ghost use Rattle.std.specs.Prelude.{◌≡◌, ◌||◌, ◌++◌, ◌∷◌, [], IfOk, List, None, OnOk};
ghost use Rattle.wl_expr.specs.Same.{is_name_among};
ghost use Rattle.wl_expr.specs.Stamped.{Stamped, plain, symbol as stamped_symbol};
ghost use Rattle.wl_expr.specs.Tree as tree;
ghost use Rattle.wl_expr.specs.Tree.{IsWithinLimits};
ghost use Rattle.wl_expr.specs.Words.{Name};
ghost use Rattle.wl_ports.specs.Name.{IsName};
ghost use Rattle.wl_shape.specs.Answers.{trees};
ghost use Rattle.wl_shape.specs.Entering.{IsTooLong, OneTooLong, put_new_name, put_values};
ghost use Rattle.wl_shape.specs.Fill as fill;
ghost use Rattle.wl_shape.specs.Held.{IsReady, ValuesFrom, values_in};
ghost use Rattle.wl_shape.specs.Names.{has_name, names_in};
ghost use Rattle.wl_shape.specs.Standing.{AgreeOn};

use crate::names::{Names, add_names, has, has_any, put_all, set_of};
use crate::reaching::reached;
use crate::values::{Values, value_of};
use indexmap::IndexSet;
use std::alloc::Global;
use wl_expr::{Expr, ExprFault, Look};
use wl_ports::Memory;

/// What a scope makes of the values that come in.
#[derive(Drop)]
pub(crate) struct Inside {
    /// The symbols of new names that stand for parameters.
    pub renamed: Values,
    /// What stands for which name in the body.
    pub inner: Values,
}

/// The symbol of the name with `$` behind it, as often as it takes until it isn't taken.
fn new_name(alloc: Global, name: &str, taken: &Names) -> Result<Expr, ExprFault>
    requires { IsName name.now }
    ensures symbol { IfOk result (λ e. e ≡ stamped_symbol None (fill.new_name (names_in (trees taken.now.keys)) name.now)) }
    ensures large { result ≡ Err ExprFault.Large
        → ¬ IsWithinLimits (tree.symbol (fill.new_name (names_in (trees taken.now.keys)) name.now)) }
{
    let mut longer = String::from_str(alloc, name)?;
    longer.push_str("$")?;
    let mut symbol = Expr::symbol(alloc, longer.as_str())?;
    'tries: while has(taken, &symbol) {
        longer.push_str("$")?;
        symbol = Expr::symbol(alloc, longer.as_str())?;
    }
    Ok(symbol)
}

/// Puts the new name of a parameter.
fn put_new_name(
    alloc: Global,
    parameter: &Expr,
    taken: &Names,
    renamed: &mut Values,
) -> Result<(), ExprFault>
    ensures value { OnOk result ((x : Name) → values_in renamed.new x
        ≡ put_new_name (names_in (trees taken.now.keys)) (plain parameter.now) (values_in renamed.old) x) }
    ensures ready { IsReady renamed.old → OnOk result (IsReady renamed.new) }
    ensures passed { (ms : List Stamped) → ValuesFrom ms renamed.old → OnOk result (ValuesFrom ms renamed.new) }
    ensures large { result ≡ Err ExprFault.Large → IsTooLong (names_in (trees taken.now.keys)) (plain parameter.now) }
{
    let Look::Symbol(name) = parameter.view() else {
        return Ok(());
    };
    let other = new_name(alloc, name, taken)?;
    renamed.put(parameter, value_of(alloc, other, true)?)?;
    Ok(())
}

/// The new names of the parameters that are among the arriving names.
fn renamings(
    alloc: Global,
    parameters: &[Expr],
    arrived: &Names,
    body: &Expr,
) -> Result<Values, ExprFault>
    ensures value { let names = names_in (trees arrived.now.keys) in
        IfOk result (λ v. (x : Name) → values_in v x
        ≡ fill.renamings names (names ++ fill.names (plain body.now)) (names_in (trees parameters.now)) x) }
    ensures ready { IfOk result IsReady }
    ensures passed { (ms : List Stamped) → IfOk result (ValuesFrom ms) }
    ensures large { let names = names_in (trees arrived.now.keys) in
        result ≡ Err ExprFault.Large → OneTooLong (names_in (trees parameters.now))
        (fill.renamings names (names ++ fill.names (plain body.now)) (names_in (trees parameters.now))) }
{
    let mut renamed = Values::new(alloc);
    if !has_any(arrived, parameters) {
        return Ok(renamed);
    }
    let mut taken = set_of(alloc, arrived.as_slice())?;
    add_names(body, &mut taken)?;
    for parameter in parameters {
        if has(arrived, parameter) {
            put_new_name(alloc, parameter, &taken, &mut renamed)?;
        }
    }
    Ok(renamed)
}

/// Adds the names in what stands for the symbol.
fn add_arriving(values: &Values, symbol: &Expr, arrived: &mut Names) -> Result<(), Memory>
    requires { IsReady values.now }
    ensures { OnOk result ((x : Name) → has_name arrived.new.keys x
        ≡ (has_name arrived.old.keys x || is_name_among x (fill.arriving (names_in (plain symbol.now ∷ [])) (values_in values.now)))) }
{
    let Look::Symbol(_) = symbol.view() else {
        return Ok(());
    };
    match values.get(symbol) {
        Some(value) => put_all(arrived, value.names.as_slice()),
        None => Ok(()),
    }
}

/// The names in what stands for these names.
fn arriving(alloc: Global, values: &Values, names: &Names) -> Result<Names, Memory>
    requires { IsReady values.now }
    ensures { IfOk result (λ s. (x : Name) → has_name s.keys x
        ≡ is_name_among x (fill.arriving (names_in (trees names.now.keys)) (values_in values.now))) }
{
    let mut arrived = IndexSet::new(alloc);
    for name in names.as_slice() {
        add_arriving(values, name, &mut arrived)?;
    }
    Ok(arrived)
}

/// Puts what stands for these symbols.
fn put_values(from: &Values, symbols: &[Expr], into: &mut Values) -> Result<(), Memory>
    ensures value { OnOk result ((x : Name) → values_in into.new x ≡ put_values symbols.now (values_in from.now) (values_in into.old) x) }
    ensures ready { IsReady from.now → IsReady into.old → OnOk result (IsReady into.new) }
    ensures passed { (ms : List Stamped) → ValuesFrom ms from.now → ValuesFrom ms into.old → OnOk result (ValuesFrom ms into.new) }
{
    for symbol in symbols {
        if let Some(value) = from.get(symbol) {
            into.put(symbol, value.clone()?)?;
        }
    }
    Ok(())
}

/// What a scope with these parameters and this body makes of the values that come in.
pub(crate) fn entered(
    alloc: Global,
    values: &Values,
    parameters: &[Expr],
    body: &Expr,
) -> Result<Inside, ExprFault>
    requires { IsReady values.now }
    ensures renamed { let inside = fill.inside_of (names_in (trees parameters.now)) (values_in values.now) (plain body.now) in
        IfOk result (λ i. (x : Name) → values_in i.renamed x ≡ inside.renamed x) }
    ensures inner { let inside = fill.inside_of (names_in (trees parameters.now)) (values_in values.now) (plain body.now) in
        IfOk result (λ i. AgreeOn (fill.reached (plain body.now)) (values_in i.inner) inside.inner) }
    ensures ready { IfOk result (λ i. IsReady i.inner) }
    ensures passed { (ms : List Stamped) → ValuesFrom ms values.now
        → IfOk result (λ i. ValuesFrom ms i.renamed × ValuesFrom ms i.inner) }
    ensures large { let inside = fill.inside_of (names_in (trees parameters.now)) (values_in values.now) (plain body.now) in
        result ≡ Err ExprFault.Large → OneTooLong (names_in (trees parameters.now)) inside.renamed }
{
    let shadowed = set_of(alloc, parameters)?;
    let targets = values.names_but(alloc, &shadowed)?;
    let met = reached(alloc, &targets, body)?;
    let arrived = arriving(alloc, values, &met)?;
    let renamed = renamings(alloc, parameters, &arrived, body)?;
    let mut inner = Values::new(alloc);
    put_values(&renamed, parameters, &mut inner)?;
    put_values(values, met.as_slice(), &mut inner)?;
    Ok(Inside { renamed, inner })
}
