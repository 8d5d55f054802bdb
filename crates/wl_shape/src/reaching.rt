//! The names that filling reaches in an expression: not those that a scope shadows, and not the parameters themselves.
ghost use Rattle.std.specs.Prelude.{◌≡◌, ◌&&◌, ◌∷◌, [], IfOk, length, not, OnOk};
ghost use Rattle.wl_expr.specs.Same.{is_name_among};
ghost use Rattle.wl_expr.specs.Stamped.{plain, plains, from_list};
ghost use Rattle.wl_expr.specs.Words.{Name};
ghost use Rattle.wl_shape.specs.Answers.{trees};
ghost use Rattle.wl_shape.specs.Fill as fill;
ghost use Rattle.wl_shape.specs.Names.{has_name, HasMet, keys_or, names_in};

use crate::names::{Names, has, has_any, put, set_of};
use crate::scopes::{parameters, two};
use indexmap::IndexSet;
use std::alloc::Global;
use wl_expr::{Expr, Look};
use wl_ports::Memory;

/// Those of the targets that filling reaches in the expression.
pub(crate) fn reached(alloc: Global, targets: &Names, e: &Expr) -> Result<Names, Memory>
    ensures { IfOk result (λ s. (x : Name) → has_name s.keys x
        ≡ (has_name targets.now.keys x && is_name_among x (fill.reached (plain e.now)))) }
{
    let mut met = IndexSet::new(alloc);
    reach(alloc, targets, e, &mut met)?;
    Ok(met)
}

/// Adds the name of the symbol, where it is a target.
fn reach_symbol(targets: &Names, symbol: &Expr, met: &mut Names) -> Result<(), Memory>
    ensures { OnOk result (HasMet targets.now.keys met.old.keys met.new.keys (names_in (plain symbol.now ∷ []))) }
{
    if has(targets, symbol) {
        put(met, symbol)?;
    }
    Ok(())
}

/// The targets without these names; None where none of these is a target.
fn others(alloc: Global, targets: &Names, names: &[Expr]) -> Result<Option<Names>, Memory>
    ensures { IfOk result (λ o. (x : Name) → has_name (keys_or o targets.now.keys) x
        ≡ (has_name targets.now.keys x && not (has_name names.now x))) }
{
    if !has_any(targets, names) {
        return Ok(None);
    }
    let shadowed = set_of(alloc, names)?;
    let mut others = IndexSet::new(alloc);
    for target in targets.as_slice() {
        if !has(&shadowed, target) {
            put(&mut others, target)?;
        }
    }
    Ok(Some(others))
}

/// Adds those of the targets that filling reaches in the expression.
#[cycle(reach)]
fn reach(alloc: Global, targets: &Names, e: &Expr, met: &mut Names) -> Result<(), Memory>
    ensures { OnOk result (HasMet targets.now.keys met.old.keys met.new.keys (fill.reached (plain e.now))) }
{
    match e.view() {
        Look::Symbol(_) => reach_symbol(targets, e, met),
        Look::Node(head, args) => {
            reach(alloc, targets, head, met)?;
            match parameters(alloc, head, args)? {
                Some(names) => reach_scope(alloc, targets, names.as_slice(), args, met),
                None => reach_all(alloc, targets, args, met),
            }
        }
        _ => Ok(()),
    }
}

#[cycle(reach)]
#[tactic(auto, using(wl_expr::proofs::Parts::depth_arg))]
fn reach_all(alloc: Global, targets: &Names, args: &[Expr], met: &mut Names) -> Result<(), Memory>
    ensures { OnOk result (HasMet targets.now.keys met.old.keys met.new.keys (fill.reached_all (plains (from_list args.now)))) }
{
    for arg in args {
        reach(alloc, targets, arg, met)?;
    }
    Ok(())
}

/// The same of the two elements of a scope with these parameters.
#[cycle(reach)]
#[tactic(auto, using(wl_expr::proofs::Parts::depth_arg))]
fn reach_scope(
    alloc: Global,
    targets: &Names,
    names: &[Expr],
    args: &[Expr],
    met: &mut Names,
) -> Result<(), Memory>
    requires { length args.now ≡ 2 }
    ensures { OnOk result (HasMet targets.now.keys met.old.keys met.new.keys
        (fill.reached_scope (names_in (trees names.now)) (plains (from_list args.now)))) }
{
    reach_first(alloc, targets, &args[0], met)?;
    match others(alloc, targets, names)? {
        Some(others) => reach(alloc, &others, &args[1], met),
        None => reach(alloc, targets, &args[1], met),
    }
}

/// The same of the parameters of a scope: of the initial values among them.
#[cycle(reach)]
fn reach_first(alloc: Global, targets: &Names, first: &Expr, met: &mut Names) -> Result<(), Memory>
    ensures { OnOk result (HasMet targets.now.keys met.old.keys met.new.keys (fill.reached_first (plain first.now))) }
{
    let Look::Node(head, formals) = first.view() else {
        return Ok(());
    };
    reach(alloc, targets, head, met)?;
    reach_formals(alloc, targets, formals, met)
}

#[cycle(reach)]
#[tactic(auto, using(wl_expr::proofs::Parts::depth_arg))]
fn reach_formals(
    alloc: Global,
    targets: &Names,
    formals: &[Expr],
    met: &mut Names,
) -> Result<(), Memory>
    ensures { OnOk result (HasMet targets.now.keys met.old.keys met.new.keys (fill.reached_formals (plains (from_list formals.now)))) }
{
    for formal in formals {
        reach_formal(alloc, targets, formal, met)?;
    }
    Ok(())
}

#[cycle(reach)]
fn reach_formal(
    alloc: Global,
    targets: &Names,
    formal: &Expr,
    met: &mut Names,
) -> Result<(), Memory>
    ensures { OnOk result (HasMet targets.now.keys met.old.keys met.new.keys (fill.reached_formal (plain formal.now))) }
{
    let Look::Node(head, parts) = formal.view() else {
        return Ok(());
    };
    match two(parts) {
        Some((_, value)) => {
            reach(alloc, targets, head, met)?;
            reach(alloc, targets, value, met)
        }
        None => Ok(()),
    }
}
