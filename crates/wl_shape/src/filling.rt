//! The calls that replace names in a body.
ghost use Rattle.std.specs.Prelude.{◌≡◌, [], IfOk, IfSome, length, List, None, OnOk, option_map, true};
ghost use Rattle.std.specs.List.{list_all};
ghost use Rattle.wl_expr.specs.Passed.{IsFrom};
ghost use Rattle.wl_expr.specs.Stamped.{Stamped, plain, symbol as stamped_symbol};
ghost use Rattle.wl_expr.specs.Tree as tree;
ghost use Rattle.wl_expr.specs.Tree.{IsWithinLimits};
ghost use Rattle.wl_expr.specs.Words.{Name};
ghost use Rattle.wl_match.specs.Search.{run_of};
ghost use Rattle.wl_match.specs.Shown.{AreFrom, trail_in};
ghost use Rattle.wl_ports.specs.Name.{IsName};
ghost use Rattle.wl_shape.specs.Answers.{AllFrom, IsFilled, IsMade, trees};
ghost use Rattle.wl_shape.specs.Elements.{is_name};
ghost use Rattle.wl_shape.specs.Fill as fill;
ghost use Rattle.wl_shape.specs.Given.{DoesNotFit, GivenFrom, NoneStands, PairsFrom, given_tree, given_values, one_pair, paired_with};
ghost use Rattle.wl_shape.specs.Held.{IsReady, ValuesFrom, values_in};
ghost use Rattle.wl_shape.specs.Names.{names_in};
ghost use Rattle.wl_shape.specs.Standing.{AgreeOn};
ghost use Rattle.wl_shape.specs.Walks.{has_scope};

use crate::names::{Names, add_names, has, set_of};
use crate::reaching::reached;
use crate::runs::run_tree;
use crate::scopes::has_scope;
use crate::values::{Values, value_of};
use crate::walk::filled;
use indexmap::{IndexMap, IndexSet};
use std::alloc::Global;
use wl_expr::{Expr, ExprFault, Look};
use wl_match::View;
use wl_ports::Memory;

/// What is to stand for names.
#[derive(Clone, Copy)]
pub(crate) enum Given<'a> {
    /// These trees, each for the symbol that is its key.
    Trees(&'a IndexMap<Expr, Expr>),
    /// The symbols of local variables of the Module of this number.
    Numbered(&'a Names, u64),
    /// What a match has bound.
    Bound(&'a View<'a, 'a>),
}

/// The symbol of a local variable of the n-th Module.
fn numbered(alloc: Global, name: &str, n: u64) -> Result<Expr, ExprFault>
    requires { IsName name.now }
    ensures symbol { IfOk result (λ e. e ≡ stamped_symbol None (fill.numbered n name.now)) }
    ensures large { result ≡ Err ExprFault.Large → ¬ IsWithinLimits (tree.symbol (fill.numbered n name.now)) }
{
    let text = format!(in alloc; "{name}${n}")?;
    Expr::symbol(alloc, text.as_str())
}

impl<'a> Given<'a> {
    /// What stands for a symbol.
    fn tree(self, alloc: Global, e: &Expr) -> Result<Option<Expr>, ExprFault>
        ensures tree { IfOk result (λ o. option_map plain o ≡ given_tree self.entry (plain e.now)) }
        ensures large { result ≡ Err ExprFault.Large → DoesNotFit (given_tree self.entry (plain e.now)) }
        ensures passed { (ms : List Stamped) → GivenFrom ms self.entry → IfOk result (λ o. IfSome o (IsFrom ms)) }
    {
        let Look::Symbol(name) = e.view() else {
            return Ok(None);
        };
        match self {
            Given::Trees(trees) => match trees.get(e) {
                Some(tree) => Ok(Some(tree.copy()?)),
                None => Ok(None),
            },
            Given::Bound(view) => match view.run(name) {
                Some(run) => Ok(Some(run_tree(alloc, run)?)),
                None => Ok(None),
            },
            Given::Numbered(names, n) => {
                if has(names, e) {
                    Ok(Some(numbered(alloc, name, n)?))
                } else {
                    Ok(None)
                }
            }
        }
    }
}

/// What stands for the names that filling reaches in the body.
fn prepared(alloc: Global, given: Given<'_>, body: &Expr) -> Result<Values, ExprFault>
    ensures agrees { IfOk result (λ v. AgreeOn (fill.reached (plain body.now)) (values_in v) (given_values given.entry)) }
    ensures ready { has_scope (plain body.now) ≡ true → IfOk result IsReady }
    ensures passed { (ms : List Stamped) → GivenFrom ms given.entry → IfOk result (ValuesFrom ms) }
    ensures large { result ≡ Err ExprFault.Large → ¬ IsWithinLimits (fill.fill (given_values given.entry) (plain body.now)) }
    ensures none { NoneStands (fill.reached (plain body.now)) (given_values given.entry) → IfOk result (λ v. v.map.entries ≡ []) }
{
    let mut names = IndexSet::new(alloc);
    add_names(body, &mut names)?;
    let met = reached(alloc, &names, body)?;
    let known = has_scope(body);
    let mut values = Values::new(alloc);
    for name in met.as_slice() {
        if let Some(tree) = given.tree(alloc, name)? {
            values.put(name, value_of(alloc, tree, known)?)?;
        }
    }
    Ok(values)
}

/// The body with what stands for names in their place.
fn filled_by(alloc: Global, values: &Values, body: &Expr) -> Result<Expr, ExprFault>
    requires { has_scope (plain body.now) ≡ true → IsReady values.now }
    ensures made { IsMade (fill.fill (values_in values.now) (plain body.now)) result }
    ensures passed { (ms : List Stamped) → IsFrom ms body.now → ValuesFrom ms values.now → IfOk result (IsFrom ms) }
    ensures kept { values.now.map.entries ≡ [] → IfOk result (λ e. e ≡ body.now) }
{
    match filled(alloc, values, body)? {
        Some(e) => Ok(e),
        None => Ok(body.copy()?),
    }
}

/// The same of what is given.
fn filled_with(alloc: Global, given: Given<'_>, body: &Expr) -> Result<Expr, ExprFault>
    ensures filled { IsFilled (fill.fill (given_values given.entry) (plain body.now)) result }
    ensures passed { (ms : List Stamped) → IsFrom ms body.now → GivenFrom ms given.entry → IfOk result (IsFrom ms) }
    ensures kept { NoneStands (fill.reached (plain body.now)) (given_values given.entry) → IfOk result (λ e. e ≡ body.now) }
{
    let values = prepared(alloc, given, body)?;
    let e = filled_by(alloc, &values, body)?;
    let _weight = e.weight();
    Ok(e)
}

/// Puts the pair, where the name has none yet.
fn put_first(pairs: &mut IndexMap<Expr, Expr>, name: &Expr, value: &Expr) -> Result<(), Memory>
    ensures value { OnOk result ((x : Name) → paired_with pairs.new.entries (tree.symbol x)
        ≡ fill.or_else (paired_with pairs.old.entries (tree.symbol x)) (one_pair (plain name.now) (plain value.now) x)) }
    ensures passed { (ms : List Stamped) → PairsFrom ms pairs.old.entries → IsFrom ms value.now → OnOk result (PairsFrom ms pairs.new.entries) }
{
    if pairs.contains_key(name) {
        return Ok(());
    }
    pairs.insert(name.copy()?, value.copy()?)?;
    Ok(())
}

/// The values by their names. Of equal names the first counts.
fn paired(alloc: Global, names: &[Expr], values: &[Expr]) -> Result<IndexMap<Expr, Expr>, Memory>
    requires symbols { list_all is_name (trees names.now) ≡ true }
    requires lengths { length names.now ≡ length values.now }
    ensures value { IfOk result (λ m. (x : Name) → paired_with m.entries (tree.symbol x)
        ≡ fill.given (names_in (trees names.now)) (trees values.now) x) }
    ensures passed { (ms : List Stamped) → AllFrom ms values.now → IfOk result (λ m. PairsFrom ms m.entries) }
{
    let mut pairs = IndexMap::new(alloc);
    for k in 0..names.len() {
        put_first(&mut pairs, &names[k], &values[k])?;
    }
    Ok(pairs)
}

/// The body with the names replaced by the values, of equal names by the first one's. What filling doesn't reach stays: the names
/// that an inner `Function`, `Module` or `With` shadows. Such a scope's parameters get new names where they would capture. `Large`
/// where the tree doesn't fit.
pub fn replace(
    alloc: Global,
    body: &Expr,
    names: &[Expr],
    values: &[Expr],
) -> Result<Expr, ExprFault>
    requires symbols { list_all is_name (trees names.now) ≡ true }
    requires lengths { length names.now ≡ length values.now }
    ensures filled { IsFilled (fill.replace (plain body.now) (names_in (trees names.now)) (trees values.now)) result }
    ensures passed { (ms : List Stamped) → IsFrom ms body.now → AllFrom ms values.now → IfOk result (IsFrom ms) }
    ensures kept { NoneStands (fill.reached (plain body.now)) (fill.given (names_in (trees names.now)) (trees values.now))
        → IfOk result (λ e. e ≡ body.now) }
{
    let pairs = paired(alloc, names, values)?;
    filled_with(alloc, Given::Trees(&pairs), body)
}

/// The body with what the match has bound in the place of its names: the element of a run of one, a `Sequence` for another run.
/// Scopes and `Large` as for `replace`.
pub fn fill(alloc: Global, body: &Expr, view: &View<'_, '_>) -> Result<Expr, ExprFault>
    ensures filled { IsFilled (fill.fill_binding (plain body.now) (λ x. run_of x (trail_in view.now))) result }
    ensures passed { (ms : List Stamped) → IsFrom ms body.now → AreFrom ms view.now → IfOk result (IsFrom ms) }
    ensures kept { NoneStands (fill.reached (plain body.now)) (fill.binding (λ x. run_of x (trail_in view.now)))
        → IfOk result (λ e. e ≡ body.now) }
{
    filled_with(alloc, Given::Bound(view), body)
}

/// The body with the names renamed to those of local variables of the n-th Module, `x` to `x$n`. `Large` where the tree doesn't fit.
pub fn rename(alloc: Global, body: &Expr, names: &[Expr], n: u64) -> Result<Expr, ExprFault>
    requires { list_all is_name (trees names.now) ≡ true }
    ensures filled { IsFilled (fill.rename (plain body.now) (names_in (trees names.now)) n) result }
    ensures passed { (ms : List Stamped) → IsFrom ms body.now → IfOk result (IsFrom ms) }
    ensures kept { NoneStands (fill.reached (plain body.now)) (fill.numbered_names (names_in (trees names.now)) n)
        → IfOk result (λ e. e ≡ body.now) }
{
    let locals = set_of(alloc, names)?;
    filled_with(alloc, Given::Numbered(&locals, n), body)
}
