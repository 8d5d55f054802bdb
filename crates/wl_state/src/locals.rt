//! Local names, as they stand in the list of Module, With or Block.
ghost use Rattle.std.specs.Prelude.{◌≡◌, IfOk, IfSome, filter_map, map, option_map};
ghost use Rattle.wl_expr.specs.Stamped.{plain};
ghost use Rattle.wl_expr.specs.Tree.{symbol};
ghost use Rattle.wl_rules.specs.Stored.{Stored};
ghost use Rattle.wl_shape.specs.Elements.{is_name};
ghost use Rattle.wl_shape.specs.Fill as fill;
ghost use Rattle.wl_shape.specs.Scopes as scopes;
ghost use Rattle.wl_state.specs.Honest.{HonestIn};
ghost use Rattle.wl_state.specs.LocalNames.{AreLocals, AreSymbols, IsLocal, IsSymbol, local_in, locals_in, name_in};
ghost use Rattle.wl_state.specs.Played.{Makes};
ghost use Rattle.wl_semantics.specs.Scoping.{names_of, values_of};
ghost use Rattle.wl_state.specs.Searching.{needs_values};

use crate::elements::is_symbol;
use std::alloc::Global;
use std::slice;
use wl_expr::{Expr, ExprFault, Look};
use wl_ports::Memory;
use wl_shape::{rename, replace};

/// A local name, a symbol, perhaps with a value.
#[derive(Drop)]
pub struct Local {
    pub name: Expr,
    pub value: Option<Expr>,
}

impl Local {
    /// The same name, with its value shared.
    pub fn copy(&self) -> Result<Local, Memory>
        ensures { IfOk result (λ l. l ≡ self.now) }
    {
        let value = match &self.value {
            None => None,
            Some(value) => Some(value.copy()?),
        };
        Ok(Local {
            name: self.name.copy()?,
            value,
        })
    }
}

/// The name of a symbol.
pub(crate) fn name_of(e: &Expr) -> &str
    ensures { result.now ≡ name_in (plain e.now) }
{
    match e.view() {
        Look::Symbol(name) => name,
        _ => "",
    }
}

fn is_name(e: &Expr) -> bool
    ensures { result ≡ is_name (plain e.now) }
{
    match e.view() {
        Look::Symbol(_) => true,
        _ => false,
    }
}

/// The local name that the expression is: `x = v`, or where a value isn't needed `x`.
fn local_of(e: &Expr, needs_value: bool) -> Result<Option<Local>, Memory>
    ensures read { IfOk result (λ o. option_map local_in o ≡ scopes.local_of (needs_values needs_value) (plain e.now)) }
    ensures honest { (a : Stored) → HonestIn a e.now → IfOk result (λ o. IfSome o (IsLocal a)) }
{
    let Look::Node(head, args) = e.view() else {
        if needs_value || !is_name(e) {
            return Ok(None);
        }
        return Ok(Some(Local {
            name: e.copy()?,
            value: None,
        }));
    };
    if args.len() != 2 {
        return Ok(None);
    }
    if !is_symbol(head, "Set") {
        return Ok(None);
    }
    let name = &args[0];
    if !is_name(name) {
        return Ok(None);
    }
    Ok(Some(Local {
        name: name.copy()?,
        value: Some(args[1].copy()?),
    }))
}

/// The local names that the expression lists.
pub fn locals(alloc: Global, e: &Expr, need_values: bool) -> Result<Option<Vec<Local>>, Memory>
    ensures read { IfOk result (λ o. option_map (λ v. locals_in v.items) o ≡ scopes.locals (needs_values need_values) (plain e.now)) }
    ensures honest { (a : Stored) → HonestIn a e.now → IfOk result (λ o. IfSome o (λ v. AreLocals a v.items)) }
{
    let Look::Node(head, args) = e.view() else {
        return Ok(None);
    };
    if !is_symbol(head, "List") {
        return Ok(None);
    }
    let mut all = Vec::with_capacity(alloc, args.len())?;
    for i in 0..args.len() {
        let Some(name) = local_of(&args[i], need_values)? else {
            return Ok(None);
        };
        all.push(name)?;
    }
    Ok(Some(all))
}

/// The names of local names.
fn names_of(alloc: Global, locals: &[Local]) -> Result<Vec<Expr>, Memory>
    ensures { IfOk result (λ v. v.items ≡ map (λ l. l.name) locals.now) }
{
    let mut names = Vec::with_capacity(alloc, locals.len())?;
    for i in 0..locals.len() {
        names.push(locals[i].name.copy()?)?;
    }
    Ok(names)
}

/// The values that local names have.
fn values_of(alloc: Global, locals: &[Local]) -> Result<Vec<Expr>, Memory>
    ensures { IfOk result (λ v. v.items ≡ filter_map (λ l. l.value) locals.now) }
{
    let mut values = Vec::with_capacity(alloc, locals.len())?;
    for i in 0..locals.len() {
        if let Some(value) = &locals[i].value {
            values.push(value.copy()?)?;
        }
    }
    Ok(values)
}

/// The symbol of a local variable of the n-th Module.
pub(crate) fn numbered(alloc: Global, name: &Expr, n: u64) -> Result<Expr, Memory>
    requires symbol { IsSymbol name.now }
    ensures symbol { IfOk result (λ e. plain e ≡ symbol (fill.numbered n (name_in (plain name.now)))) }
    ensures honest { (a : Stored) → HonestIn a name.now → IfOk result (HonestIn a) }
{
    match rename(alloc, name, slice::from_ref(name), n) {
        Ok(e) => Ok(e),
        // A name that is too long takes more memory than there is.
        Err(_) => Err(Memory),
    }
}

/// The body with the local names renamed to those of the n-th Module.
pub fn renamed(alloc: Global, body: &Expr, locals: &[Local], n: u64) -> Result<Expr, ExprFault>
    requires symbols { AreSymbols locals.now }
    ensures made { Makes (fill.rename (plain body.now) (names_of (locals_in locals.now)) n) result }
    ensures honest { (a : Stored) → HonestIn a body.now → IfOk result (HonestIn a) }
{
    let names = names_of(alloc, locals)?;
    rename(alloc, body, names.as_slice(), n)
}

/// The body with the values of the local names in their place.
pub fn replaced(alloc: Global, body: &Expr, locals: &[Local]) -> Result<Expr, ExprFault>
    requires symbols { AreSymbols locals.now }
    ensures made { Makes (fill.replace (plain body.now) (names_of (locals_in locals.now)) (values_of (locals_in locals.now))) result }
    ensures honest { (a : Stored) → HonestIn a body.now → AreLocals a locals.now → IfOk result (HonestIn a) }
{
    let mut names = names_of(alloc, locals)?;
    let values = values_of(alloc, locals)?;
    let given = values.as_slice();
    // In With each name has a value.
    names.truncate(given.len());
    replace(alloc, body, names.as_slice(), given)
}
