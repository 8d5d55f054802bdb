//! The shape of a node without Unevaluated, and the attributes of its head.
ghost use Rattle.std.specs.Prelude.{◌≡◌, IfOk, List, Ok, false, map, true};
ghost use Rattle.wl_expr.specs.Passed.{IsFrom};
ghost use Rattle.wl_expr.specs.Stamped.{Stamped, plain};
ghost use Rattle.wl_expr.specs.Tree.{Tree};
ghost use Rattle.wl_expr.specs.Words.{applied};
ghost use Rattle.wl_shape.specs.Answers.{AllFrom, IsShaped, ShapedIsFrom};
ghost use Rattle.wl_shape.specs.Shape.{rebuilt, shape};
ghost use Rattle.wl_semantics.specs.Elements.{bare, bared, is_bared, is_unevaluated};
ghost use Rattle.wl_state.specs.Played.{Plays, Sound, trees};
ghost use Rattle.wl_semantics.specs.Prog as prog;
ghost use Rattle.wl_state.specs.Marks.{at_last_mark};

use crate::elements::{is_form, is_symbol};
use crate::evaluator::Evaluator;
use std::alloc::Global;
use wl_expr::{Expr, ExprFault, Look};
use wl_ports::{Ledger, Memory, Work};
use wl_rules::{Attribute, Attributes};
use wl_shape::{Shaped, arrange};

/// The element of `Unevaluated[e]`, and any other expression itself.
fn bare(e: &Expr) -> &Expr
    ensures value { plain result.now ≡ bare (plain e.now) }
    ensures passed { (ms : List Stamped) → IsFrom ms e.now → IsFrom ms result.now }
{
    match e.view() {
        Look::Node(head, [inner]) if is_symbol(head, "Unevaluated") => inner,
        _ => e,
    }
}

fn is_unevaluated(e: &Expr) -> bool
    ensures { result ≡ is_unevaluated (plain e.now) }
{
    match e.view() {
        Look::Node(head, [_]) => is_symbol(head, "Unevaluated"),
        _ => false,
    }
}

/// Whether an Unevaluated is taken away from an element.
pub fn is_bared(attributes: Attributes, values: &[Expr]) -> bool
    ensures { result ≡ is_bared attributes (trees values.now) }
{
    if attributes.has(Attribute::HoldAllComplete) {
        return false;
    }
    for value in values {
        if is_unevaluated(value) {
            return true;
        }
    }
    false
}

/// The elements without Unevaluated.
fn all_bare(alloc: Global, values: &[Expr]) -> Result<Vec<Expr>, Memory>
    ensures value { IfOk result (λ v. trees v.items ≡ map bare (trees values.now)) }
    ensures passed { (ms : List Stamped) → AllFrom ms values.now → IfOk result (λ v. AllFrom ms v.items) }
{
    let mut all = Vec::with_capacity(alloc, values.len())?;
    for value in values {
        all.push(bare(value).copy()?)?;
    }
    Ok(all)
}

/// Whether a node of these elements is shaped already.
pub fn stays(attributes: Attributes, values: &[Expr]) -> bool
    ensures { result ≡ true → (h : Tree) → shape attributes h (trees values.now) ≡ rebuilt (applied h (trees values.now)) }
{
    if attributes.has(Attribute::Flat)
        || attributes.has(Attribute::Listable)
        || attributes.has(Attribute::Orderless)
    {
        return false;
    }
    for value in values {
        if is_form(value, "Sequence") {
            return false;
        }
    }
    true
}

/// What a node of this head and these elements is shaped to, once Unevaluated is taken away, where there is one.
pub fn shaped(
    alloc: Global,
    changed: bool,
    head: &Expr,
    values: &[Expr],
    attributes: Attributes,
) -> Result<Shaped, ExprFault>
    requires { changed ≡ is_bared attributes (trees values.now) }
    ensures shaped { IsShaped (shape attributes (plain head.now) (bared attributes (trees values.now))) result }
    ensures passed { (ms : List Stamped) → IsFrom ms head.now → AllFrom ms values.now
        → IfOk result (ShapedIsFrom ms) }
{
    if !changed {
        return arrange(alloc, head, values, attributes);
    }
    let bare = all_bare(alloc, values)?;
    arrange(alloc, head, bare.as_slice(), attributes)
}

impl Evaluator {
    /// The attributes of a head, where it is a symbol.
    pub fn attributes_of_head<L: Ledger>(
        &mut self,
        head: &Expr,
        work: &mut Work<L>,
    ) -> Result<Attributes, Memory>
        requires sound { Sound self.old }
        ensures played { IfOk result (λ a. Plays (prog.attributes_of (plain head.now)) self.old (Ok a) self.new false) }
        ensures kept { self.new.steps ≡ self.old.steps }
        ensures ticks { at_last_mark work.new ≡ at_last_mark work.old }
    {
        match head.view() {
            Look::Symbol(name) => self.attributes_of(name, work),
            _ => Ok(Attributes::none()),
        }
    }
}
